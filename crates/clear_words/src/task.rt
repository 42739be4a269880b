//! The table of tasks: the word of each, and the options that it requires or allows.
ghost use Rattle.clear_words.specs.Tasks.{both_files, nothing, on_workers, task_named, use_in};
ghost use Rattle.clear_words.specs.Tasks.{uses_of};
ghost use Rattle.std.specs.Prelude.{◌≡◌};

use crate::option::JobOption;

/// What a command line asks for.
#[derive(Clone, Copy, Debug, PartialEq, Eq)]
pub enum Task {
    /// To check the files and print them back.
    Check,
    /// To clear the network.
    Clear,
    /// To clear the network centrally, on one thread.
    Central,
    /// To clear the network, and tell how each bank stands and who defaults.
    Defaults,
    /// To clear the network under each scenario of a file.
    Stress,
    /// To judge a journal.
    Replay,
    /// To generate a network and clear it.
    Gen,
    /// To print the banks in the second form of their file.
    Convert,
    /// To tell the least and the greatest clearing payments.
    Bounds,
    /// To tell the least sum that saves a bank.
    Rescue,
    /// To cancel the debts that run round a cycle.
    Compress,
    /// To clear the network where a default has costs (Rogers and Veraart 2013).
    Costs,
    /// To tell the least cut of all cash that breaks each bank.
    Breaking,
    /// To tell what the ruin of each bank takes from each other.
    Impact,
    /// To tell the least sum that saves each bank in default, and whom else it saves.
    Rescues,
    /// To clear the network under each scenario of a file, and tell the sums.
    Outcomes,
    /// To tell the least and the greatest clearing payments where a default has costs.
    CostBounds,
}

// What a task makes of an option.
#[derive(Clone, Copy, Debug, PartialEq, Eq)]
pub(crate) enum Use {
    Refused,
    Allowed,
    Required,
}

// What a task makes of each option.
#[derive(Clone, Copy, Debug, PartialEq, Eq)]
pub(crate) struct Uses {
    banks: Use,
    debts: Use,
    scenarios: Use,
    journal: Use,
    bank: Use,
    workers: Use,
    sweeps: Use,
    show: Use,
    seed: Use,
    size: Use,
    tries: Use,
    keep: Use,
    limits: Use,
}

impl Uses {
    // No option.
    fn nothing() -> Uses
        ensures { result ≡ nothing }
    {
        Uses {
            banks: Use::Refused,
            debts: Use::Refused,
            scenarios: Use::Refused,
            journal: Use::Refused,
            bank: Use::Refused,
            workers: Use::Refused,
            sweeps: Use::Refused,
            show: Use::Refused,
            seed: Use::Refused,
            size: Use::Refused,
            tries: Use::Refused,
            keep: Use::Refused,
            limits: Use::Refused,
        }
    }

    // The files of a network, and no other option but the limits by which they are read.
    fn both_files() -> Uses
        ensures { result ≡ both_files }
    {
        Uses {
            banks: Use::Required,
            debts: Use::Required,
            limits: Use::Allowed,
            ..Uses::nothing()
        }
    }

    // These options, for a task that a number of workers carries out.
    fn on_workers(self) -> Uses
        ensures { result ≡ on_workers self }
    {
        Uses {
            workers: Use::Allowed,
            sweeps: Use::Allowed,
            ..self
        }
    }

    // What the task makes of an option.
    pub(crate) fn of(self, option: JobOption) -> Use
        ensures { result ≡ use_in self option }
    {
        match option {
            JobOption::Banks => self.banks,
            JobOption::Debts => self.debts,
            JobOption::Scenarios => self.scenarios,
            JobOption::Journal => self.journal,
            JobOption::Bank => self.bank,
            JobOption::Workers => self.workers,
            JobOption::Sweeps => self.sweeps,
            JobOption::Show => self.show,
            JobOption::Seed => self.seed,
            JobOption::Size => self.size,
            JobOption::Tries => self.tries,
            JobOption::Keep => self.keep,
            JobOption::Limits => self.limits,
        }
    }
}

impl Task {
    // The task that a word names.
    pub(crate) fn named(word: &str) -> Option<Task>
        ensures { result ≡ task_named word.now }
    {
        match word {
            "check" => Some(Task::Check),
            "clear" => Some(Task::Clear),
            "central" => Some(Task::Central),
            "defaults" => Some(Task::Defaults),
            "stress" => Some(Task::Stress),
            "replay" => Some(Task::Replay),
            "gen" => Some(Task::Gen),
            "convert" => Some(Task::Convert),
            "bounds" => Some(Task::Bounds),
            "rescue" => Some(Task::Rescue),
            "compress" => Some(Task::Compress),
            "costs" => Some(Task::Costs),
            "breaking" => Some(Task::Breaking),
            "impact" => Some(Task::Impact),
            "rescues" => Some(Task::Rescues),
            "outcomes" => Some(Task::Outcomes),
            "cost-bounds" => Some(Task::CostBounds),
            _ => None,
        }
    }

    // What the task makes of each option.
    pub(crate) fn uses(self) -> Uses
        ensures { result ≡ uses_of self }
    {
        let both_files = Uses::both_files();
        match self {
            Task::Check => both_files,
            Task::Clear => Uses {
                show: Use::Allowed,
                ..both_files.on_workers()
            },
            Task::Central => both_files,
            Task::Defaults => both_files.on_workers(),
            Task::Stress => Uses {
                scenarios: Use::Required,
                ..both_files.on_workers()
            },
            Task::Replay => Uses {
                journal: Use::Required,
                ..both_files
            },
            Task::Gen => Uses {
                seed: Use::Required,
                size: Use::Required,
                tries: Use::Required,
                ..Uses::nothing().on_workers()
            },
            Task::Convert => both_files,
            Task::Bounds => both_files.on_workers(),
            Task::Rescue => Uses {
                bank: Use::Required,
                ..both_files.on_workers()
            },
            Task::Compress => both_files,
            Task::Costs | Task::CostBounds => Uses {
                keep: Use::Required,
                ..both_files
            },
            Task::Breaking | Task::Impact | Task::Rescues => both_files,
            Task::Outcomes => Uses {
                scenarios: Use::Required,
                ..both_files
            },
        }
    }
}
