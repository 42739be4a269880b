//! What a task works on.
ghost use Rattle.clear_load.specs.Sources.{source_of};
ghost use Rattle.std.specs.Prelude.{◌≡◌};

use clear_words::Task;

/// What a task works on.
#[derive(Clone, Copy, Debug, PartialEq, Eq)]
pub enum Source {
    /// The network of a banks file and a debts file.
    Files,
    /// This network, and the scenarios of a third file.
    FilesAndScenarios,
    /// This network, and the journal of a third file.
    FilesAndJournal,
    /// This network, and one of its banks, by name.
    FilesAndBank,
    /// A network that is made from numbers.
    Generated,
}

/// What a task works on: a row for each task.
pub fn source_of(task: Task) -> Source
    ensures { result ≡ source_of task }
{
    match task {
        Task::Check => Source::Files,
        Task::Clear => Source::Files,
        Task::Central => Source::Files,
        Task::Defaults => Source::Files,
        Task::Stress => Source::FilesAndScenarios,
        Task::Replay => Source::FilesAndJournal,
        Task::Gen => Source::Generated,
        Task::Convert => Source::Files,
        Task::Bounds => Source::Files,
        Task::Rescue => Source::FilesAndBank,
        Task::Compress => Source::Files,
        Task::Costs => Source::Files,
        Task::Breaking => Source::Files,
        Task::Impact => Source::Files,
        Task::Rescues => Source::Files,
        Task::Outcomes => Source::FilesAndScenarios,
        Task::CostBounds => Source::Files,
    }
}
