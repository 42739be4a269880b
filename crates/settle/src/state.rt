ghost use Rattle.bank_worker.specs.BankSets.{is_in};
ghost use Rattle.clr_net.specs.declared.TheConstants.{MAX_BANKS};
ghost use Rattle.raise_journal.specs.Gathered.{HasMerged};
ghost use Rattle.std.specs.Prelude.{◌≡◌, ◌<◌, ℕ, [], IfOk, true};

use bank_worker::{BankSet, Office};
use clear_core::{Journal, Raise};
use clr_net::Mem;
use raise_journal::merge_in;
use std::alloc::Global;

/// What a run has between two rounds, beside its master: the raises so far, those of the last round
/// that are not among them yet, the offices of its workers, the last worker's first, and the banks
/// that are called.
#[derive(Drop)]
pub struct RunState {
    pub journal: Journal,
    pub waiting: Vec<Journal>,
    pub offices: Vec<Office>,
    pub called: BankSet,
}

impl RunState {
    /// Before the first round: the raises are those of the past, and all banks are called. `Mem` is
    /// want of memory.
    pub fn of(alloc: Global, past: &[Raise], offices: Vec<Office>) -> Result<RunState, Mem>
        ensures journal { IfOk result (λ s. HasMerged [] s.journal.raises 0 past.now) }
        ensures none_waits { IfOk result (λ s. s.waiting.items ≡ []) }
        ensures offices { IfOk result (λ s. s.offices ≡ offices) }
        ensures called { IfOk result (λ s. (b : ℕ) → b < MAX_BANKS → is_in s.called b ≡ true) }
    {
        let mut journal = Journal::empty(alloc);
        merge_in(alloc, &mut journal, 0, past)?;
        Ok(RunState {
            journal,
            waiting: Vec::new(alloc),
            offices,
            called: BankSet::all(),
        })
    }
}
