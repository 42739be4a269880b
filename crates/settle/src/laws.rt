//! The laws of rounds, for any plain data. A law has nothing to run; its `ensures` is proved.
ghost use Rattle.bank_worker.specs.Views.{WorkerView};
ghost use Rattle.clear_core.specs.declared.event.Raise.{Raise};
ghost use Rattle.clr_net.specs.Limits.{IsNetwork};
ghost use Rattle.clr_net.specs.Net.{Net};
ghost use Rattle.pay_words.specs.Traces.{start_of};
ghost use Rattle.pay_words.specs.Views.{BoardView, opening};
ghost use Rattle.pay_words.specs.declared.view.Shown.{Shown};
ghost use Rattle.settle.specs.Bells.{AreAllDown, IsIdle, NobodyCanPayMore};
ghost use Rattle.settle.specs.Between.{IsBetween, IsRoundOf, opened_workers};
ghost use Rattle.settle.specs.ByHand.{after_round};
ghost use Rattle.settle.specs.Drives.{AreRoundsFrom, IsPlan};
ghost use Rattle.settle.specs.Made.{AreMadeByBells, IsJournalByBells, workers_of, workers_of_run};
ghost use Rattle.settle.specs.Rounds.{AreRounded};
ghost use Rattle.settle.specs.Runs.{IsSettled};
ghost use Rattle.settle.specs.declared.plan.Plan.{Plan};
ghost use Rattle.settle.specs.declared.runs.Settled.{Settled};
ghost use Rattle.std.specs.Prelude.{◌≡◌, ◌*◌, ℕ, List};

/// A board that was just opened stands between two rounds.
pub fn opened_boards_stand_between_rounds()
    ensures { (net : Net) (past : List Raise) → IsNetwork net
        → IsBetween net (opening net (start_of net past)) }
{}

/// It does so again once a seat was handed to each worker, each made a round in which no visit
/// found want of memory, and all seats were taken back, the last worker's first: whoever makes the
/// calls.
pub fn boards_stand_between_rounds_after_each()
    ensures { (board : BoardView) (net : Net) (plan : Plan) (units : ℕ) (s : Shown)
        (ws : List WorkerView) → net ≡ board.net → plan.workers ≡ board.table.workers
        → IsPlan plan → IsBetween net s
        → AreRounded plan.sweeps units (opened_workers plan.workers board.table s plan.workers) ws
        → IsBetween net (after_round plan.workers ws s) }
{}

/// Whatever rounds were made one after another: all that was raised in them the very workers of these
/// rounds raised, each of which did nothing but visits to which bells called it.
pub fn raises_of_rounds_are_made_in_visits_by_bells()
    ensures { (net : Net) (plan : Plan) (s t : Shown) (ns : List ℕ)
        → (rounds : AreRoundsFrom net plan s ns t)
        → AreMadeByBells (workers_of net plan s t ns rounds) s t }
{}

/// So it is in a whole run: beside the past the journal has what the workers of its rounds raised, in
/// visits to which bells called, each raise once and in order, and no other raise. They are as many
/// as rounds times workers, and made all visits that are counted.
pub fn raises_of_a_run_are_made_in_visits_by_bells()
    ensures { (net : Net) (past : List Raise) (plan : Plan) (settled : Settled)
        → (run : IsSettled net past plan settled)
        → IsJournalByBells past (workers_of_run run.at_rest.rounds_are)
        (settled.rounds * plan.workers) settled.visits settled.sealed.journal }
{}

/// At each moment between two atomic steps at which all bells of a board are down, and a seat that
/// holds all banks is idle, nobody can pay more: the payments are the least that clear. So it is
/// whoever made the rounds, and whether anyone looks at the bells.
pub fn nobody_can_pay_more_once_all_bells_are_down()
    ensures { (board : BoardView) (words : List ℕ) (s : Shown) → AreAllDown board words s
        → IsIdle board.net s → NobodyCanPayMore board.net words s }
{}

/// So it is once a round in which no visit found want of memory was joined.
pub fn nobody_can_pay_more_once_a_round_ends_with_all_bells_down()
    ensures { (board : BoardView) (plan : Plan) (units visits : ℕ) (s t : Shown) (words : List ℕ)
        → IsPlan plan → IsRoundOf board.net plan units visits s t → AreAllDown board words t
        → NobodyCanPayMore board.net words t }
{}

/// So it is in a run, before its first round and after each. The next round, if there is one, raises
/// nothing then, and is the last.
pub fn a_run_ends_with_the_next_round_once_all_bells_are_down()
    ensures nobody { (board : BoardView) (plan : Plan) (ns : List ℕ) (s : Shown) (words : List ℕ)
        → IsPlan plan
        → AreRoundsFrom board.net plan (opening board.net (start_of board.net board.past)) ns s
        → AreAllDown board words s → NobodyCanPayMore board.net words s }
    ensures last { (board : BoardView) (plan : Plan) (ns : List ℕ) (s t : Shown) (words : List ℕ)
        (units visits : ℕ) → IsPlan plan
        → AreRoundsFrom board.net plan (opening board.net (start_of board.net board.past)) ns s
        → AreAllDown board words s → IsRoundOf board.net plan units visits s t → units ≡ 0 }
{}
