//! What follows from how a run ends. A law has nothing to run; its `ensures` is proved.
ghost use Rattle.clear_load.specs.Loading.{NoneRose, OnFiles, ShelfCall};
ghost use Rattle.clear_load.specs.Reading.{Files, Input, reading};
ghost use Rattle.clear_top.specs.Ending.{IsUntouched, IsUsageOrMem, RunEnds};
ghost use Rattle.clear_top.specs.Evidence.{IsEvidence, ReplaysText, ShowsJournal};
ghost use Rattle.clear_top.specs.Laws.{AnswersRecord, BlamesNoFile, IsFoundUnlawful};
ghost use Rattle.clear_top.specs.Laws.{IsRefusedOrMem, WasPartWritten, WasWritten};
ghost use Rattle.clear_top.specs.Laws.{WritesText, WroteSummary};
ghost use Rattle.clear_top.specs.Meaning.{Means};
ghost use Rattle.clear_top.specs.Outcome.{Outcome};
ghost use Rattle.clear_top.specs.Printed.{PrintsLeast, ShowsPayments};
ghost use Rattle.clear_top.specs.Visited.{IsAllByBells};
ghost use Rattle.clear_top.specs.declared.status.Ended.{Ended};
ghost use Rattle.clear_top.specs.declared.status.Status.{Status};
ghost use Rattle.clear_words.specs.declared.job.Job.{Job};
ghost use Rattle.clear_words.specs.declared.task.Task.{Task};
ghost use Rattle.clr_edge.specs.Taking.{SinkCall, SinkRose};
ghost use Rattle.net_check.specs.declared.fault.Fault.{Fault};
ghost use Rattle.pay_words.specs.Sealed.{Sealed};
ghost use Rattle.raise_journal.specs.declared.verdict.Verdict.{Verdict};
ghost use Rattle.std.specs.Prelude.{◌≡◌, ◌≢◌, ◌⊎◌, ◌↔◌, Option, IsSome};
ghost use Rattle.std.specs.Prelude.{None, Some, Ok, Err};

/// A usage fault comes exactly where the words ask for no job, unless memory is wanting.
pub fn usage_comes_where_no_job_is_asked_for()
    ensures { (shelf : ShelfCall) (sink : SinkCall) (job : Option Job) (e : Ended)
        → RunEnds shelf sink job e
        → (e.status ≡ Status.Usage → job ≡ None) × (job ≡ None → IsUsageOrMem e.status) }
{}

/// Of the files on which the job works: a refusal tells their first fault, or that no bank has the
/// name in its words, and it comes wherever there is one and no fault of the shelf is
/// counted at the job's names, unless memory is wanting.
pub fn the_first_fault_is_refused()
    ensures { (shelf : ShelfCall) (sink : SinkCall) (job : Job) (e : Ended) (f : Fault)
        → RunEnds shelf sink (Some job) e
        → OnFiles shelf.files job (λ told.
        (e.status ≡ Status.Refused f → reading told job ≡ Some (Err f))
        × (reading told job ≡ Some (Err f) → NoneRose shelf job → IsRefusedOrMem f e.status)) }
{}

/// Of the files on which the job works: what is written is what the job comes to, whole where the
/// run is done or the journal unlawful, and a part of it from its front where the sink failed;
/// the record that is answered is that of what is written.
pub fn what_is_written_is_what_the_job_comes_to()
    ensures { (shelf : ShelfCall) (sink : SinkCall) (job : Job) (e : Ended)
        → RunEnds shelf sink (Some job) e
        → OnFiles shelf.files job (λ told. (WritesText e.status → WasWritten told sink job e)
        × (e.status ≡ Status.WriteFault → WasPartWritten told sink job e)) }
{}

/// Of the files on which the job works: where a job is accepted, and in its run no fault is
/// counted at its files' names or at the sink, what it comes to is written whole, unless memory
/// is wanting, and then nothing is written.
pub fn what_an_accepted_job_comes_to_is_written()
    ensures { (shelf : ShelfCall) (sink : SinkCall) (job : Job) (e : Ended) (on : Input)
        → RunEnds shelf sink (Some job) e
        → OnFiles shelf.files job (λ told. reading told job ≡ Some (Ok on)
        → NoneRose shelf job → ¬ (SinkRose sink)
        → WasWritten told sink job e ⊎ ((e.status ≡ Status.Mem) × (sink.new ≡ sink.old))) }
{}

/// Nothing is written, and there is no record, but where the run is done, the journal unlawful, or
/// the sink failed.
pub fn nothing_else_is_written()
    ensures { (shelf : ShelfCall) (sink : SinkCall) (job : Option Job) (e : Ended)
        → RunEnds shelf sink job e → ¬ (WritesText e.status) → e.status ≢ Status.WriteFault
        → IsUntouched sink e.sealed }
{}

/// A record is answered exactly where the task clears a network on one board, and its text was
/// written, whole or in part.
pub fn records_are_of_tasks_on_one_board()
    ensures { (shelf : ShelfCall) (sink : SinkCall) (job : Option Job) (e : Ended)
        → RunEnds shelf sink job e → IsSome e.sealed ↔ AnswersRecord job e.status }
{}

/// Of every shelf and sink: each raise of the record that is answered was made in a visit to
/// which a bell called. Its journal has what the workers of its rounds raised, each of which did
/// nothing but such visits, and no other raise; after a rescue, beside the raises of the run
/// before, of which the same holds.
pub fn raises_of_a_record_are_made_in_visits_by_bells()
    ensures { (shelf : ShelfCall) (sink : SinkCall) (job : Job) (e : Ended) (sealed : Sealed)
        → RunEnds shelf sink (Some job) e → e.sealed ≡ Some sealed
        → IsAllByBells job.task sealed }
{}

/// Of every shelf, also one that tells nothing: for a network that is generated no file is told
/// to be at fault, and what is written is the summary of the network that the numbers of the job
/// make.
pub fn what_gen_prints_is_of_the_network_of_its_numbers()
    ensures { (shelf : ShelfCall) (sink : SinkCall) (job : Job) (e : Ended)
        → job.task ≡ Task.Gen → RunEnds shelf sink (Some job) e
        → BlamesNoFile e.status × (WritesText e.status → WroteSummary sink job e) }
{}

/// Of the files on which the job works: a journal is told unlawful exactly where it was read, the
/// verdict on it is this one and not that it is lawful, and the line of it was written whole.
pub fn unlawful_journals_are_told_so()
    ensures { (shelf : ShelfCall) (sink : SinkCall) (job : Job) (e : Ended) (v : Verdict)
        → RunEnds shelf sink (Some job) e
        → OnFiles shelf.files job (λ told. (e.status ≡ Status.Unlawful v)
        ↔ (IsFoundUnlawful told job v × WritesText e.status)) }
{}

/// The payments that clearing prints are the least that clear the network of the files. No bank
/// pays more than its cash and receipts, and these less what is paid come to all opening cash.
pub fn printed_payments_are_the_least_and_add_up()
    ensures { (files : Files) (job : Job) (o : Outcome)
        → ShowsPayments job → Means files job o → PrintsLeast files job o }
{}

/// The journal that clearing shows, saved as it was written and read with the same two files by the
/// same limits, is the journal of the record; to its replay there is one answer: that it is lawful,
/// how many raises it has, and the least payments.
pub fn a_shown_journal_is_evidence()
    ensures { (files later : Files) (job again : Job) (o : Outcome)
        → ShowsJournal job → Means files job o → ReplaysText files job later again o.text
        → IsEvidence files job o later again }
{}
