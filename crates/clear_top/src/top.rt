//! The top call: a run of the program.
ghost use Rattle.clear_load.specs.Loading.{on_shelf};
ghost use Rattle.clear_load.specs.Sources.{HasNoFiles, has_files, source_of};
ghost use Rattle.clear_top.specs.Ending.{JobEnds, RunEnds, WritesNothing, asked};
ghost use Rattle.clear_top.specs.Message.{TakesText, message};
ghost use Rattle.clear_top.specs.declared.status.Status.{Status};
ghost use Rattle.clear_words.specs.Limits.{IsJob};
ghost use Rattle.clr_edge.specs.Taking.{on_sink};
ghost use Rattle.std.specs.Prelude.{◌≡◌, ◌≢◌, false};

use crate::message::tell;
use crate::status::{Ended, Status};
use crate::work::work;
use clear_words::{Job, WordsFault, read_words};
use clr_edge::{Gate, Shelf, Sink};
use raise_journal::ROOM;
use std::alloc::Global;
use std::thread::Threads;

/// Does all that the program does: reads the words, fetches and reads the files, does the task, and
/// writes its text to `out`, whole or not at all unless `out` fails. Where it does not end well, it
/// writes a message to `err`.
///
/// `RunEnds` says, status by status, when each answer comes, what is written and what the record
/// is: of a shelf that tells its files, and of what the sinks tell that they took. The module
/// [`crate::laws`] says what follows from it. Want of memory may be answered at any place before
/// the writing. Where the words ask for no job, or for one without files, the shelf itself is as it
/// was; so is `out` where nothing is to be written, and `err` where the run is done. Where `out`
/// counts faults alone, a run that does not end with a write fault met no put that failed.
pub fn run<R: Threads + Sync, F: Shelf, O: Sink, E: Sink, G: Gate + Sync>(
    rt: &R,
    alloc: Global,
    words: &[&str],
    files: &mut F,
    out: &mut O,
    err: &mut E,
    gate: &G,
) -> Ended
    ensures ends { RunEnds (on_shelf F.files F.faults files.old files.new)
        (on_sink O.written O.faults out.old out.new) (asked words.now) result }
    ensures told { TakesText (on_sink E.written E.faults err.old err.new)
        (message result.status (asked words.now)) }
    ensures files { F.files files.new ≡ F.files files.old }
    ensures unasked { HasNoFiles (asked words.now) → files.new ≡ files.old }
    ensures untouched { WritesNothing result.status → out.new ≡ out.old }
    ensures no_fault { O.counts_faults_alone → result.status ≢ Status.WriteFault
        → O.faults out.new ≡ O.faults out.old }
    ensures quiet { result.status ≡ Status.Done → err.new ≡ err.old }
{
    match read_words(alloc, words) {
        Ok(job) => {
            let ended = carry_out(rt, alloc, &job, files, out, gate);
            tell(err, ended.status, Some(&job));
            ended
        }
        Err(WordsFault::Usage) => {
            tell(err, Status::Usage, None);
            without_record(Status::Usage)
        }
        Err(WordsFault::Mem) => {
            tell(err, Status::Mem, None);
            without_record(Status::Mem)
        }
    }
}

// An ending without a record.
fn without_record(status: Status) -> Ended
    ensures { result ≡ record { status = status; sealed = None } }
{
    Ended {
        status,
        sealed: None,
    }
}

// Carries out a job: reads its files and does the task, and writes its text, for which the room is
// taken before the first byte is written.
fn carry_out<R: Threads + Sync, F: Shelf, O: Sink, G: Gate + Sync>(
    rt: &R,
    alloc: Global,
    job: &Job,
    files: &mut F,
    out: &mut O,
    gate: &G,
) -> Ended
    requires { IsJob job.now }
    ensures ends { JobEnds (on_shelf F.files F.faults files.old files.new)
        (on_sink O.written O.faults out.old out.new) job.now result.status result.sealed }
    ensures files { F.files files.new ≡ F.files files.old }
    ensures unasked { has_files (source_of job.now.task) ≡ false → files.new ≡ files.old }
    ensures untouched { WritesNothing result.status → out.new ≡ out.old }
    ensures no_fault { O.counts_faults_alone → result.status ≢ Status.WriteFault
        → O.faults out.new ≡ O.faults out.old }
{
    let outcome = match work(rt, alloc, job, files, gate) {
        Ok(outcome) => outcome,
        Err(why) => return without_record(Status::from(why)),
    };
    let Ok(mut room) = Vec::with_capacity(alloc, ROOM) else {
        return without_record(Status::Mem);
    };
    match outcome.put(out, &mut room) {
        Ok(()) => {
            let status = outcome.status;
            outcome.end(status)
        }
        Err(_) => outcome.end(Status::WriteFault),
    }
}
