ghost use Rattle.clear_main.specs.Words.{words_of};
ghost use Rattle.clear_load.specs.Loading.{on_shelf};
ghost use Rattle.clear_top.specs.Ending.{RunEnds, WritesNothing};
ghost use Rattle.clr_edge.specs.Taking.{on_sink};
ghost use Rattle.clear_top.specs.Message.{message, TakesText};
ghost use Rattle.clear_load.specs.Sources.{HasNoFiles};
ghost use Rattle.clear_top.specs.Status.{code_of};
ghost use Rattle.clear_top.specs.declared.status.Status.{Status};
ghost use Rattle.clear_words.specs.Job.{job_of};
ghost use Rattle.std.specs.Prelude.{◌≡◌, ◌≢◌, ◌⊎◌, ◌↔◌, IfOk, None, map};
ghost use Rattle.std.specs.Process.{exit_status};

use clear_top::{Ended, Status, run, tell};
use clr_edge::{OpenGate, Shelf, Sink};
use std::alloc::{AllocError, Global};
use std::env::Env;
use std::io::{Eprint, ErrorKind};
use std::process::{ExitCode, Termination};
use std::thread::Threads;
use std::{env, io};

/// How the process ends. [`start`] and [`refuse`] alone make one, so that the process ends with the
/// code of what they answer and with no other.
#[derive(Drop)]
pub struct Exit {
    ended: Ended,
}

impl Termination for Exit {
    fn report<R: Eprint>(self, _rt: &R) -> ExitCode
        ensures { exit_status result ≡ code_of self.ended.status }
    {
        ExitCode::from(self.ended.status.code())
    }
}

/// The arguments of the process, of which the first is the program's name.
pub fn arguments<R: Env + AllocGlobal>(rt: &R) -> io::Result<Vec<String>> {
    Ok(env::args(rt)?.collect(rt.alloc())?)
}

/// Runs the program on the words of the command line, which are the arguments after the program's
/// name, and answers how it ended. Where there is no memory to list them, it does not run. Of it
/// holds what holds of [`clear_top::run`].
pub fn start<R: Threads + Sync + AllocGlobal, F: Shelf, O: Sink, E: Sink>(
    rt: &R,
    args: &[String],
    files: &mut F,
    out: &mut O,
    err: &mut E,
) -> Exit
    ensures ends { RunEnds (on_shelf F.files F.faults files.old files.new)
        (on_sink O.written O.faults out.old out.new) (job_of (words_of args.now)) result.ended }
    ensures told { TakesText (on_sink E.written E.faults err.old err.new)
        (message result.ended.status (job_of (words_of args.now))) }
    ensures files { F.files files.new ≡ F.files files.old }
    ensures unasked { HasNoFiles (job_of (words_of args.now)) → files.new ≡ files.old }
    ensures untouched { WritesNothing result.ended.status → out.new ≡ out.old }
    ensures no_fault { O.counts_faults_alone → result.ended.status ≢ Status.WriteFault
        → O.faults out.new ≡ O.faults out.old }
    ensures quiet { result.ended.status ≡ Status.Done → err.new ≡ err.old }
{
    let alloc = rt.alloc();
    match words(alloc, args) {
        Ok(words) => Exit {
            ended: run(rt, alloc, words.as_slice(), files, out, err, &OpenGate),
        },
        Err(_) => end(err, Status::Mem),
    }
}

/// Writes why the words of the command line cannot be collected, and answers how the program ends:
/// for want of memory where that is the cause, and else with a command line that is not understood.
pub fn refuse<E: Sink>(err: &mut E, cause: ErrorKind) -> Exit
    ensures mem { (result.ended.status ≡ Status.Mem) ↔ (cause ≡ ErrorKind.OutOfMemory) }
    ensures usage { (result.ended.status ≡ Status.Mem) ⊎ (result.ended.status ≡ Status.Usage) }
    ensures unsealed { result.ended.sealed ≡ None }
    ensures told { TakesText (on_sink E.written E.faults err.old err.new)
        (message result.ended.status None) }
{
    match cause {
        ErrorKind::OutOfMemory => end(err, Status::Mem),
        _ => end(err, Status::Usage),
    }
}

// Tells of a status, and ends with it.
fn end<E: Sink>(err: &mut E, status: Status) -> Exit
    ensures ended { result.ended ≡ record { status = status; sealed = None } }
    ensures told { TakesText (on_sink E.written E.faults err.old err.new) (message status None) }
{
    tell(err, status, None);
    Exit {
        ended: Ended {
            status,
            sealed: None,
        },
    }
}

// The words after the program's name.
fn words(alloc: Global, args: &[String]) -> Result<Vec<&str>, AllocError>
    ensures { IfOk result (λ words. map (λ word. word.now) words.items ≡ words_of args.now) }
{
    args.iter().skip(1).map(|word| word.as_str()).collect(alloc)
}
