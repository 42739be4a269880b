//! The program `clearing`, the trusted edge of the crates below it.
//!
//! It collects the words of the command line, lends the files of the current folder, the standard
//! output and the standard error to [`clear_top::run`], and ends with the code of the status that
//! this answers. What the program computes and writes is all in `run`; what the system gives and
//! takes is in [`DirShelf`] and [`StdSink`], which count their faults. Their contracts tie what is
//! read to no named file, and tell `run` nothing of what a file holds or a stream took.
#![tactic(auto)]

mod start;

use clr_host::{DirShelf, StdSink};
use start::{Exit, arguments, refuse, start};

fn main(rt: HostRuntime) -> Exit {
    let mut files = DirShelf::new(&rt);
    let mut out = StdSink::new(rt.stdout());
    let mut err = StdSink::new(rt.stderr());
    match arguments(&rt) {
        Ok(args) => start(&rt, &args, &mut files, &mut out, &mut err),
        Err(fault) => refuse(&mut err, fault.kind()),
    }
}
