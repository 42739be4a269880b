//! The top call of the program: all that a command line does, from the bytes in to the bytes out.
//!
//! [`run`] takes the words of the command line, the files, the sinks for the output and for
//! messages, and answers how it ended, with the record of the board on which it cleared. Its
//! contract is the program's theorem. It says of each [`Status`] when it is answered, and what is
//! written then:
//!
//! | status | when | what is written to `out` |
//! |---|---|---|
//! | `Done` | the task came to a text | the text |
//! | `Unlawful` | the journal that was read is not lawful, or not complete | the verdict on it |
//! | `WriteFault` | the sink failed | a part of the text, from its front |
//! | `Usage` | the words ask for no job | nothing |
//! | `ReadFault` | a file of the job cannot be read | nothing |
//! | `Refused` | a file has a fault, the first, or there is no bank of the name in the words | nothing |
//! | `Mem` | memory was wanting before the writing | nothing |
//!
//! `top.rt` has the way of a run: words, work, writing, and the message (`message.rt`). `work.rt`
//! loads what a job works on, which may end in a read fault or a refusal, and does its task: tasks
//! without workers stand in `alone.rt`, what a run on one board shows in `reports.rt`, a rescue in
//! `saving.rt`, and the verdict on a journal in `judge.rt`. Each answers an outcome, which
//! `outcome.rt` writes. Of the definitions begin with `specs/Ending.antt`, which has a row for each
//! status, and `specs/Meaning.antt`, which has one for each task. [`laws`] says what follows.
#![tactic(auto)]

mod alone;
mod judge;
pub mod laws;
mod message;
mod outcome;
mod recorded;
mod reports;
mod saving;
mod status;
mod top;
mod work;

pub use message::tell;
pub use status::{Ended, Status};
pub use top::run;
