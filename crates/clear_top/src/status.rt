//! How a run ends, and with which code.
ghost use Rattle.clear_top.specs.Status.{code_of, status_of};
ghost use Rattle.std.specs.Prelude.{◌≡◌};

use clear_load::LoadFault;
use net_check::{Fault, FileKind};
use pay_words::Record;
use raise_journal::Verdict;

/// How a run ended.
#[derive(Clone, Copy, Debug, PartialEq, Eq)]
pub enum Status {
    /// The output is written.
    Done,
    /// The words are not understood.
    Usage,
    /// A file cannot be read.
    ReadFault(FileKind),
    /// A file has a fault: the first.
    Refused(Fault),
    /// The output cannot be written, or not whole.
    WriteFault,
    /// Want of memory.
    Mem,
    /// The journal that was read is not a lawful and complete history; the verdict is written.
    Unlawful(Verdict),
}

/// What a run answers: how it ended, and the record of the board on which the printed payments were
/// made, for a task that clears on a board and whose text was written, or a part of it.
#[derive(Drop)]
pub struct Ended {
    pub status: Status,
    pub sealed: Option<Record>,
}

impl Status {
    /// The code with which the program ends.
    pub fn code(&self) -> u8
        ensures { result ≡ code_of self.now }
    {
        match self {
            Status::Done => 0,
            Status::Usage => 2,
            Status::ReadFault(_) => 3,
            Status::Refused(_) => 4,
            Status::WriteFault => 5,
            Status::Mem => 6,
            Status::Unlawful(_) => 7,
        }
    }
}

impl From<LoadFault> for Status {
    ghost from_gives = { λ why s. s ≡ status_of why };

    fn from(why: LoadFault) -> Status {
        match why {
            LoadFault::Unread(kind) => Status::ReadFault(kind),
            LoadFault::Refused(fault) => Status::Refused(fault),
            LoadFault::Mem => Status::Mem,
        }
    }
}
