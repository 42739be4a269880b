//! Why a job has nothing to work on.
ghost use Rattle.clear_load.specs.Unread.{fault_of};
ghost use Rattle.clear_load.specs.declared.fault.LoadFault.{LoadFault};
ghost use Rattle.std.specs.Prelude.{◌≡◌};

use clr_net::Mem;
use net_check::{Fault, FileKind, ReadNet};

/// Why a job has nothing to work on.
#[derive(Clone, Copy, Debug, PartialEq, Eq)]
pub enum LoadFault {
    /// A file cannot be read.
    Unread(FileKind),
    /// A file has a fault, of which this is the first, or no bank has the name in the words.
    Refused(Fault),
    /// Want of memory.
    Mem,
}

impl From<Mem> for LoadFault {
    ghost from_gives = { λ _ why. why ≡ LoadFault.Mem };

    fn from(_: Mem) -> LoadFault {
        LoadFault::Mem
    }
}

impl From<ReadNet> for LoadFault {
    ghost from_gives = { λ unread why. why ≡ fault_of unread };

    fn from(unread: ReadNet) -> LoadFault {
        match unread {
            ReadNet::Refused(fault) => LoadFault::Refused(fault),
            ReadNet::Mem => LoadFault::Mem,
        }
    }
}
