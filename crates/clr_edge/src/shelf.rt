ghost use Rattle.clr_edge.specs.Faults.{HasRisen, NoneFalls};
ghost use Rattle.clr_edge.specs.FaultTexts.{fetch_fault_text};
ghost use Rattle.clr_edge.specs.Shelf.{IsFetched};
ghost use Rattle.clr_edge.specs.declared.shelf.FetchFault.TheVariants.{Mem};
ghost use Rattle.std.specs.Prelude.{◌≡◌, ◌<◌, ◌^◌, ℕ, List, Option, Some, IfOk, IsErrOf};

use std::alloc::{AllocError, AllocFailed, Global};
use std::error::Error;
use std::fmt;

/// Why a file was not fetched.
#[derive(Clone, Copy, Debug, PartialEq, Eq)]
pub enum FetchFault {
    /// The shelf failed at this name, and counted it.
    Failed,
    /// Want of memory.
    Mem,
}

impl fmt::Display for FetchFault {
    ghost output = { λ fault. Some (fetch_fault_text fault) };

    fn fmt<W: fmt::Write>(&self, f: &mut fmt::Formatter<W>) -> fmt::Result {
        f.write_str(match self {
            FetchFault::Failed => "cannot read the file",
            FetchFault::Mem => "out of memory",
        })
    }
}

impl Error for FetchFault {}

impl From<AllocError> for FetchFault {
    ghost from_gives = { λ _ e. e ≡ Mem };

    fn from(_e: AllocError) -> FetchFault {
        FetchFault::Mem
    }
}

impl<T: Drop> From<AllocFailed<T>> for FetchFault {
    ghost from_gives = { λ _ e. e ≡ Mem };

    fn from(_e: AllocFailed<T>) -> FetchFault {
        FetchFault::Mem
    }
}

/// Files by name.
pub trait Shelf {
    /// The bytes of the file of each name, where there is one. A shelf need not tell them.
    ghost files: { Self → Option (List ℕ → Option (List ℕ)) };

    /// How often the shelf has failed at each name.
    ghost faults: { Self → List ℕ → ℕ };

    /// The whole file of this name if it has at most `limit` bytes, else its first `limit + 1`
    /// bytes. At `Failed` the count of this name rose. No fetch changes the files.
    fn fetch(&mut self, alloc: Global, name: &str, limit: u64) -> Result<Vec<u8>, FetchFault>
        requires { limit < 2 ^ 32 }
        ensures files { files self.new ≡ files self.old }
        ensures fetched { IfOk result
            (λ bytes. IsFetched (files self.old) name.now limit bytes.items) }
        ensures faults { NoneFalls (faults self.old) (faults self.new) }
        ensures failed { IsErrOf result FetchFault.Failed
            → HasRisen (faults self.old name.now) (faults self.new name.now) };
}
