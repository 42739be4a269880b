ghost use Rattle.clr_host.specs.Front.{IsFront};
ghost use Rattle.clr_edge.specs.Faults.{HasRisen, NoneFalls, counted};
ghost use Rattle.clr_edge.specs.Shelf.{IsFetched};
ghost use Rattle.clr_edge.specs.declared.shelf.FetchFault.{FetchFault};
ghost use Rattle.std.specs.Prelude.{◌≡◌, ◌<◌, ◌^◌, None, IfOk, OnOk, IsErrOf};

use clr_edge::{FetchFault, Shelf};
use std::alloc::Global;
use std::io::{ErrorKind, Read};
use std::rt::Files;
use std::{fs, io};

/// The files of the current folder. It tells none of their content, and keeps one count of faults
/// for all names.
#[derive(Drop)]
pub struct DirShelf<'a, R: Files> {
    rt: &'a R,
    faults: u64,
}

impl<'a, R: Files> DirShelf<'a, R> {
    /// The current folder, in which nothing has failed yet.
    pub fn new(rt: &'a R) -> DirShelf<'a, R>
        ensures { result.faults ≡ 0 }
    {
        DirShelf { rt, faults: 0 }
    }
}

impl<'a, R: Files> Shelf for DirShelf<'a, R> {
    ghost files = { λ _. None };

    ghost faults = { λ shelf _. shelf.faults };

    fn fetch(&mut self, alloc: Global, name: &str, limit: u64) -> Result<Vec<u8>, FetchFault>
        requires { limit < 2 ^ 32 }
        ensures fetched { IfOk result (λ bytes. IsFetched None name.now limit bytes.items) }
        ensures faults { NoneFalls (λ _. self.old.faults) (λ _. self.new.faults) }
        ensures failed { IsErrOf result FetchFault.Failed
            → HasRisen self.old.faults self.new.faults }

        // The bytes are the front of what some file had left, and the count rises at a failure
        // alone.
        ensures front { IfOk result (λ bytes.
            (file : R.File) × IsFront (R.File.remaining file) limit bytes.items) }
        ensures fault_counted { IsErrOf result FetchFault.Failed
            → self.new.faults ≡ counted self.old.faults }
        ensures ok { OnOk result (self.new.faults ≡ self.old.faults) }
        ensures mem { IsErrOf result FetchFault.Mem → self.new.faults ≡ self.old.faults }
    {
        match front_of_file(self.rt, alloc, name, limit) {
            Ok(bytes) => Ok(bytes),
            Err(error) if error.kind() == ErrorKind::OutOfMemory => Err(FetchFault::Mem),
            Err(_) => {
                self.faults = self.faults.saturating_add(1);
                Err(FetchFault::Failed)
            }
        }
    }
}

// The front of the file of this name.
fn front_of_file<R: Files>(rt: &R, alloc: Global, name: &str, limit: u64) -> io::Result<Vec<u8>>
    requires { limit < 2 ^ 32 }
    ensures { IfOk result (λ bytes.
        (file : R.File) × IsFront (R.File.remaining file) limit bytes.items) }
{
    front(alloc, fs::open(rt, name)?, limit)
}

// The bytes that a reader gives, up to one past the limit. Each read takes a byte or is the last.
fn front<R: Read + Drop>(alloc: Global, reader: R, limit: u64) -> io::Result<Vec<u8>>
    requires { limit < 2 ^ 32 }
    ensures { IfOk result (λ bytes. IsFront (R.remaining reader) limit bytes.items) }
{
    let mut bytes = Vec::new(alloc);
    reader.take(limit + 1).read_to_end(&mut bytes)?;
    Ok(bytes)
}
