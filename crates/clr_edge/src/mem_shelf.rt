ghost use Rattle.clr_edge.specs.Faults.{HasRisen, NoneFalls};
ghost use Rattle.clr_edge.specs.MemShelf.{empty_shelf, file_at, fault_count, with_file, next_file, with_call, with_fault};
ghost use Rattle.clr_edge.specs.Shelf.{IsFetched};
ghost use Rattle.std.specs.List.{list_any};
ghost use Rattle.std.specs.Map.{lookup};
ghost use Rattle.std.specs.Prelude.{◌≡◌, ◌≢◌, ◌==◌, ◌+◌, ◌<◌, ◌^◌, [], ◌∷◌, ◌++◌, ℕ, List, map, string_bytes, take, position, slice_index_or, slice_set, bytes_eq, vec_len, if◌then◌else◌, IfOk, OnOk, OnErr, IsErrOf, Some, None, option_map};

use crate::{FetchFault, Shelf};
use clr_net::Mem;
use std::alloc::{AllocError, Global};
use std::marker::Model;

/// A file with its name.
#[derive(Drop)]
struct StoredFile {
    name: String,
    bytes: Vec<u8>,
}

impl Model for StoredFile {
    ghost use Rattle.std.specs.Prelude.{List, ℕ, string_bytes};

    ghost Value = { List ℕ × List ℕ };

    ghost view = { λ f. (string_bytes f.name, f.bytes.items) };
}

/// Files in memory, which it tells. A fetch fails where there is no file of the name, and where its
/// number was given to [`MemShelf::fail_at`]. The shelf notes the name of each fetch that failed;
/// where there is no room for the note, the fetch answers `Mem`.
#[derive(Drop)]
pub struct MemShelf {
    alloc: Global,
    files: Vec<StoredFile>,
    noted: Vec<String>,
    to_fail: Vec<u64>,
    calls: u64,
}

impl Model for MemShelf {
    ghost use Rattle.clr_edge.specs.MemShelf.{ShelfState};
    ghost use Rattle.std.specs.Prelude.{map, string_bytes};

    ghost Value = { ShelfState };

    ghost view = { λ s. record {
      entries = s.files.items;
      noted = map string_bytes s.noted.items;
      to_fail = s.to_fail.items;
      calls = s.calls;
    } };
}

impl MemShelf {
    /// A shelf without files. It takes no memory.
    pub fn make(alloc: Global) -> MemShelf
        ensures { result ≡ empty_shelf }
    {
        MemShelf {
            alloc,
            files: Vec::new(alloc),
            noted: Vec::new(alloc),
            to_fail: Vec::new(alloc),
            calls: 0,
        }
    }

    /// Puts a file on the shelf, in place of one of the same name. After `Mem` the shelf is as
    /// before.
    pub fn add(&mut self, name: &str, bytes: &[u8]) -> Result<(), Mem>
        ensures files { OnOk result
            (file_at self.new ≡ with_file (file_at self.old) name.now bytes.now) }
        ensures only_entries_change { self.new ≡ record self.old { entries = self.new.entries } }
        ensures err { OnErr result (self.new ≡ self.old) }
    {
        let copy = Vec::from_slice(self.alloc, bytes)?;
        match place_of(&self.files, name) {
            Some(place) => replace(&mut self.files, place, copy),
            None => {
                let name = String::from_str(self.alloc, name)?;
                self.files.push(StoredFile { name, bytes: copy })?;
            }
        }
        Ok(())
    }

    /// Lets the fetch of this number fail, counted from 1. After `Mem` the shelf is as before.
    pub fn fail_at(&mut self, call: u64) -> Result<(), Mem>
        ensures ok { OnOk result
            (self.new ≡ record self.old { to_fail = self.old.to_fail ++ call ∷ [] }) }
        ensures err { OnErr result (self.new ≡ self.old) }
    {
        self.to_fail.push(call)?;
        Ok(())
    }
}

impl Shelf for MemShelf {
    ghost files = { λ s. Some (file_at s) };

    ghost faults = { fault_count };

    fn fetch(&mut self, alloc: Global, name: &str, limit: u64) -> Result<Vec<u8>, FetchFault>
        requires { limit < 2 ^ 32 }
        ensures files { Some (file_at self.new) ≡ Some (file_at self.old) }
        ensures fetched { IfOk result
            (λ bytes. IsFetched (Some (file_at self.old)) name.now limit bytes.items) }
        ensures faults { NoneFalls (fault_count self.old) (fault_count self.new) }
        ensures failed { IsErrOf result FetchFault.Failed
            → HasRisen (fault_count self.old name.now) (fault_count self.new name.now) }

        // Where there is memory, it fails exactly where it finds nothing.
        ensures answers { IfOk result
            (λ bytes. option_map (take (limit + 1)) (next_file self.old name.now)
            ≡ Some bytes.items) }
        ensures fails { IsErrOf result FetchFault.Failed → next_file self.old name.now ≡ None }

        // What it leaves: only the name that failed is noted.
        ensures ok { OnOk result (self.new ≡ with_call self.old) }
        ensures noted { IsErrOf result FetchFault.Failed
            → self.new ≡ with_fault self.old name.now }
        ensures mem { IsErrOf result FetchFault.Mem → self.new ≡ with_call self.old }
        ensures alone { (other : List ℕ) → other ≢ name.now
            → fault_count self.new other ≡ fault_count self.old other }
    {
        self.calls = self.calls.saturating_add(1);
        match given(&self.files, &self.to_fail, self.calls, name) {
            Some(bytes) => match front(alloc, bytes, limit) {
                Ok(front) => Ok(front),
                Err(_) => Err(FetchFault::Mem),
            },
            None => Err(note(alloc, &mut self.noted, name)),
        }
    }
}

/// Notes the name of a fetch that fails, and says why it does: for want of memory, where there is
/// no room for the note.
fn note(alloc: Global, noted: &mut Vec<String>, name: &str) -> FetchFault
    ensures failed { result ≡ FetchFault.Failed
        → map string_bytes noted.new.items ≡ map string_bytes noted.old.items ++ name.now ∷ [] }
    ensures mem { result ≡ FetchFault.Mem → noted.new.items ≡ noted.old.items }
{
    match String::from_str(alloc, name) {
        Ok(name) => match noted.push(name) {
            Ok(()) => FetchFault::Failed,
            Err(_) => FetchFault::Mem,
        },
        Err(_) => FetchFault::Mem,
    }
}

/// What a fetch of this number finds at this name: nothing if it is one that is to fail.
fn given<'a>(files: &'a [StoredFile], to_fail: &[u64], call: u64, name: &str) -> Option<&'a [u8]>
    ensures { option_map (λ bytes. bytes.now) result
        ≡ (if list_any (λ other. other == call) to_fail.now then None
        else lookup (λ other. bytes_eq other name.now) files.now) }
{
    if to_fail.contains(&call) {
        return None;
    }
    file_of(files, name)
}

/// The bytes of the file of this name.
fn file_of<'a>(files: &'a [StoredFile], name: &str) -> Option<&'a [u8]>
    ensures { option_map (λ bytes. bytes.now) result
        ≡ lookup (λ other. bytes_eq other name.now) files.now }
{
    match place_of(files, name) {
        Some(place) => {
            let file = &files[place];
            Some(&file.bytes)
        }
        None => None,
    }
}

/// The place of the file of this name.
fn place_of(files: &[StoredFile], name: &str) -> Option<usize>
    ensures { result ≡ position (λ file. bytes_eq file.0 name.now) files.now }
{
    files.iter().position(|file| file.name.as_str() == name)
}

/// Gives a file other bytes.
fn replace(files: &mut Vec<StoredFile>, place: usize, bytes: Vec<u8>)
    requires { place < vec_len files.old }
    ensures { let name = (slice_index_or files.old.items place ([], [])).0 in
        files.new.items ≡ slice_set files.old.items place (name, bytes.items) }
{
    let file = &mut files[place];
    file.bytes = bytes;
}

/// The whole text if it has at most `limit` bytes, else its first `limit + 1` bytes.
fn front(alloc: Global, bytes: &[u8], limit: u64) -> Result<Vec<u8>, AllocError>
    requires { limit < 2 ^ 32 }
    ensures { IfOk result (λ front. front.items ≡ take (limit + 1) bytes.now) }
{
    let limit = limit as usize;
    if limit < bytes.len() {
        Vec::from_slice(alloc, &bytes[..limit + 1])
    } else {
        Vec::from_slice(alloc, bytes)
    }
}
