ghost use Rattle.std.specs.Prelude.{◌≡◌, ◌+◌, ◌<◌, ◌≤◌, ◌++◌, [], ◌∷◌, IsOk, OnErr, OnOk};

use crate::event::Raise;
use clr_net::Mem;
use std::alloc::Global;
use std::marker::Model;

/// A list of raises, in the order in which they were added.
///
/// Contracts see the list, and how many raises more may be added without memory.
#[derive(Drop)]
pub struct Journal {
    raises: Vec<Raise>,
}

impl Model for Journal {
    ghost use Rattle.clear_core.specs.History.{Kept};
    ghost use Rattle.std.specs.Prelude.{◌-◌, length, vec_capacity};

    ghost Value = { Kept };

    ghost view = { λ j. record {
      raises = j.raises.items;
      spare = vec_capacity j.raises - length j.raises.items;
    } };
}

impl Journal {
    /// A journal of no raise. Takes no memory.
    pub fn empty(alloc: Global) -> Journal
        ensures { result.raises ≡ [] }
    {
        Journal {
            raises: Vec::new(alloc),
        }
    }

    /// A journal of these raises, in their order. Takes no memory.
    pub fn of(raises: Vec<Raise>) -> Journal
        ensures { result.raises ≡ raises.items }
    {
        Journal { raises }
    }

    /// Makes room for so many raises more. `Mem` is want of memory, and the list stays as it is in
    /// any case.
    pub fn reserve(&mut self, more: usize) -> Result<(), Mem>
        ensures kept { self.new.raises ≡ self.old.raises }
        ensures room { OnOk result (more ≤ self.new.spare) }
    {
        self.raises.reserve(more)?;
        Ok(())
    }

    /// Adds a raise at the end. `Mem` is want of memory, and comes only where there is no room; the
    /// list is then as it was.
    pub fn push(&mut self, raise: Raise) -> Result<(), Mem>
        ensures added { OnOk result (self.new.raises ≡ self.old.raises ++ raise ∷ []) }
        ensures kept { OnErr result (self.new.raises ≡ self.old.raises) }
        ensures in_room { 0 < self.old.spare → IsOk result }
        ensures room { self.old.spare ≤ self.new.spare + 1 }
    {
        self.raises.push(raise)?;
        Ok(())
    }

    /// The list itself, and the journal is gone. Takes no memory.
    pub fn into_raises(self) -> Vec<Raise>
        ensures { result.items ≡ self.raises }
    {
        self.raises
    }

    /// The raises, in the order in which they were added.
    pub fn as_slice(&self) -> &[Raise]
        ensures { result.now ≡ self.now.raises }
    {
        self.raises.as_slice()
    }
}
