//! What a board is made for, as its rule knows it.
//!
//! The rule of a table may read a key, which is fixed when the table is made. That of a board reads
//! the network and the past, which lie in memory elsewhere and are not copied. So its key is a seat
//! of another table, which is about nothing: such a seat takes no bytes, and its view is the origin.
ghost use Rattle.std.specs.Prelude.{◌≡◌, [], IfOk};

use atomic_table::{Seat, Split, Table, TableRule};
use clear_core::Raise;
use clr_net::Network;
use std::alloc::{AllocError, Global};
use std::collections::LinkedList;
use std::marker::{Brand, PhantomData};

/// The network and the past of a board. No value of it is made.
pub struct Origin {
    pub net: Network,
    pub past: LinkedList<Raise>,
}

/// A type that stands for an origin, which the proof of a call picks.
pub(crate) trait Founding {
    ghost use Rattle.pay_words.specs.declared.origin.Origin.{Origin};

    ghost origin: { Origin };
}

impl Founding for Brand {
    ghost use Rattle.pay_words.specs.Founded.{no_origin};

    ghost origin = { no_origin };
}

// A table about nothing, one of whose seats has the origin.
struct AnyOrigin;

impl TableRule<(), Origin, u64> for AnyOrigin {
    ghost use Rattle.pay_words.specs.Founded.{no_origin, Anything};

    ghost holds = { λ _ _. Anything };

    ghost first = { λ _. no_origin };
}

// The seat of that table that is cut in two: one part has the picked origin for its view.
struct Chooses<C> {
    of: PhantomData<C>,
}

impl<C: Founding> Split<Origin> for Chooses<C> {
    ghost left = { λ d. d };

    ghost right = { λ _. C.origin };
}

/// A token of the origin, which takes no bytes.
pub(crate) fn origin_of<C: Founding>(alloc: Global) -> Result<Seat<(), Origin>, AllocError>
    ensures { IfOk result (λ s. s.me.0 ≡ C.origin) }
{
    let (table, mut seat) = Table::<(), Origin, u64, AnyOrigin, Global>::of_words(alloc, &[0], &0)?;
    Ok(table.shared.split_seat::<Chooses<C>>(&mut seat))
}
