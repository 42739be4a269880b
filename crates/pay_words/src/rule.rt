//! The rule of a board, and what each of its atomic steps tells.
use crate::origin::Origin;
use crate::view::View;
use atomic_table::{Join, Play, Seat, Split, TableRule};
use std::marker::{Brand, PhantomData};

/// What holds of the words and of all seats between any two steps. The view of the table's key is
/// the origin.
pub struct Clearing;

impl TableRule<(), View, Seat<(), Origin>> for Clearing {
    ghost use Rattle.pay_words.specs.BoardRule.{MeetsRule, opening_view};

    ghost holds = { λ origin s. MeetsRule origin.me.0 s.words s.views };

    ghost first = { λ origin. opening_view origin.me.0 };
}

/// A load of a payment word.
pub(crate) struct Look;

impl Play<(), View> for Look {
    ghost use Rattle.pay_words.specs.Steps.{Looks};

    ghost then = { Looks };
}

/// A store of a payment word.
pub(crate) struct Rise;

impl Play<(), View> for Rise {
    ghost use Rattle.pay_words.specs.Steps.{Raises};

    ghost then = { Raises };
}

/// A store of the roll word.
pub(crate) struct Roll;

impl Play<(), View> for Roll {
    ghost use Rattle.pay_words.specs.Steps.{Rolls};

    ghost then = { Rolls };
}

/// A store of a bell.
pub(crate) struct Ring;

impl Play<(), View> for Ring {
    ghost use Rattle.pay_words.specs.Steps.{Rings};

    ghost then = { Rings };
}

/// A load of a bell.
pub(crate) struct Glance;

impl Play<(), View> for Glance {
    ghost use Rattle.pay_words.specs.Steps.{Glances};

    ghost then = { Glances };
}

/// A swap of a bell.
pub(crate) struct Take;

impl Play<(), View> for Take {
    ghost use Rattle.pay_words.specs.Steps.{Takes};

    ghost then = { Takes };
}

/// A type that stands for a worker whose banks go to a new seat, which the proof of a call picks.
pub(crate) trait Chosen {
    ghost use Rattle.std.specs.Prelude.{ℕ};

    ghost workers: { ℕ };

    ghost worker: { ℕ };
}

impl Chosen for Brand {
    ghost workers = { 1 };

    ghost worker = { 0 };
}

/// The banks of one worker, and the rest.
pub(crate) struct Part<C> {
    of: PhantomData<C>,
}

impl<C: Chosen> Split<View> for Part<C> {
    ghost use Rattle.pay_words.specs.Steps.{rest_of, part_of};

    ghost left = { rest_of C.workers C.worker };

    ghost right = { part_of C.workers C.worker };
}

/// The master, and a seat that it takes back.
pub(crate) struct Both;

impl Join<View> for Both {
    ghost use Rattle.pay_words.specs.Steps.{both_of, nobody};

    ghost both = { both_of };

    ghost spent = { nobody };
}
