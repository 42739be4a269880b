//! The network of banks and debts that every other crate works on, and how a bank's estate is
//! divided among its debts.
//!
//! A [`Network`] keeps its limits and its rules by itself: distinct names, no debt of a bank to
//! itself, no two debts of one debtor, creditor and class. Contracts see it as two plain lists,
//! `Net`, in file order.
#![tactic(auto)]

mod account;
mod amounts;
mod bank;
mod copying;
mod debt;
mod debt_list;
pub mod laws;
mod name;
mod network;
mod rule;

ghost use Rattle.std.specs.Prelude.{Some, codes};

pub use amounts::Amounts;
pub use bank::Bank;
pub use debt::{BankId, Debt, DebtId};
pub use name::{Name, NameFault};
pub use network::Network;
pub use rule::RuleKind;
use std::alloc::{AllocError, AllocFailed};
use std::error::Error;
use std::fmt;

/// The most banks of a network.
pub const MAX_BANKS: u32 = 10_000;

/// The most debts of a network.
pub const MAX_DEBTS: u32 = 1_000_000;

/// The most bytes of a bank's name.
pub const MAX_NAME_BYTES: usize = 64;

/// The last of the classes, which begin at 1.
pub const MAX_CLASS: u8 = 9;

/// The most units of one claim.
pub const MAX_CLAIM: u64 = rule_unit::MAX_CLAIM;

/// The most units of all claims together.
pub const MAX_OWED: u64 = 25_000_000;

/// The most cash of one bank, in units.
pub const MAX_CASH: u64 = 1_000_000_000_000;

/// The most that a bank owes outside the network, in units.
pub const MAX_OUTSIDE: u64 = 100_000_000_000;

/// Want of memory. What was to be changed is as it was.
#[derive(Clone, Copy, Debug, PartialEq, Eq)]
pub struct Mem;

impl fmt::Display for Mem {
    ghost output = { λ _. Some (codes "out of memory") };

    fn fmt<W: fmt::Write>(&self, f: &mut fmt::Formatter<W>) -> fmt::Result {
        f.write_str("out of memory")
    }
}

impl Error for Mem {}

impl From<AllocError> for Mem {
    fn from(_e: AllocError) -> Mem {
        Mem
    }
}

impl<T: Drop> From<AllocFailed<T>> for Mem {
    fn from(_e: AllocFailed<T>) -> Mem {
        Mem
    }
}
