//! Networks made from a number, to try the program on: of any size, and the same each time.
//!
//! [`generate`] takes the successive 32-bit words of the generator PCG32 (O'Neill 2014), and makes
//! of them first the banks and then the debts.
#![tactic(auto)]

mod making;

pub use making::generate;

/// The most banks that a network is made of.
pub const MOST_BANKS: u32 = 1_000;

/// The most tries at a debt.
pub const MOST_TRIES: u32 = 20_000;
