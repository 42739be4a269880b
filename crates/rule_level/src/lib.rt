//! The division of a bank's estate over the classes of its debts, by levels.
//!
//! [`share_by_level`] answers what a division unit by unit answers, in a number of steps that
//! doesn't grow with the units. In the class that can't be paid in full it looks for the level at
//! which the units end: at a level each debt gets what its claim alone tells. Of the units between
//! a level and the next none goes before another, so that what is left goes to the earliest debts,
//! in one walk.
//!
//! A division goes over its row once for each class up to the one at which the estate ends, and some
//! six times besides; and over the claims of that class, gathered next to one another, some five
//! times more, seldom twenty. It takes no memory.
#![tactic(auto)]

mod division;
mod gathered;
pub mod laws;
mod level;
mod search;

pub use division::share_by_level;

/// The level of the divisor rules at which each claim is met: twice the square of the greatest
/// claim.
///
/// Where the quotients of two debts differ, some level tells them apart, so that only ties are
/// left.
pub const MAX_LEVEL: u64 = 2_000_000_000_000;
