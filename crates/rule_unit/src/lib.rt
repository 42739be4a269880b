//! Unit rules: how a bank's estate is given out among its debts, one unit at a time.
//!
//! A [`UnitRule`] says which debt gets the next unit, and [`award_more`] gives out units by it.
//! What holds of every rule, however it chooses, is proved here once: no debt gets more than its
//! claim, all there is is given out up to all that is claimed, and no award falls as the estate
//! grows.
#![tactic(auto)]

pub mod laws;
mod rule;
mod units;

pub use rule::UnitRule;
pub use units::award_more;

/// The most units of one claim.
pub const MAX_CLAIM: u64 = 1_000_000;
