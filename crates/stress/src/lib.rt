//! Stress scenarios: reading them from a TOML document, and the network that a scenario leaves.
//!
//! A scenario cuts all cash by so many per mille and takes losses from single banks.
//! [`read_scenarios`] gives the scenarios of a document, or its first fault; each of them may be
//! given to [`shocked`], which answers the network that is to be cleared in its place, and such a
//! network may be given to [`shock_again`] for the next scenario.
//!
//! [`breaking`] tells of each bank the least cut that breaks it. [`outcome_of`] tells in sums what a
//! scenario comes to, and a [`Tally`] counts in how many scenarios each bank falls.
#![tactic(auto)]

mod broken;
mod document;
pub mod laws;
mod plain;
mod read;
mod scenario;
mod shape;
mod shock;
mod sums;
mod tally;

pub use broken::{Broken, breaking_within, joined};
pub use plain::{breaking, shocked};
pub use read::read_scenarios;
pub use scenario::{Loss, Losses, Scenario};
pub use shock::shock_again;
pub use sums::{Outcome, outcome_of};
pub use tally::{Falls, Tally};

/// The most scenarios of a document.
pub const MAX_SCENARIOS: usize = 100;

/// The most that a scenario cuts from all cash, per mille: the whole of it.
pub const MAX_CUT: u64 = 1_000;

/// The most that one bank loses in a scenario, in units.
pub const MAX_LOSS: u64 = 1_000_000_000_000;
