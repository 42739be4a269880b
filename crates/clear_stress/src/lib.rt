//! Stress: the network that each scenario leaves is cleared on a board of its own, and told in a
//! block of text.
//!
//! [`tell_scenarios`] clears the networks of all scenarios, four at once, and answers their
//! [`Blocks`], of whose payments the lines are made when they are written.
#![tactic(auto)]

mod blocks;
mod scenarios;

pub use blocks::{Blocks, UnwrittenBlock};
pub use scenarios::tell_scenarios;
