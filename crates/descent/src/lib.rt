//! Many networks that differ in cash alone, cleared by halves.
//!
//! A [`Descent`] clears the network in which each bank has the least cash that it has in a share of
//! them, and goes on for half of the share with the least of this half, down to one network. Payments
//! that clear with less cash are a start with more, as the law of `cascade` says. The share is as
//! wide as its least cash is enough. Which networks they are is told by [`Floors`].
#![tactic(auto)]

mod floors;
mod halves;
pub mod laws;
mod laying;
mod marks;
mod share;
mod table;

pub use floors::Floors;
pub use halves::Descent;
pub use table::Table;
