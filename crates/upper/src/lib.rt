//! The greatest payments that clear a network, and the round in which each bank falls on the way
//! down to them.
//!
//! More than one list of payments may clear: banks that owe each other in a circle and have nothing
//! clear by paying nothing, and may clear by paying all. [`upper`] comes from above. It begins with
//! all debts paid in full, and in each round all banks pay at once what their rules then give,
//! until a round changes nothing. So it ends at the greatest payments, as the fictitious default
//! algorithm does (Eisenberg and Noe 2001), by other rounds. A bank's *wave* is the first round,
//! counted from 1, that it enters with less than all that it owes. [`greatest_by`] makes the same
//! rounds where banks divide something else than all that they have, as a `Spending` of
//! `clear_least` says.
//!
//! A round costs what it changes: only the banks whose receipts fell in the last one divide anew,
//! and they alone are gone over. Each fall of a payment is a unit at least, so there are at most as
//! many such divisions as units are owed, and one for each bank in the first round.
#![tactic(auto)]

mod bounds;
mod descent;
mod falls;
pub mod laws;
mod round;
mod short;

pub use bounds::Upper;
pub use descent::{greatest_by, upper};
