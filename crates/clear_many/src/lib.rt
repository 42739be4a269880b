//! What is told of many banks, cuts or scenarios at once, on threads: the texts of the tasks that
//! clear a network many times, centrally and without a board.
//!
//! [`tell_breaking`] tells the least cut of all cash that breaks each bank, [`tell_impact`] who
//! would hurt whom, [`tell_rescues`] what it takes to save each bank in default, and
//! [`tell_outcomes`] what scenarios come to in sums. A long text is answered in pieces, which are
//! to be written one after another.
#![tactic(auto)]

mod breaking;
mod cuts;
mod halved;
mod outcomes;
mod pieces;
mod ruins;
mod savings;
mod shocks;
mod singly;

pub use breaking::tell_breaking;
pub use outcomes::tell_outcomes;
pub use ruins::tell_impact;
pub use savings::tell_rescues;
