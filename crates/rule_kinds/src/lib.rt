//! The unit rules by kind: order, equal and losses.
//!
//! Each goes over the debts of a bank once and takes no memory. At a tie the earliest debt gets the
//! unit. Awards by these rules are the awards of the kind of rule in the network.
#![tactic(auto)]

mod equal;
pub mod laws;
mod losses;
mod order;

pub use equal::EqualRule;
pub use losses::LossRule;
pub use order::OrderRule;
