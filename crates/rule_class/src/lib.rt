//! The division of a bank's estate over the classes of its debts, by any unit rule.
//!
//! A lower class is paid in full before a higher one gets a unit; within a class the units go one
//! by one, each to the debt that the rule chooses. [`share`] takes no memory: it works in the list
//! that it fills.
#![tactic(auto)]

mod division;
pub mod laws;
mod order;

pub use division::{class_total, share};
pub use order::{last_class, share_in_order};
