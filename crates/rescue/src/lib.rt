//! The least sum of cash that saves a bank, and what is to be done with it.
//!
//! [`rescue`] finds from a bound below it the least sum with which a bank pays all that it owes,
//! under the least payments that clear then (Eisenberg and Noe 2001), and how much the bank lacks
//! with one unit less. [`added`] gives the bank the sum, and [`saving_of`] tells which other banks it
//! saves, by a [`Search`] that serves for one bank after another; [`banks_in_default`] are those that
//! are to be saved.
//! The [`laws`] say that no sum below the bound saves the bank, that a greater sum than one that does
//! saves it too, that it hurts no other bank, and that a run made before goes on after.
#![tactic(auto)]

mod adding;
mod banks;
mod before;
pub mod laws;
mod range;
mod saved;
mod search;

pub use adding::added;
pub use banks::banks_in_default;
pub use before::Before;
pub use saved::{Saving, saving_of};
pub use search::{Rescued, Search, rescue};
