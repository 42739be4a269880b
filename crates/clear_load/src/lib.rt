//! What a job works on, from its files: each file is fetched whole, its size is looked at before
//! the next is fetched, and all are fetched before the first is read.
//!
//! [`source_of`] says of each task what it works on, a [`Source`], for each of which there is a
//! call that loads it: a network, and the scenarios, the journal or the bank that the task wants
//! beside it, or the first fault.
#![tactic(auto)]

mod fault;
pub mod laws;
mod loading;
mod source;

pub use fault::LoadFault;
pub use loading::{load_bank, load_generated, load_journal, load_network, load_scenarios};
pub use source::{Source, source_of};
