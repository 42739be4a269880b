//! What one bank knows: its own cash, rule and debts, and which debts are owed to it.
//!
//! A [`Desk`] is all that a bank needs of a network to say what it pays: from what it was paid it
//! makes out, alone, what it should pay on each of its debts. Of another bank it holds nothing,
//! neither cash nor rule nor claim.
#![tactic(auto)]

mod desk;
pub mod laws;

pub use desk::Desk;
