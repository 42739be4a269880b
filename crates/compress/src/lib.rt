//! Debts of one class that run round a cycle of banks are lowered together until no cycle is left,
//! as in the conservative compression of D'Errico and Roukny (2021).
//!
//! A walk goes back from a bank along debts above 0. Where it comes upon a bank of its own, the
//! debts between run round a cycle: all are lowered by the least of them, and the walk is taken
//! back to that bank. Where it can't go on, its last bank is done, and gets the number that is one
//! more than the greatest of its debtors'. A bank that is done is never walked to again.
//!
//! Each step lowers claims, or brings a bank nearer to being done. Each cancelling brings a debt
//! to 0, so there are at most as many as debts. Between them no debt is looked at twice to go on: a
//! cursor stands in each bank's column, before which all debts are 0 or owed by banks that are
//! done. Beside it stands the last step back from the bank, which mostly is the next one too: a
//! walk that comes that way again reads neither the column nor the debt.
#![tactic(auto)]

mod cancel;
mod classes;
mod compression;
pub mod laws;
mod mark;
mod plain;
mod search;
mod step;
mod walk;

pub use compression::{Compressed, compress};
pub use plain::with_claims;
