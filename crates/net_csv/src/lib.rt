//! Banks and debts as files of comma-separated records.
#![tactic(auto)]

mod banks;
mod debts;
mod file;
pub mod laws;
mod layout;
mod plain;
mod print;
mod read;
pub mod records;

pub use plain::read_network;
pub use print::{print_banks, print_banks_2, print_debts};
pub use read::read_network_within;
