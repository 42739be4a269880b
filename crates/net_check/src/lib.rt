//! What is checked of one record of a file: its fields, and what they give beside the network read
//! so far. Also what may be wrong with a file, of every kind that is read.
#![tactic(auto)]

mod bank;
mod debt;
mod fault;
mod field;
mod limits;
mod plain;

pub use bank::check_bank;
pub use debt::{bank_of, check_debt_within};
pub use fault::{Fault, FaultKind, FileKind, ReadNet};
pub use field::{class, number, number_up_to, trimmed};
pub use limits::Limits;
pub use plain::check_debt;

/// The most digits of a number in a file.
pub const MAX_DIGITS: usize = 20;

/// The most bytes of a file of banks or of debts, by any limits.
pub const MAX_FILE_BYTES: u64 = 167_772_160;

/// The most bytes of a file of scenarios.
pub const MAX_SCENARIOS_BYTES: u64 = 8_388_608;

/// The most bytes of a file with a journal, by any limits.
pub const MAX_JOURNAL_BYTES: u64 = 4_000_000_000;

/// The most raises of a journal, by any limits.
pub const MAX_RAISES: usize = 25_000_000;
