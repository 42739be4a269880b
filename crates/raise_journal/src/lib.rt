//! Journals of raises: gathered, printed, written, read, and replayed on a network.
//!
//! A [`Verdict`] says whether a journal is a lawful and complete history of payments, whoever made
//! it. What is lawful and leaves every bank quiet pays the least clearing payments.
#![tactic(auto)]

mod dividing;
mod gathering;
pub mod laws;
mod plain;
mod printing;
mod putting;
mod reading;
mod replaying;
mod verdict;

pub use gathering::{gather, in_order, merge_in};
pub use plain::{print_journal, read_journal, replay};
pub use printing::{journal_head, print_raises};
pub use putting::put_raises;
pub use reading::read_journal_within;
pub use replaying::replay_with;
pub use verdict::Verdict;

/// The most raises that are printed into a room at once.
pub const MAX_AT_ONCE: usize = 256;

/// The bytes of a room for the lines of so many raises.
pub const ROOM: usize = 65_536;

/// The greatest stamp of a journal that is read.
pub const MAX_STAMP: u64 = 4_294_967_295;
