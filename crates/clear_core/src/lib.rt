//! What all ways of clearing stand on: what a bank divides, how its rule divides that among the
//! debts of its row, sums of what is paid, journals of raises, and the laws of clearing.
//!
//! A bank divides its cash and what it receives, less what it owes outside the network
//! ([`spendable`]). A [`Scratch`] has the buffers in which the row of any bank is divided, so that
//! a division takes no memory. [`Payments`] keep beside what is paid on each debt what each bank
//! receives and pays in all. A [`Journal`] is a list of raises. Payments clear where each bank pays
//! what its rule gives from what it then has, and [`first_unquiet`] names the first bank that does
//! not.
//!
//! The [`laws`] are those of the least payments that clear, of journals, and of the clearing
//! process, whose events are single loads and raises in whatever order they come. A raise is legal
//! as far as its debtor's rule gives it from cash and from what the debtor has seen paid to itself,
//! less what the debtor owes outside ([`allowed_of`]). So no legal order of events pays more than
//! the least clearing payments, on any network. [`State`] runs this process event by event; the
//! program makes the events on boards.
#![tactic(auto)]

mod allowed;
mod event;
mod journal;
pub mod laws;
mod payments;
mod plain;
mod quiet;
mod receipts;
mod row_buffer;
mod scratch;

pub use allowed::allowed_of;
pub use event::{Event, Illegal, Raise};
pub use journal::Journal;
pub use payments::{Payments, Sums};
pub use plain::{State, is_quiet, share_of};
pub use quiet::first_unquiet;
pub use receipts::{estate_of, paid_by, receipts_of, spend, spendable};
pub use row_buffer::lay_out_row;
pub use scratch::{Scratch, longest_row};
