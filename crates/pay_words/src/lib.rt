//! A lock-free board of payment words: one atomic word for each debt of a network, and seats that
//! read and raise them.
//!
//! A [`Board`] is made with one seat, the master, which holds all banks. The master hands banks to
//! further seats, one for each worker, and takes them back. A seat looks at what is paid to its
//! banks and raises what they pay, from any thread, by single atomic loads and stores with nothing
//! else between them. A raised debt owes its creditor a ring of the bell, and a bell that is taken
//! tells its bank to look again.
//!
//! Whatever the threads do, no word passes the least clearing payments, and all raises, put in the
//! order of their stamps, are a lawful journal that replays to the payments. A look and a raise
//! cost one atomic step. Handing out a seat and taking one back cost no more: time that does not
//! grow with the network, and no memory. Making a board costs walks over all debts, and beside the
//! words four bytes for each debt and worker, and eight for each debt. Closing it costs one walk.
//!
//! The words of the debts to one bank stand side by side (`specs/Positions.antt`), since a visit
//! looks at all of them: so they are read in a row, and not each from a line of its own.
//!
//! `board.rt` makes a board and closes it, `seating.rt` hands seats out and takes them back, and
//! `calls.rt` looks, raises, rings and takes. What each call changes of what a seat shows stands in
//! `specs/Seating.antt`, `specs/Paying.antt` and `specs/Ringing.antt`. The program calls nothing of
//! `plain.rt`. Beneath all of them lies the rule of a board (`rule.rt`), which holds between any two
//! atomic steps: `specs/BoardRule.antt` for the payments and `specs/Bells.antt` for the bells. What
//! a caller may rely on is in [`laws`].
//!
//! Contracts and proofs call what they see by these words:
//!
//! - `Place`: a table of words; `BoardView`: a board; `SeatView`: a seat, with what it shows
//!   (`Shown`).
//! - `View`: what the rule of the table knows of a seat: what it shows, and whether it lives still.
//! - `Origin`: what a board is made for, its network and its past.
//! - `Founding` and `Chosen`: a type that stands for an origin, or for a worker whose banks go to a
//!   new seat; the proof of a call picks which.
//! - `BoardHistory`: what no single seat knows of banks and raises.
//! - `BellLedger`: what no single seat knows of bells.
//! - `SeatMemory`: the lists of payments that a seat has in memory.
//! - `Positions`: where the words of debts stand among each other.
//! - `Sealed`: a record of a board.
#![tactic(auto)]

mod board;
mod calls;
pub mod laws;
mod opening;
mod origin;
mod paid;
mod payment;
mod plain;
mod positions;
mod record;
mod rule;
mod seat;
mod seating;
mod view;

/// The most seats that a master hands out: the greatest number of 32 bits. A run hands out one to
/// each worker in each round, which is fewer.
pub const MAX_SEATS: u64 = 4294967295;

pub use board::Board;
pub use payment::Payment;
pub use record::Record;
pub use seat::PaySeat;
pub use view::{Act, Shown};
