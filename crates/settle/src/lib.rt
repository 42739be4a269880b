//! The run: rounds of all workers of a board, side by side or one after another, until a round
//! raises nothing. What is paid then is the least that clears the network.
//!
//! In a round the master of the board hands a seat to each worker, each worker visits those of its
//! banks whose bells are up, and the master takes the seats back. A [`Plan`] says how many workers
//! there are, and how many sweeps each makes in a round. An [`Engine`] is a plan with memory, and
//! with the gate that is passed before each visit: it serves any number of runs. A [`Run`] is an
//! engine at work on one network and one board of it, and a [`RunState`] what it keeps between two
//! rounds. [`Driven`] is what the rounds came to, and [`Settled`] what a whole run came to, with
//! the record of its board, which is sealed.
//!
//! There are seven ways in:
//!
//! - [`settle_owned`] is what the program calls: it makes the board, and puts the network into the
//!   record. It may go on from the raises of an earlier run.
//! - [`settle_alone`] does the same without threads, for a caller whose own threads are at work:
//!   each scenario of a stress test is cleared by it.
//! - [`settle_from`] and [`settle`] are for a caller that keeps its network, which they copy.
//!   `settle` begins with nothing paid.
//! - [`drive`] makes all rounds on a board of the caller's, and leaves it open.
//! - [`round`] and [`round_in_turn`] make one round, by threads where they pay, or without them:
//!   for a caller that looks at the board between two rounds.
//!
//! Whoever hands out the seats and takes them back by itself has the theorems of [`laws`].
//!
//! Contracts see a board as a `BoardView`, in a place of memory, a `Place`, and a seat as a
//! `SeatView` (`pay_words`), and a worker as a `WorkerView` (`bank_worker`). A `WorkerRound` is a
//! worker in one round: as it began, and as it ended.
#![tactic(auto)]

mod drives;
pub mod laws;
mod noting;
mod offices;
mod opening;
mod plain;
mod plan;
mod run;
mod runs;
mod state;
mod teams;
mod work;

pub use offices::{offices_beside, offices_of};
pub use plain::{drive, settle, settle_from};
pub use plan::{Driven, Plan};
pub use run::{Engine, Run};
pub use runs::{Settled, settle_alone, settle_owned};
pub use state::RunState;
pub use teams::{calls_two_workers, round, round_in_turn};
