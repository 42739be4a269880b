//! Work on many places side by side: the banks of a network, or scenarios.
//!
//! What is done at a place is a [`Piecework`]: a piece is made of it, at a desk on which what is
//! needed again stands ready and what adds up is kept. [`in_shares`] halves the places down to as
//! many shares as threads, each of which has a desk of its own, and puts the pieces together in the
//! order of their places. So the pieces that come out do not depend on the threads, where
//! `is_piece` admits one piece of each place alone; nor does the desk, where `has_done` admits one.
#![tactic(auto)]

mod halves;
mod piecework;
mod share;

pub use halves::in_shares;
pub use piecework::{Made, Piecework};

/// How many threads take shares side by side.
pub const THREADS: usize = 4;
