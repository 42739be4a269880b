//! A worker and its visits: it owns a seat of a board and a desk for each bank of that seat, and
//! makes a bank pay what its rule gives from its cash and from what the worker has just seen paid
//! to it, less what it owes outside the network.
//!
//! A [`Worker`] goes over its banks in turn, takes each bell that is up, and visits the bank.
//! Whatever the other workers do meanwhile, after a round each of its banks pays its rule's
//! division at what the worker last saw, and each debt to them was seen at least at the floor: at
//! what was known to be paid when the seat was handed out.
//!
//! A *seat* is the right to look, raise, ring and take on a board. A *desk* has what is known of
//! one bank. An *office* has the desks of a worker, and the workspace that it keeps from round to
//! round. Contracts see a worker as a `WorkerView`: its seat, desks, number, visits and journal. A
//! bank is *called* while it is on the worklist of a round, the set of banks whose bells may be up.
//!
//! `worker.rt` has the worker and its visit, and `rounds.rt` its rounds, over worklists of
//! `bank_set.rt`. A visit is done by `office.rt`, which keeps desks (`desks.rt`) and the workspace
//! (`workspace.rt`), in three parts: `looks.rt`, `raises.rt` and `rings.rt`, which have the
//! definitions of the same names in `specs/`. What they come to in a visit is in
//! `specs/OneVisit.antt`, and what visits come to in a round in `specs/Grows.antt`. What the acts of
//! a seat tell of the visits of its worker is in [`laws`]. The program calls nothing of `plain.rt`.
#![tactic(auto)]

mod bank_set;
mod desks;
pub mod laws;
mod looks;
mod office;
mod plain;
mod raises;
mod rings;
mod rounds;
mod visit;
mod worker;
mod workspace;

pub use bank_set::BankSet;
pub use office::Office;
pub use plain::SeatBack;
pub use visit::Visit;
pub use worker::Worker;
