//! Payments that clear where default itself costs: of the estate of a bank that has not all that it
//! owes only a part is kept (Rogers and Veraart 2013).
//!
//! The part is one figure for all banks, in thousandths. A bank that has all that it owes loses
//! nothing; one that lacks a single unit keeps only its part, of everything that it has.
//! [`least_with_costs`] computes the least payments that clear so and [`greatest_with_costs`] the
//! greatest: banks that pay each other in full may all be sound, where they would all be in default
//! if none began. [`cost_standings`] tells of each bank what it has, loses, pays and keeps under
//! either. The [`laws`] say how all compare with the same network where default costs nothing.
//!
//! To the least, payments rise from nothing, in the sweeps of `clear_least`. A bank pays anew only
//! where a payment to it has risen since it last paid; so its row is divided at most once more than
//! payments to it rise, and all payments together rise at most as often as units are owed. To the
//! greatest, they fall from all debts paid in full, in the rounds of `upper`.
#![tactic(auto)]

mod greatest;
mod kept;
pub mod laws;
mod least;
mod standing;
mod standings;
mod with_costs;

pub use greatest::greatest_with_costs;
pub use least::least_with_costs;
pub use standing::CostStanding;
pub use standings::cost_standings;
