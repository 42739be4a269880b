//! The least clearing payments of a network, computed centrally: on one thread.
//!
//! By sweeps: a bank is visited only where a payment to it has risen since its last visit, and
//! divides only where it pays more in all. That is [`central`], from nothing paid; [`least_from`],
//! from payments that are known to be on the way; and [`least_by`] where banks divide something else
//! than all that they have, as a [`Spending`] says. [`least_again`] is told which banks may pay more,
//! and takes no memory: many networks that differ in cash are cleared so, one after another. What
//! each bank receives and pays is kept as a sum, which grows with each payment that rises.
//!
//! Payments on the way rise to the least and stop nowhere before (Tarski 1955: the least fixed
//! point), in whatever order the banks pay.
#![tactic(auto)]

mod plain;
mod spending;
mod sweep;

pub use plain::least_from;
pub use spending::{Spending, WithoutCosts};
pub use sweep::{central, least_again, least_by, least_payments};
