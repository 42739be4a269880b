//! The unit rules by divisor: Jefferson, Webster and Adams.
//!
//! Each debt's claim is divided by a number that grows with the units it has got, and the greatest
//! quotient gets the next unit; at a tie the earliest debt does. A rule goes over the debts of a
//! bank once and takes no memory. Awards by these rules are the awards of the kind of rule in the
//! network.
//!
//! Source: M. L. Balinski and H. P. Young, "Fair Representation" (1982).
#![tactic(auto)]

mod divisor;
pub mod laws;

pub use divisor::Divisor;
