//! The texts that the program writes, as bytes.
//!
//! A call gives the text of values that are there already, exactly as a definition says it, or
//! answers want of memory; [`least_standings`] gives what several texts tell, how all banks stand
//! under the least payments. Sums over all banks are taken in 128 bits, so no call has a condition
//! on how great the numbers are.
#![tactic(auto)]

mod bounds;
mod breaking;
mod check;
mod compression;
mod cost_bounds;
mod defaults;
mod heads;
mod journals;
pub mod laws;
mod least;
mod line;
mod outcomes;
mod payments;
mod piece;
mod plain;
pub mod read_back;
mod rescues;
mod ruins;
mod savings;
mod scenarios;
mod summary;
mod sums;
mod table;
mod with_costs;

pub use bounds::bounds_text;
pub use breaking::breaking_text;
pub use check::totals_text;
pub use compression::compress_text;
pub use cost_bounds::cost_bounds_text;
pub use defaults::default_text;
pub use heads::line_heads;
pub use journals::{lawful_text, rounds_text, verdict_text};
pub use least::{least_default_text, least_standings};
pub use outcomes::{falls_text, outcome_line, outcomes_header};
pub use payments::{pay_text, payments_head};
pub use piece::Piece;
pub use plain::check_text;
pub use rescues::rescue_text;
pub use ruins::{impact_begun, impact_piece};
pub use savings::{saving_piece, savings_begun};
pub use scenarios::scenario_text;
pub use summary::summary_text;
pub use with_costs::cost_text;
