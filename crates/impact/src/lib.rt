//! Who would hurt whom: what each bank keeps less, and which banks fall, where one bank loses all
//! its cash.
//!
//! [`impact_of`] tells of one bank, by a descent through halves of all banks: the network is cleared
//! without the cash of many banks, and the clearing goes on where half of them have it again, down to
//! one bank. How all banks stand under the least payments (Eisenberg and Noe 2001) is compared before
//! and after. What a ruin costs all banks together is just the cash that was lost, as the [`laws`]
//! say.
#![tactic(auto)]

mod compare;
mod hurt;
pub mod laws;
mod ruins;

pub use hurt::{Hurt, Impact};
pub use ruins::impact_of;
