//! Who defaults under payments that clear, and with which label.
//!
//! [`defaults`] tells of each bank what it has, owes, pays and keeps, and [`defaults_by`] the same
//! from payments that have their sums. Where a bank does not pay all that it owes, it
//! has one of two labels (Elsinger, Lehar and Summer 2006): `fundamental` where it could not pay
//! even if all its debtors paid in full, and else `contagion`. A label compares, and names no
//! cause. The [`laws`] say that no unit is made or lost on the way, and that no equity depends on
//! which clearing payments are made.
//!
//! Three of them compare the least payments of two networks that differ in cash alone. More cash
//! hurts nobody, and a clearing with less cash can go on from where it ended to that with more. The
//! ruin of a bank, which then has no cash, costs all banks together exactly that cash, and nobody
//! gains by it.
#![tactic(auto)]

pub mod laws;
mod owing;
mod standing;
mod standings;

pub use owing::{due, health_at, worth};
pub use standing::{Health, Standing};
pub use standings::{defaults, defaults_by};
