//! Laws at concrete networks: that what they ask for can be met, and what they then say.
//!
//! Nothing here runs. A law that is weakened, or that asks for more, no longer gives what is said of
//! the network.
//!
//! A law of any crate can be tried here. Those come first that ask for more than a network: for a
//! history, for payments that clear, for a milder shock, or for claims that are within others. If
//! what such a law asks for were made impossible to meet, its proof would still hold, and nothing
//! else would tell. Of laws that are alike, as those of the least and of the greatest payments, one
//! is tried. A law that asks for nothing is tried where it can be seen to give a number.
#![tactic(auto)]

mod cycles;
mod divisions;
mod networks;
mod process;
mod reading;
mod standings;
