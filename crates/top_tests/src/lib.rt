//! Tests of the program's top call, [`clear_top::run`]: what it writes, byte for byte, on files in
//! memory. They use public calls alone, and stand in a crate of their own, since a crate with tests
//! is proved twice.
#![tactic(auto)]

#[cfg(test)]
mod runs;
