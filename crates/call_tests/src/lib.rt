//! Tests of public calls below the program's own: the shelf and the sink in memory and of the
//! system, the gate, plain bodies beside fast ones, the process of single loads and raises, and calls
//! that the program does not make. What its printed bytes show is tested by `top_tests`, and by files
//! under `tests/`.
//!
//! They stand apart from the crates that they test, so that each of those is proved once. No program
//! calls this crate.
#![tactic(auto)]

#[cfg(test)]
mod edge;
#[cfg(test)]
mod errors;
#[cfg(test)]
mod host_shelf;
#[cfg(test)]
mod host_streams;
#[cfg(test)]
mod journals;
#[cfg(test)]
mod kinds;
#[cfg(test)]
mod levels;
#[cfg(test)]
mod limits;
#[cfg(test)]
mod process;
#[cfg(test)]
mod rows;
#[cfg(test)]
mod tasks;
#[cfg(test)]
mod texts;
