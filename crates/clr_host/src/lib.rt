//! The outside world as it is: the files of the current folder and the streams of the system.
//!
//! [`DirShelf`] and [`StdSink`] count their faults, and tell no content.
#![tactic(auto)]

mod dir_shelf;
pub mod laws;
mod std_sink;

pub use dir_shelf::DirShelf;
pub use std_sink::StdSink;
