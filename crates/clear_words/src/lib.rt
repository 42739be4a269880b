//! The command line: the words after the program's name, read into a [`Job`].
//!
//! The words are taken by one simple `clap` command. What that command takes, and which value each
//! option then has, is as `clap` defines it. The tables of tasks and of options are this crate's
//! own: which options a task requires or allows, and what the value of each must be.
#![tactic(auto)]

mod command;
mod fault;
mod file_name;
mod job;
pub mod laws;
mod option;
mod show;
mod task;

pub use fault::WordsFault;
pub use file_name::FileName;
pub use job::{Job, read_words};
pub use show::Show;
pub use task::Task;
