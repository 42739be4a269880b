//! The outside world as the crates above see it: a shelf of files, a sink for bytes, and a gate
//! that workers pass.
//!
//! A [`Shelf`] and a [`Sink`] count their faults. A fault is answered only where that count rose in
//! the call, so that what stands above them can say which outside fault each of its own refusals
//! comes from. [`MemShelf`], [`MemSink`] and [`OpenGate`] are the forms in memory.
//!
//! What is put into a sink is a [`Text`] in pieces, or lines of fields ([`line`]) that [`pass`] puts
//! together in a room.
#![tactic(auto)]

mod gate;
pub mod laws;
pub mod line;
mod mem_shelf;
mod mem_sink;
mod passing;
mod shelf;
mod sink;
mod texts;

pub use gate::{Gate, OpenGate};
pub use mem_shelf::MemShelf;
pub use mem_sink::MemSink;
pub use passing::{pass, pass_both};
pub use shelf::{FetchFault, Shelf};
pub use sink::{Sink, SinkFault, put_all};
pub use texts::Text;
