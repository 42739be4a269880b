//! What the forms in memory tell of themselves. A law has nothing to run; its `ensures` is proved.
ghost use Rattle.clr_edge.specs.MemShelf.{ShelfState, fault_count, file_at};
ghost use Rattle.clr_edge.specs.MemSink.{SinkState};
ghost use Rattle.std.specs.Prelude.{◌≡◌, Some};

use crate::{MemShelf, MemSink, Shelf, Sink};

/// A shelf in memory tells its files, and counts its faults name by name.
pub fn a_shelf_in_memory_tells_its_files()
    ensures files { (shelf : ShelfState)
        → ⟦<MemShelf as Shelf>⟧.files shelf ≡ Some (file_at shelf) }
    ensures faults { (shelf : ShelfState)
        → ⟦<MemShelf as Shelf>⟧.faults shelf ≡ fault_count shelf }
{}

/// A sink in memory tells the bytes that it has taken, and counts its faults and nothing else.
pub fn a_sink_in_memory_tells_its_bytes()
    ensures written { (sink : SinkState)
        → ⟦<MemSink as Sink>⟧.written sink ≡ Some sink.bytes }
    ensures faults { (sink : SinkState) → ⟦<MemSink as Sink>⟧.faults sink ≡ sink.faults }
    ensures alone { ⟦<MemSink as Sink>⟧.counts_faults_alone }
{}
