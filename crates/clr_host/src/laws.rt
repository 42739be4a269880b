//! What the streams of the system tell of themselves. A law has nothing to run; its `ensures` is
//! proved.
use crate::StdSink;
use clr_edge::Sink;
use std::io::Write;

/// A stream of the system counts its faults, and nothing else.
pub fn a_stream_of_the_system_counts_its_faults_alone<W: Write>()
    ensures alone { ⟦<StdSink<W> as Sink>⟧.counts_faults_alone }
{}
