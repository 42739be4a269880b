//! Bytes that pass a room on their way to a sink, so that short pieces are put together.
ghost use Rattle.clr_edge.specs.Taking.{PassesOn, on_sink};
ghost use Rattle.std.specs.Prelude.{◌++◌};

use crate::sink::{Sink, SinkFault, put_all};

/// Puts bytes into a room behind those that wait there; where they do not fit, what waits is put
/// into the sink first. At a fault the sink took a part of what waited and of the bytes, but not
/// all, and the count rose. It takes no memory.
pub fn pass<S: Sink>(sink: &mut S, room: &mut Vec<u8>, bytes: &[u8]) -> Result<(), SinkFault>
    ensures { PassesOn S.counts_faults_alone (on_sink S.written S.faults sink.old sink.new)
        room.old.items room.new.items bytes.now result }
{
    if bytes.len() > room.capacity() - room.len() {
        return pass_on(sink, room, bytes);
    }
    room.extend_from_slice(bytes).unwrap();
    Ok(())
}

/// Puts two pieces, one after the other, as [`pass`] puts each.
pub fn pass_both<S: Sink>(
    sink: &mut S,
    room: &mut Vec<u8>,
    first: &[u8],
    second: &[u8],
) -> Result<(), SinkFault>
    ensures { PassesOn S.counts_faults_alone (on_sink S.written S.faults sink.old sink.new)
        room.old.items room.new.items (first.now ++ second.now) result }
{
    let free = room.capacity() - room.len();
    if first.len() > free || second.len() > free - first.len() {
        pass(sink, room, first)?;
        return pass(sink, room, second);
    }
    room.extend_from_slice(first).unwrap();
    room.extend_from_slice(second).unwrap();
    Ok(())
}

// Puts what waits in a room into the sink, and then bytes into the room, or into the sink where the
// room is too small for them.
fn pass_on<S: Sink>(sink: &mut S, room: &mut Vec<u8>, bytes: &[u8]) -> Result<(), SinkFault>
    ensures { PassesOn S.counts_faults_alone (on_sink S.written S.faults sink.old sink.new)
        room.old.items room.new.items bytes.now result }
{
    put_all(sink, room.as_slice())?;
    room.clear();
    if bytes.len() > room.capacity() {
        return put_all(sink, bytes);
    }
    room.extend_from_slice(bytes).unwrap();
    Ok(())
}
