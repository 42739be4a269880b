//! The lines of a journal, written from where it stands.
ghost use Rattle.clr_edge.specs.Taking.{TakesPart, TakesWhole, on_sink};
ghost use Rattle.raise_journal.specs.Texts.{raise_line};
ghost use Rattle.raise_journal.specs.declared.TheConstants.{ROOM};
ghost use Rattle.std.specs.List.{flat_map};
ghost use Rattle.std.specs.Prelude.{◌≡◌, ◌<◌, ◌≤◌, All, OnOk, OnErr, length, vec_capacity};

use crate::MAX_AT_ONCE;
use crate::printing::print_raises;
use clear_core::Raise;
use clr_edge::{Sink, SinkFault, put_all};
use clr_net::Network;

/// Writes the lines of some raises through a room, as many at once as it holds. At a fault some
/// bytes from their front have been written, but not all, and the count rose. It takes no memory.
pub fn put_raises<S: Sink>(
    sink: &mut S,
    room: &mut Vec<u8>,
    net: &Network,
    raises: &[Raise],
) -> Result<(), SinkFault>
    requires debts { All (λ r. r.debt.0 < length net.now.debts) raises.now }
    requires room { ROOM ≤ vec_capacity room.old }
    ensures written { OnOk result (TakesWhole (on_sink S.written S.faults sink.old sink.new)
        (flat_map (raise_line net.now) raises.now)) }
    ensures part { OnErr result (TakesPart (on_sink S.written S.faults sink.old sink.new)
        (flat_map (raise_line net.now) raises.now)) }
    ensures faults { S.faults sink.old ≤ S.faults sink.new }
    ensures well { S.counts_faults_alone → OnOk result (S.faults sink.new ≡ S.faults sink.old) }
{
    let mut done = 0;
    while done < raises.len() {
        let count = (raises.len() - done).min(MAX_AT_ONCE);
        print_raises(room, net, &raises[done..done + count]);
        put_all(sink, room.as_slice())?;
        done += count;
    }
    Ok(())
}
