//! A text with the record of a board, whose journal is written from the record.
ghost use Rattle.clr_edge.specs.Taking.{TakesPart, TakesWhole, on_sink};
ghost use Rattle.clear_top.specs.Outcome.{with_journal};
ghost use Rattle.raise_journal.specs.declared.TheConstants.{ROOM};
ghost use Rattle.std.specs.Prelude.{◌≡◌, ◌<◌, ◌≤◌, All, OnOk, OnErr, length, vec_capacity};

use clr_edge::{Sink, SinkFault, Text};
use pay_words::Record;
use raise_journal::put_raises;

/// A text, the record of a board, and where its journal is to be written below the text, the line
/// that closes it.
#[derive(Drop)]
pub struct Recorded {
    pub text: Text,
    pub sealed: Record,
    pub closing: Option<Text>,
    // Each raise is of a debt of the network, so that its line can be written.
    ghost debts: { All (λ r. r.debt.0 < length sealed.net.debts) sealed.journal },
}

impl Recorded {
    /// Writes the text, and below it the journal, where there is a line that closes it. At a fault
    /// some bytes from the front have been written, but not all, and the count rose. It takes no
    /// memory.
    pub fn put<S: Sink>(&self, sink: &mut S, room: &mut Vec<u8>) -> Result<(), SinkFault>
        requires { ROOM ≤ vec_capacity room.old }
        ensures written { OnOk result (TakesWhole (on_sink S.written S.faults sink.old sink.new)
            (with_journal self.now.sealed.net self.now.sealed.journal self.now.text
            self.now.closing)) }
        ensures part { OnErr result (TakesPart (on_sink S.written S.faults sink.old sink.new)
            (with_journal self.now.sealed.net self.now.sealed.journal self.now.text
            self.now.closing)) }
        ensures well { S.counts_faults_alone → OnOk result (S.faults sink.new ≡ S.faults sink.old) }
    {
        self.text.put(sink)?;
        match &self.closing {
            Some(closing) => {
                put_raises(sink, room, self.sealed.net(), self.sealed.journal())?;
                closing.put(sink)
            }
            None => Ok(()),
        }
    }
}
