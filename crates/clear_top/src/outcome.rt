//! What the work on a job comes to, before it is written.
ghost use Rattle.clear_report.specs.Blocks.{stress_text};
ghost use Rattle.clr_edge.specs.Taking.{TakesPart, TakesWhole, on_sink};
ghost use Rattle.clear_top.specs.Meaning.{IsPlain};
ghost use Rattle.clear_top.specs.Outcome.{with_journal};
ghost use Rattle.clear_stress.specs.Waiting.{waiting_text};
ghost use Rattle.clear_top.specs.declared.status.Status.{Status};
ghost use Rattle.raise_journal.specs.declared.TheConstants.{ROOM};
ghost use Rattle.std.specs.Prelude.{◌≡◌, ◌++◌, ◌<◌, ◌≤◌, [], All, IfOk, OnOk, OnErr, None, Some};
ghost use Rattle.std.specs.Prelude.{length, map, vec_capacity};

use crate::recorded::Recorded;
use crate::status::{Ended, Status};
use clear_stress::Blocks;
use clr_edge::{Sink, SinkFault, Text};
use clr_net::Mem;
use pay_words::Record;
use std::alloc::Global;
use std::marker::Model;

/// What the work on a job comes to: how the run ends if the text is written whole, the record of
/// the board on which its payments were made, and the text.
///
/// Contracts see the whole text, also what is made of it when it is written: the journal of the
/// record, where it is to be written, and the lines of payments in the blocks of scenarios.
#[derive(Drop)]
pub struct Outcome {
    pub status: Status,
    body: Body,
}

/// What is to be written: a text, one with the record of a board, or the blocks of scenarios.
#[derive(Drop)]
pub enum Body {
    Plain(Text),
    Recorded(Recorded),
    Blocks(Blocks),
}

impl Model for Outcome {
    ghost use Rattle.clear_top.specs.Bodies.{sealed_in, text_in};
    ghost use Rattle.clear_top.specs.Outcome.{Outcome};

    ghost Value = { Outcome };

    ghost view = { λ o. record {
      status = o.status;
      sealed = sealed_in o.body;
      text = text_in o.body;
    } };
}

impl Outcome {
    /// Done, with a text and no record. Takes no memory.
    pub fn of(text: Text) -> Outcome
        ensures { IsPlain text result }
    {
        Outcome::ending(Status::Done, text)
    }

    /// A text and no record, with this status if it is written whole. Takes no memory.
    pub fn ending(status: Status, text: Text) -> Outcome
        ensures { result ≡ record { status = status; sealed = None; text = text } }
    {
        Outcome {
            status,
            body: Body::Plain(text),
        }
    }

    /// Done, with the text of these blocks of scenarios and no record. Takes no memory.
    pub fn of_blocks(blocks: Blocks) -> Outcome
        ensures { IsPlain
            (stress_text (map (waiting_text blocks.heads.items) blocks.all.items)) result }
    {
        Outcome {
            status: Status::Done,
            body: Body::Blocks(blocks),
        }
    }

    /// Done, with a text of one piece and no record.
    pub fn plain(alloc: Global, text: Vec<u8>) -> Result<Outcome, Mem>
        ensures { IfOk result (IsPlain text.items) }
    {
        Ok(Outcome::of(Text::of(alloc, text)?))
    }

    /// Done, with a record and a text, and below it the journal of the record, where there is a
    /// line that closes it. Takes no memory.
    pub fn with_record(sealed: Record, text: Text, closing: Option<Text>) -> Outcome
        requires { All (λ r. r.debt.0 < length sealed.net.debts) sealed.journal }
        ensures { result ≡ record {
          status = Status.Done;
          sealed = Some sealed;
          text = with_journal sealed.net sealed.journal text closing;
        } }
    {
        let recorded = Recorded {
            text,
            sealed,
            closing,
        };
        Outcome {
            status: Status::Done,
            body: Body::Recorded(recorded),
        }
    }

    /// Writes the text, with the lines that are made of it now through the room. At a fault some
    /// bytes from its front have been written, but not all, and the count rose. It takes no memory.
    pub fn put<S: Sink>(&self, sink: &mut S, room: &mut Vec<u8>) -> Result<(), SinkFault>
        requires { ROOM ≤ vec_capacity room.old }
        ensures written { OnOk result (TakesWhole (on_sink S.written S.faults sink.old sink.new)
            self.now.text) }
        ensures part { OnErr result (TakesPart (on_sink S.written S.faults sink.old sink.new)
            self.now.text) }
        ensures well { S.counts_faults_alone → OnOk result (S.faults sink.new ≡ S.faults sink.old) }
    {
        match &self.body {
            Body::Plain(text) => text.put(sink),
            Body::Recorded(recorded) => recorded.put(sink, room),
            Body::Blocks(blocks) => blocks.put(sink, room),
        }
    }

    /// How a run ends with this status, and with the record.
    pub fn end(self, status: Status) -> Ended
        ensures { result ≡ record { status = status; sealed = self.sealed } }
    {
        let Outcome { body, .. } = self;
        match body {
            Body::Recorded(Recorded { sealed, .. }) => Ended {
                status,
                sealed: Some(sealed),
            },
            _ => Ended {
                status,
                sealed: None,
            },
        }
    }
}
