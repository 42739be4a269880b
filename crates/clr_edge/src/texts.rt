//! Texts in pieces, as they are put into a sink.
ghost use Rattle.clr_edge.specs.Taking.{TakesPart, TakesWhole, on_sink};
ghost use Rattle.clr_net.specs.Lines.{line};
ghost use Rattle.std.specs.List.{flat_map};
ghost use Rattle.std.specs.Prelude.{◌≡◌, ◌++◌, ◌≤◌, [], IfOk, OnOk, OnErr};

use crate::sink::{Sink, SinkFault, put_all};
use clr_net::Mem;
use std::alloc::Global;
use std::marker::Model;

/// A text in pieces, which are written one after another, so that none is copied into one.
///
/// Contracts see its bytes.
#[derive(Drop)]
pub struct Text {
    pieces: Vec<Vec<u8>>,
}

impl Model for Text {
    ghost use Rattle.std.specs.List.{concat};
    ghost use Rattle.std.specs.Prelude.{ℕ, List, map};

    ghost Value = { List ℕ };

    ghost view = { λ t. concat (map (λ piece. piece.items) t.pieces.items) };
}

impl Text {
    /// No text yet. Takes no memory.
    pub fn empty(alloc: Global) -> Text
        ensures { result ≡ [] }
    {
        Text {
            pieces: Vec::new(alloc),
        }
    }

    /// A text of one piece.
    pub fn of(alloc: Global, piece: Vec<u8>) -> Result<Text, Mem>
        ensures { IfOk result (λ text. text ≡ piece.items) }
    {
        let mut text = Text::empty(alloc);
        text.add(piece)?;
        Ok(text)
    }

    /// A text of these pieces. Takes no memory.
    pub fn of_pieces(pieces: Vec<Vec<u8>>) -> Text
        ensures { result ≡ flat_map (λ piece. piece.items) pieces.items }
    {
        Text { pieces }
    }

    /// Adds a piece at the end.
    pub fn add(&mut self, piece: Vec<u8>) -> Result<(), Mem>
        ensures { OnOk result (self.new ≡ self.old ++ piece.items) }
    {
        self.pieces.push(piece)?;
        Ok(())
    }

    /// Adds an empty line at the end.
    pub fn add_line(&mut self, alloc: Global) -> Result<(), Mem>
        ensures { OnOk result (self.new ≡ self.old ++ line []) }
    {
        let line = vec![in alloc; b'\n']?;
        self.add(line)
    }

    /// Adds a piece at the end, with an empty line before it.
    pub fn add_below(&mut self, alloc: Global, piece: Vec<u8>) -> Result<(), Mem>
        ensures { OnOk result (self.new ≡ self.old ++ (line [] ++ piece.items)) }
    {
        self.add_line(alloc)?;
        self.add(piece)
    }

    /// Writes the text. At a fault some bytes from its front have been written, but not all, and
    /// the count rose. It takes no memory.
    pub fn put<S: Sink>(&self, sink: &mut S) -> Result<(), SinkFault>
        ensures written { OnOk result (TakesWhole (on_sink S.written S.faults sink.old sink.new)
            self.now) }
        ensures part { OnErr result (TakesPart (on_sink S.written S.faults sink.old sink.new)
            self.now) }
        ensures faults { S.faults sink.old ≤ S.faults sink.new }
        ensures well { S.counts_faults_alone → OnOk result (S.faults sink.new ≡ S.faults sink.old) }
    {
        let pieces = self.pieces.as_slice();
        for piece in pieces {
            put_all(sink, piece.as_slice())?;
        }
        Ok(())
    }
}
