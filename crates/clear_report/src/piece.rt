ghost use Rattle.clear_report.specs.Pieces.{begun};
ghost use Rattle.std.specs.List.{flat_map};
ghost use Rattle.std.specs.Prelude.{◌≡◌, ◌++◌, IfOk, OnOk};

use crate::line::push_below;
use clr_net::Mem;
use std::alloc::Global;

/// The part of one bank in a text of two tables: its line of the first, and its lines of the
/// second. Parts are made apart, and put together in order.
#[derive(Drop)]
pub struct Piece {
    pub upper: Vec<u8>,
    pub lower: Vec<u8>,
}

// The first table of some parts, and the beginning of the second, by their headers.
pub fn begin(alloc: Global, first: &[u8], second: &[u8], pieces: &[Piece]) -> Result<Vec<u8>, Mem>
    ensures { IfOk result (λ text. text.items ≡ begun first.now second.now pieces.now) }
{
    let mut text = Vec::from_slice(alloc, first)?;
    push_lines(&mut text, pieces)?;
    push_below(&mut text, second)?;
    Ok(text)
}

// Appends the line of each part.
fn push_lines(text: &mut Vec<u8>, pieces: &[Piece]) -> Result<(), Mem>
    ensures { OnOk result
        (text.new.items ≡ text.old.items ++ flat_map (λ p. p.upper.items) pieces.now) }
{
    for piece in pieces {
        text.extend_from_slice(piece.upper.as_slice())?;
    }
    Ok(())
}
