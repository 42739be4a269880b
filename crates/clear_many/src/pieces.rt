//! Texts of two tables, of which each place has a piece.
ghost use Rattle.clear_many.specs.Texts.{text_of};
ghost use Rattle.std.specs.List.{flat_map};
ghost use Rattle.std.specs.Prelude.{◌≡◌, ◌++◌, IfOk};

use clear_report::Piece;
use clr_net::Mem;
use std::alloc::Global;

// A text that begins so, and below it what stands in the second table, place by place.
pub(crate) fn laid_below(
    alloc: Global,
    begun: Vec<u8>,
    pieces: Vec<Piece>,
) -> Result<Vec<Vec<u8>>, Mem>
    ensures { IfOk result (λ all. text_of all.items
        ≡ begun.items ++ flat_map (λ p. p.lower.items) pieces.items) }
{
    let mut all = Vec::with_capacity(alloc, 1)?;
    all.push(begun)?;
    for piece in pieces {
        let Piece { upper: _, lower } = piece;
        all.push(lower)?;
    }
    Ok(all)
}
