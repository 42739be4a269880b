//! The share of one thread.
ghost use Rattle.shares.specs.Made.{IsMade};
ghost use Rattle.std.specs.Prelude.{◌≤◌, IfOk};

use crate::piecework::{Made, Piecework};
use clr_net::Mem;
use std::alloc::Global;

// What is made of the places from `low` up to below `high`, one after another, at one desk.
pub(crate) fn share<P: Drop, D: Drop, W: Piecework<P, D>>(
    alloc: Global,
    work: &W,
    low: usize,
    high: usize,
) -> Result<Made<P, D>, Mem>
    requires can { W.can work.now }
    requires range { low ≤ high }
    requires within { high ≤ W.size work.now }
    ensures { IfOk result (IsMade (W.is_piece work.now) (W.has_done work.now) low high) }
{
    let mut pieces = Vec::with_capacity(alloc, high - low)?;
    let mut desk = work.desk()?;
    for place in low..high {
        let (piece, left) = work.piece(desk, place)?;
        pieces.push(piece)?;
        desk = left;
    }
    Ok(Made { pieces, desk })
}
