//! Shares of the places, side by side.
ghost use Rattle.shares.specs.Made.{IsMade};
ghost use Rattle.std.specs.Prelude.{◌≡◌, ◌++◌, ◌+◌, ◌<◌, ◌≤◌, ℕ, IfOk};
ghost use Rattle.std.specs.Thread.{IsSend, IsSync};

use crate::piecework::{Made, Piecework};
use crate::share::share;
use clr_net::Mem;
use std::alloc::Global;
use std::thread::{Threads, join};

/// Does the work of all places, from 0 to below `places`, on so many threads: makes the piece of
/// each, in order, and a desk at which all are done. `Mem` is want of memory.
///
/// Each thread has a desk of its own, and takes the places of its share one after another.
pub fn in_shares<R: Threads + Sync, P: Drop + Send, D: Drop + Send, W: Piecework<P, D> + Sync>(
    rt: &R,
    alloc: Global,
    work: &W,
    places: usize,
    threads: usize,
) -> Result<Made<P, D>, Mem>
    requires can { W.can work.now }
    requires all { places ≡ W.size work.now }
    ensures { IfOk result (IsMade (W.is_piece work.now) (W.has_done work.now) 0 places) }
{
    in_halves(rt, alloc, work, 0, places, threads)
}

// What is made of the places from `low` up to below `high`: each half of them by half of the
// threads, down to one thread or one place.
#[cycle(halves)]
fn in_halves<R: Threads + Sync, P: Drop + Send, D: Drop + Send, W: Piecework<P, D> + Sync>(
    rt: &R,
    alloc: Global,
    work: &W,
    low: usize,
    high: usize,
    threads: usize,
) -> Result<Made<P, D>, Mem>
    requires can { W.can work.now }
    requires range { low ≤ high }
    requires within { high ≤ W.size work.now }
    ensures { IfOk result (IsMade (W.is_piece work.now) (W.has_done work.now) low high) }
{
    if threads <= 1 || high - low <= 1 {
        return share(alloc, work, low, high);
    }
    both_halves(rt, alloc, work, low, high, threads / 2)
}

// What is made of the places from `low` up to below `high`, of which there are two or more: each
// half of them on a thread of its own, and there by so many threads.
#[cycle(halves)]
fn both_halves<R: Threads + Sync, P: Drop + Send, D: Drop + Send, W: Piecework<P, D> + Sync>(
    rt: &R,
    alloc: Global,
    work: &W,
    low: usize,
    high: usize,
    threads: usize,
) -> Result<Made<P, D>, Mem>
    requires can { W.can work.now }
    requires two { low + 1 < high }
    requires within { high ≤ W.size work.now }
    ensures { IfOk result (IsMade (W.is_piece work.now) (W.has_done work.now) low high) }
{
    let middle = low + (high - low) / 2;
    let front = || -> Result<Made<P, D>, Mem>
        requires { IsSync R.row × IsSync W.row × IsSend P.row × IsSend D.row × W.can work.now
            × (low < middle) × (middle ≤ W.size work.now) }
        ensures { IfOk result (IsMade (W.is_piece work.entry.now) (W.has_done work.entry.now)
            low middle) }
    { in_halves(rt, alloc, work, low, middle, threads) };
    let back = || -> Result<Made<P, D>, Mem>
        requires { IsSync R.row × IsSync W.row × IsSend P.row × IsSend D.row × W.can work.now
            × (middle < high) × (high ≤ W.size work.now) }
        ensures { IfOk result (IsMade (W.is_piece work.entry.now) (W.has_done work.entry.now)
            middle high) }
    { in_halves(rt, alloc, work, middle, high, threads) };
    let (a, b) = join(rt, front, back);
    both(work, a?, b?)
}

// What is made of some places, and of those after them.
fn both<P: Drop, D: Drop, W: Piecework<P, D>>(
    work: &W,
    front: Made<P, D>,
    back: Made<P, D>,
) -> Result<Made<P, D>, Mem>
    requires can { W.can work.now }
    requires neighbours { (low : ℕ) × (middle : ℕ) × (high : ℕ)
        × W.has_done work.now low middle front.desk × W.has_done work.now middle high back.desk }
    ensures pieces { IfOk result (λ made.
        made.pieces.items ≡ front.pieces.items ++ back.pieces.items) }
    ensures desk { IfOk result (λ made. (low middle high : ℕ)
        → W.has_done work.now low middle front.desk → W.has_done work.now middle high back.desk
        → W.has_done work.now low high made.desk) }
{
    let Made { mut pieces, desk } = front;
    let Made {
        pieces: mut more,
        desk: other,
    } = back;
    pieces.append(&mut more)?;
    let desk = work.merged(desk, other);
    Ok(Made { pieces, desk })
}
