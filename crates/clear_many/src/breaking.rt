//! What breaks each bank, by blocks of the cuts on threads.
ghost use Rattle.cascade.specs.Standings.{bank_numbers};
ghost use Rattle.clear_many.specs.Blocks.{IsTold};
ghost use Rattle.clear_many.specs.Texts.{breaking_report};
ghost use Rattle.shares.specs.Made.{AreInOrder};
ghost use Rattle.std.specs.Prelude.{◌≡◌, ◌+◌, IfOk, length, map};
ghost use Rattle.stress.specs.Breaking.{breaking_within};
ghost use Rattle.stress.specs.declared.TheConstants.{MAX_CUT};

use crate::cuts::{BLOCKS, across, edge};
use clear_report::breaking_text;
use clr_net::{Mem, Network};
use shares::{Made, Piecework, THREADS, in_shares};
use std::alloc::Global;
use std::thread::Threads;
use stress::{Broken, MAX_CUT, breaking_within, joined};

/// The text of the least cut that breaks each bank, and of how the bank stands at it. `Mem` for
/// want of memory alone.
///
/// Costs a clearing for each cut, which goes on from the one before in its block of them.
pub fn tell_breaking<R: Threads + Sync>(
    rt: &R,
    alloc: Global,
    net: &Network,
) -> Result<Vec<u8>, Mem>
    ensures { IfOk result (λ text. text.items ≡ breaking_report net.now) }
{
    let blocks = Blocks { alloc, net };
    let Made { pieces, desk: _ } = in_shares(rt, alloc, &blocks, BLOCKS, THREADS)?;
    let all = all_joined(alloc, net, pieces.as_slice())?;
    breaking_text(alloc, net, all.as_slice())
}

// What all blocks of the cuts tell, put together from the lowest cuts up.
fn all_joined(alloc: Global, net: &Network, pieces: &[Vec<Broken>]) -> Result<Vec<Broken>, Mem>
    requires as_many { length pieces.now ≡ BLOCKS }
    requires in_order { AreInOrder (IsTold net.now) 0 pieces.now }
    ensures { IfOk result (λ all.
        all.items ≡ map (breaking_within 0 (MAX_CUT + 1) net.now) (bank_numbers net.now)) }
{
    let mut all = breaking_within(alloc, net, 0, 0)?;
    for block in 0..BLOCKS {
        all = joined(edge(block), all, pieces[across(block)].as_slice());
    }
    Ok(all)
}

// The desk at which cuts are tried: nothing stands on it.
#[derive(Drop)]
struct NoDesk;

// The blocks of the cuts of all cash of a network.
#[derive(Drop)]
struct Blocks<'a> {
    alloc: Global,
    net: &'a Network,
}

impl<'a> Piecework<Vec<Broken>, NoDesk> for Blocks<'a> {
    ghost use Rattle.clear_many.specs.declared.cuts.TheConstants.{BLOCKS};

    ghost can = { λ w. Unit {0} };

    ghost size = { λ w. BLOCKS };

    ghost is_piece = { λ w place told. IsTold w.net.now place told };

    ghost has_done = { λ w low high desk. Unit {0} };

    fn desk(&self) -> Result<NoDesk, Mem> {
        Ok(NoDesk)
    }

    fn piece(&self, desk: NoDesk, place: usize) -> Result<(Vec<Broken>, NoDesk), Mem> {
        let block = across(place);
        let told = breaking_within(self.alloc, self.net, edge(block), edge(block + 1))?;
        Ok((told, desk))
    }

    fn merged(&self, front: NoDesk, _back: NoDesk) -> NoDesk {
        front
    }
}
