//! What it takes to save each bank in default, a share of them to each thread.
ghost use Rattle.cascade.specs.Standings.{standings as standings_of};
ghost use Rattle.clear_core.specs.Clearing.{least as least_of};
ghost use Rattle.clear_report.specs.Savings.{saves_lines, saving_line, savings_text};
ghost use Rattle.clear_many.specs.Texts.{text_of};
ghost use Rattle.rescue.specs.Saved.{banks_in_default};
ghost use Rattle.rescue.specs.Searching.{IsSearchOf};
ghost use Rattle.std.specs.Prelude.{◌≡◌, ◌<◌, All, IfOk, length, map, slice_index};

use crate::pieces::laid_below;
use cascade::Standing;
use clear_least::central;
use clear_report::{Piece, least_standings, saving_piece, savings_begun};
use clr_net::{BankId, Mem, Network};
use rescue::{Before, Search, banks_in_default, saving_of};
use shares::{Made, Piecework, THREADS, in_shares};
use std::alloc::Global;
use std::thread::Threads;

/// The text of what it takes to save each bank in default, and of whom else that saves, in pieces.
/// `Mem` for want of memory alone.
///
/// Costs for each bank in default what `saving_of` does. Each thread has one copy of the
/// network.
pub fn tell_rescues<R: Threads + Sync>(
    rt: &R,
    alloc: Global,
    net: &Network,
) -> Result<Vec<Vec<u8>>, Mem>
    ensures { IfOk result (λ all. text_of all.items ≡ savings_text net.now) }
{
    let least = central(alloc, net)?;
    let before = least_standings(alloc, net, least.as_slice())?;
    let banks = banks_in_default(alloc, net, before.as_slice())?;
    let savings = Savings {
        alloc,
        net,
        least: least.as_slice(),
        before: before.as_slice(),
        banks: banks.as_slice(),
    };
    let Made { pieces, desk: _ } = in_shares(rt, alloc, &savings, banks.len(), THREADS)?;
    let begun = savings_begun(alloc, pieces.as_slice())?;
    laid_below(alloc, begun, pieces)
}

// These banks of a network, each of which is to be saved, with the least payments and how all banks
// stand under them. The desk is what searches for sums keep.
#[derive(Drop)]
struct Savings<'a> {
    alloc: Global,
    net: &'a Network,
    least: &'a [u64],
    before: &'a [Standing],
    banks: &'a [BankId],
}

impl<'a> Piecework<Piece, Search> for Savings<'a> {
    ghost can = { λ w. (w.least.now ≡ least_of w.net.now)
        × (w.before.now ≡ standings_of w.net.now (least_of w.net.now))
        × (map (λ b. b.0) w.banks.now ≡ banks_in_default w.net.now)
        × All (λ b. b.0 < length w.net.now.banks) w.banks.now };

    ghost size = { λ w. length w.banks.now };

    ghost is_piece = { λ w k p.
        (p.upper.items ≡ saving_line w.net.now (slice_index (banks_in_default w.net.now) k))
        × (p.lower.items ≡ saves_lines w.net.now (slice_index (banks_in_default w.net.now) k)) };

    ghost has_done = { λ w low high search. IsSearchOf w.net.now search };

    fn desk(&self) -> Result<Search, Mem> {
        Search::of(self.alloc, self.net)
    }

    fn piece(&self, desk: Search, place: usize) -> Result<(Piece, Search), Mem> {
        let mut search = desk;
        let bank = self.banks[place];
        let before = Before {
            net: self.net,
            least: self.least,
            standings: self.before,
        };
        let saving = saving_of(self.alloc, &mut search, &before, bank)?;
        let piece = saving_piece(self.alloc, self.net, bank, &saving)?;
        Ok((piece, search))
    }

    fn merged(&self, front: Search, _back: Search) -> Search {
        front
    }
}
