//! Who would hurt whom, a share of the banks to each thread.
ghost use Rattle.cascade.specs.Standings.{standings};
ghost use Rattle.clear_core.specs.Clearing.{least};
ghost use Rattle.clear_report.specs.Impact.{hurt_lines, impact_line, impact_text};
ghost use Rattle.clear_many.specs.Texts.{text_of};
ghost use Rattle.impact.specs.Ruined.{IsDescentByRuins};
ghost use Rattle.std.specs.Prelude.{◌≡◌, IfOk, length};

use crate::pieces::laid_below;
use cascade::Standing;
use clear_least::central;
use clear_report::{Piece, impact_begun, impact_piece, least_standings};
use clr_net::{BankId, Mem, Network};
use descent::Descent;
use impact::impact_of;
use shares::{Made, Piecework, THREADS, in_shares};
use std::alloc::Global;
use std::thread::Threads;

/// The text of what the ruin of each bank takes from each bank, in pieces. `Mem` for want of memory
/// alone.
///
/// Costs a clearing for each bank, which goes on from one without the cash of twice as many, and a
/// walk over the debts. Each thread has one copy of the network, and a list over the debts for each
/// halving of the banks.
pub fn tell_impact<R: Threads + Sync>(
    rt: &R,
    alloc: Global,
    net: &Network,
) -> Result<Vec<Vec<u8>>, Mem>
    ensures { IfOk result (λ all. text_of all.items ≡ impact_text net.now) }
{
    let paid = central(alloc, net)?;
    let before = least_standings(alloc, net, paid.as_slice())?;
    let ruins = Ruins {
        alloc,
        net,
        before: before.as_slice(),
    };
    let Made { pieces, desk: _ } = in_shares(rt, alloc, &ruins, net.banks() as usize, THREADS)?;
    let begun = impact_begun(alloc, pieces.as_slice())?;
    laid_below(alloc, begun, pieces)
}

// The ruins of all banks of a network, which stand so before. The desk is a descent
// through halves of its banks.
#[derive(Drop)]
struct Ruins<'a> {
    alloc: Global,
    net: &'a Network,
    before: &'a [Standing],
}

impl<'a> Piecework<Piece, Descent> for Ruins<'a> {
    ghost can = { λ w. w.before.now ≡ standings w.net.now (least w.net.now) };

    ghost size = { λ w. length w.net.now.banks };

    ghost is_piece = { λ w j p. (p.upper.items ≡ impact_line w.net.now j)
        × (p.lower.items ≡ hurt_lines w.net.now j) };

    ghost has_done = { λ w low high descent. IsDescentByRuins w.net.now descent };

    fn desk(&self) -> Result<Descent, Mem> {
        Descent::of(self.alloc, self.net)
    }

    fn piece(&self, desk: Descent, place: usize) -> Result<(Piece, Descent), Mem> {
        let mut descent = desk;
        let bank = BankId(place as u32);
        let impact = impact_of(self.alloc, self.net, &mut descent, self.before, bank)?;
        let piece = impact_piece(self.alloc, self.net, bank, &impact)?;
        Ok((piece, descent))
    }

    fn merged(&self, front: Descent, _back: Descent) -> Descent {
        front
    }
}
