//! Laws on cycles of debts and on lower claims, at a cycle of three debts.
ghost use Rattle.clr_net.specs.Claims.{with_claims};
ghost use Rattle.clr_net.specs.Limits.{IsNetwork};
ghost use Rattle.compress.specs.Compression.{HasNoCycle, IsBalanceKept};
ghost use Rattle.compress.specs.Lowering.{lowered};
ghost use Rattle.law_tests.specs.Nets.{cycle, left};
ghost use Rattle.std.specs.Prelude.{◌∷◌, []};

use crate::networks::cycle_is_network;

// A cycle that is cancelled leaves each bank its balance.
pub fn cycle_of_three_cancels()
    ensures { IsBalanceKept cycle (lowered (5 ∷ 3 ∷ 4 ∷ []) 3 (0 ∷ 1 ∷ 2 ∷ [])) 1 0 }
{
    compress::laws::cycles_cancel();
}

// A cycle that has something to cancel is one.
pub fn something_runs_round_the_cycle()
    ensures { HasNoCycle cycle (5 ∷ 3 ∷ 4 ∷ []) 1 → ⊥ }
{}

// A network with lower claims is a network.
pub fn lower_claims()
    ensures { IsNetwork (with_claims cycle left) }
{
    cycle_is_network();
    compress::laws::lower_claims_are_a_network();
}
