//! Laws on how banks stand, and on more cash, shocks, ruins, costs and rescues, at the chain, at a
//! richer one and at a ring without cash.
ghost use Rattle.clr_net.specs.Samples.{chain};
ghost use Rattle.cascade.specs.MoreCash.{NobodyLoses};
ghost use Rattle.cascade.specs.Ruin.{CostsItsCash};
ghost use Rattle.cascade.specs.Standings.{AddsUp, equity, health_of};
ghost use Rattle.cascade.specs.declared.standing.Health.TheVariants as health;
ghost use Rattle.clear_core.specs.Clearing.{least, spend};
ghost use Rattle.clr_net.specs.Amounts.{IsAtMost};
ghost use Rattle.costs.specs.CostStandings.{CostAddsUp};
ghost use Rattle.impact.specs.Impact.{lost_by_others};
ghost use Rattle.cascade.specs.Ruin.{kept_less};
ghost use Rattle.rescue.specs.Rescue.{added, Saves};
ghost use Rattle.stress.specs.Milder.{IsSoundAfter};
ghost use Rattle.stress.specs.Shocks.{shocked};
ghost use Rattle.upper.specs.Bounds.{IsWave};
ghost use Rattle.upper.specs.Greatest.{IsGreatestBy, greatest_by};
ghost use Rattle.law_tests.specs.Nets.{richer, dry_ring, loss, scenario};
ghost use Rattle.std.specs.Prelude.{◌≡◌, ◌≢◌, ◌+◌, ◌≤◌, ◌∷◌, [], true, sum};

use crate::networks::{chain_is_network, dry_ring_is_network};

// Estates and equities add up to all cash.
pub fn chain_adds_up()
    ensures { AddsUp chain (7 ∷ 8 ∷ []) }
{
    chain_is_network();
    cascade::laws::clearing_adds_up();
}

// Two lists that clear leave each bank the same equity.
pub fn nothing_and_all_leave_the_same()
    ensures { equity dry_ring (0 ∷ 0 ∷ []) 0 ≡ equity dry_ring (10 ∷ 10 ∷ []) 0 }
{
    dry_ring_is_network();
    cascade::laws::equities_do_not_depend_on_the_payments();
}

// Where a bank has more cash nobody loses.
pub fn richer_loses_nothing()
    ensures { NobodyLoses chain richer }
{
    chain_is_network();
    cascade::laws::more_cash_hurts_nobody();
}

// The ruin of a bank costs its cash.
pub fn ruin_of_the_first()
    ensures { CostsItsCash chain 0 }
{
    chain_is_network();
    cascade::laws::ruin_of_a_bank_costs_its_cash();
}

// A milder shock hurts nobody.
pub fn half_is_harder()
    ensures { NobodyLoses (shocked chain (scenario 500 (loss 0 3 ∷ [])))
        (shocked chain (scenario 100 (loss 0 1 ∷ []))) }
{
    chain_is_network();
    stress::laws::milder_shock_hurts_nobody();
}

// Where default keeps half, cash is paid outside, kept or lost.
pub fn halved_adds_up()
    ensures { CostAddsUp chain 500 (3 ∷ 2 ∷ []) }
{
    chain_is_network();
    costs::laws::cost_clearing_adds_up();
}

// The greatest payments are the greatest.
pub fn greatest_by_what_is_spent()
    ensures { IsGreatestBy chain (spend chain) (greatest_by chain (spend chain)) }
{
    upper::laws::greatest_by_is_greatest();
}

// A sum that is greater than one that saves saves too.
pub fn a_sum_saves_and_a_greater_too()
    ensures { Saves chain 1 5 }
{
    chain_is_network();
    rescue::laws::greater_sum_saves_too();
}

// A unit more at a bank in default is paid at least once.
pub fn unit_at_the_first_rises()
    ensures { sum (least chain) + 1 ≤ sum (least (added chain 0 1)) }
{
    chain_is_network();
    rescue::laws::unit_counts_once();
}

// A ring without cash is in gridlock, and so in default.
pub fn dry_ring_is_gridlocked()
    ensures { health_of dry_ring (least dry_ring) 0 ≢ health.Sound }
{
    dry_ring_is_network();
    upper::laws::gridlock_is_default_that_the_greatest_mend();
}

// What a bank and all others lose by its ruin is its cash.
pub fn ruin_comes_to_seven()
    ensures { kept_less chain 0 0 + lost_by_others chain 0 ≡ 7 }
{
    chain_is_network();
    impact::laws::own_loss_and_that_of_others_are_the_cash();
}

// A bank that is in default as it is is not sound after no cut either.
pub fn the_first_is_not_sound_uncut()
    ensures { IsSoundAfter chain 0 0 → ⊥ }
{
    chain_is_network();
    stress::laws::sound_exactly_below_the_breaking_cut();
}

// A bank whose debtor falls short in the first round falls short in the second.
pub fn second_falls_in_the_second_round()
    ensures { IsWave chain 1 2 }
{
    upper::laws::wave_is_the_first_short_round();
}

// Where default keeps half, nobody pays more than where it costs nothing.
pub fn halved_pays_no_more()
    ensures { IsAtMost (3 ∷ 2 ∷ []) (7 ∷ 8 ∷ []) }
{
    costs::laws::more_lost_pays_no_more();
}
