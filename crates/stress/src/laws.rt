//! The laws of shocks, for any network and any scenario. A law has nothing to run; its `ensures`
//! is proved.
ghost use Rattle.cascade.specs.MoreCash.{NobodyLoses};
ghost use Rattle.cascade.specs.Standings.{standings};
ghost use Rattle.clear_core.specs.Clearing.{least};
ghost use Rattle.clr_net.specs.Limits.{IsNetwork};
ghost use Rattle.clr_net.specs.Net.{Net, cash_of};
ghost use Rattle.std.specs.Prelude.{◌≡◌, ◌+◌, ◌-◌, ◌++◌, ◌∷◌, ◌<◌, ◌≤◌, ◌↔◌, [], ℕ, List, length, map};
ghost use Rattle.stress.specs.Breaking.{breaking_within, joined};
ghost use Rattle.stress.specs.Milder.{IsBreakingCut, IsMilder, IsSoundAfter, breaking_cut};
ghost use Rattle.stress.specs.Outcomes.{AreWithin, added, outcome, tally, tally_of_one};
ghost use Rattle.stress.specs.Shocks.{KeepsAllButCash, after_cut, loss_of, shocked};
ghost use Rattle.stress.specs.declared.TheConstants.{MAX_CUT};
ghost use Rattle.stress.specs.declared.scenario.Scenario.{Scenario};

/// A shock changes nothing but cash.
pub fn shock_keeps_all_but_cash()
    ensures { (net : Net) (s : Scenario) → KeepsAllButCash net (shocked net s) }
{}

/// Each bank has what the cut leaves of its cash, less its loss, and not less than nothing.
pub fn shock_leaves_cash()
    ensures { (net : Net) (s : Scenario) (i : ℕ)
        → cash_of (shocked net s) i ≡ after_cut s.cut (cash_of net i) - loss_of s.losses i }
{}

/// A smaller shock hurts nobody: under the least payments that clear after each, no debt is paid
/// less, no bank has less or keeps less, and the banks that are sound after the harder one are
/// sound after the milder.
pub fn milder_shock_hurts_nobody()
    ensures { (net : Net) (milder harder : Scenario) → IsNetwork net → IsMilder milder harder
        → NobodyLoses (shocked net harder) (shocked net milder) }
{}

/// For each bank there is a least cut that breaks it, or none up to the greatest.
pub fn there_is_a_breaking_cut()
    ensures { (net : Net) (i : ℕ) → IsBreakingCut net i (breaking_cut net i) }
{}

/// And only one.
pub fn breaking_cut_is_the_only_one()
    ensures { (net : Net) (i c d : ℕ) → IsBreakingCut net i c → IsBreakingCut net i d → c ≡ d }
{}

/// A bank is sound after the cuts below that one, and after no others.
pub fn sound_exactly_below_the_breaking_cut()
    ensures { (net : Net) (i k : ℕ) → IsNetwork net → k ≤ MAX_CUT
        → IsSoundAfter net i k ↔ (k < breaking_cut net i) }
{}

/// What two shares of the cuts tell, put together, is what all of them tell.
pub fn shares_of_cuts_join()
    ensures { (net : Net) (low middle high : ℕ) (banks : List ℕ) → low ≤ middle → middle ≤ high
        → joined middle (map (breaking_within low middle net) banks)
        (map (breaking_within middle high net) banks)
        ≡ map (breaking_within low high net) banks }
{}

/// In each scenario all cash that is left is paid outside or left to a bank.
pub fn scenario_adds_up()
    ensures { (net : Net) (s : Scenario) → IsNetwork net
        → (outcome net s).cash ≡ (outcome net s).outside_paid + (outcome net s).equity }
{}

/// One scenario more counts by how the banks stand in it.
pub fn one_scenario_more_counts_once()
    ensures { (net : Net) (past : List Scenario) (s : Scenario) → let left = shocked net s in
        tally net (past ++ s ∷ [])
        ≡ added (tally net past) (tally_of_one (standings left (least left))) }
{}

/// Shares of the scenarios, counted apart, add up.
pub fn tallies_add_up()
    ensures { (net : Net) (front back : List Scenario)
        → tally net (front ++ back) ≡ added (tally net front) (tally net back) }
{}

/// No bank falls more often than there are scenarios.
pub fn no_bank_falls_more_often()
    ensures { (net : Net) (all : List Scenario) → AreWithin (length all) (tally net all) }
{}
