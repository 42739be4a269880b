//! The laws of clearing with costs of default. A law has nothing to run; its `ensures` is proved.
ghost use Rattle.clear_core.specs.Clearing.{least, pay};
ghost use Rattle.clr_net.specs.Amounts.{IsAtMost};
ghost use Rattle.clr_net.specs.Limits.{IsNetwork};
ghost use Rattle.clr_net.specs.Net.{Net, units_owed};
ghost use Rattle.costs.specs.CostStandings.{CostAddsUp, PaysFromKept};
ghost use Rattle.costs.specs.Costs.{CostClears, IsCostGreatest, IsCostLeast, cost_falling};
ghost use Rattle.costs.specs.Costs.{cost_greatest, cost_least, cost_pay};
ghost use Rattle.std.specs.Prelude.{◌≡◌, ◌≤◌, ℕ, List};
ghost use Rattle.upper.specs.Bounds.{greatest};

/// No bank pays less on any debt as what was paid grows, or as more is kept.
#[tactic(auto, using(crate::proofs::CostPay::cost_pay_mono))]
pub fn paying_with_costs_never_falls()
    ensures { (net : Net) (j k : ℕ) (P Q : List ℕ) → j ≤ k → k ≤ 1000 → IsAtMost P Q
        → IsAtMost (cost_pay net j P) (cost_pay net k Q) }
{}

/// The payments after as many rounds as units are owed clear with costs, and are at most all that
/// do.
pub fn cost_least_is_least()
    ensures { (net : Net) (k : ℕ) → k ≤ 1000 → IsCostLeast net k (cost_least net k) }
{}

/// There is only one least: whatever payments are the least that clear with costs are these.
#[tactic(auto, using(crate::proofs::CostLeast::cost_least_only))]
pub fn cost_least_is_the_only_one()
    ensures { (net : Net) (k : ℕ) (P : List ℕ) → k ≤ 1000 → IsCostLeast net k P
        → P ≡ cost_least net k }
{}

/// Where all is kept, banks pay as where default costs nothing.
#[tactic(auto, using(crate::proofs::CostPay::cost_pay_all))]
pub fn nothing_lost_pays_the_same()
    ensures { (net : Net) (P : List ℕ) → cost_pay net 1000 P ≡ pay net P }
{}

/// So the least payments are then the same.
#[tactic(auto, using(crate::proofs::CostLeast::cost_least_all))]
pub fn nothing_lost_is_least()
    ensures { (net : Net) → cost_least net 1000 ≡ least net }
{}

/// Where less is kept they are nowhere greater.
pub fn more_lost_pays_no_more()
    ensures { (net : Net) (j k : ℕ) → j ≤ k → k ≤ 1000
        → IsAtMost (cost_least net j) (cost_least net k) }
{}

/// The payments after as many rounds as units are owed, from all debts paid in full, clear with
/// costs, and are at least all that do (Rogers and Veraart 2013).
pub fn cost_greatest_is_greatest()
    ensures { (net : Net) (k : ℕ) → k ≤ 1000 → IsCostGreatest net k (cost_greatest net k) }
{}

/// There is only one greatest: whatever payments are the greatest that clear with costs are these.
pub fn cost_greatest_is_the_only_one()
    ensures { (net : Net) (k : ℕ) (P : List ℕ) → k ≤ 1000 → IsCostGreatest net k P
        → P ≡ cost_greatest net k }
{}

/// No more rounds than units are owed come to them, and none after that changes anything.
pub fn rounds_with_costs_come_to_the_greatest()
    ensures { (net : Net) (k n : ℕ) → k ≤ 1000 → units_owed net ≤ n
        → cost_falling net k n ≡ cost_greatest net k }
{}

/// They are nowhere below the least.
pub fn cost_least_is_at_most_greatest()
    ensures { (net : Net) (k : ℕ) → k ≤ 1000 → IsAtMost (cost_least net k) (cost_greatest net k) }
{}

/// Where all is kept they are the greatest that clear where default costs nothing.
#[tactic(auto, using(crate::proofs::CostGreatest::cost_greatest_all))]
pub fn nothing_lost_is_greatest()
    ensures { (net : Net) → cost_greatest net 1000 ≡ greatest net }
{}

/// Where less is kept they are nowhere greater.
pub fn more_lost_pays_no_more_at_most()
    ensures { (net : Net) (j k : ℕ) → j ≤ k → k ≤ 1000
        → IsAtMost (cost_greatest net j) (cost_greatest net k) }
{}

/// Where payments clear with costs, each bank pays from what it keeps.
pub fn cost_clearing_pays_from_what_is_kept()
    ensures { (net : Net) (k : ℕ) (P : List ℕ) → IsNetwork net → k ≤ 1000 → CostClears net k P
        → (i : ℕ) → PaysFromKept net k P i }
{}

/// Where payments clear with costs, equities, what is paid outside and what is lost are all opening
/// cash.
pub fn cost_clearing_adds_up()
    ensures { (net : Net) (k : ℕ) (P : List ℕ) → IsNetwork net → k ≤ 1000 → CostClears net k P
        → CostAddsUp net k P }
{}
