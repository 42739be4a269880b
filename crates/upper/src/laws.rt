//! The laws of the greatest payments and of waves. A law has nothing to run; its `ensures` is
//! proved.
ghost use Rattle.clear_least.specs.Paying.{NeverFalls, RisesTo, least_by};
ghost use Rattle.clr_net.specs.Amounts.{IsAtMost};
ghost use Rattle.clr_net.specs.Limits.{IsNetwork};
ghost use Rattle.clr_net.specs.Net.{Net, units_owed};
ghost use Rattle.std.specs.Prelude.{◌≡◌, ◌≤◌, ℕ, List};
ghost use Rattle.upper.specs.Bounds.{IsGreatest, IsGridlock, IsWave, TellsHealth, greatest, wave};
ghost use Rattle.upper.specs.Greatest.{IsGreatestBy, falling_by, greatest_by};

/// Whatever banks divide, where no bank divides less as its receipts grow: the payments after as
/// many rounds as units are owed, from all debts paid in full, clear, and are at least all that
/// clear.
pub fn greatest_by_is_greatest()
    ensures { (net : Net) (f : ℕ → ℕ → ℕ) → NeverFalls f → IsGreatestBy net f (greatest_by net f) }
{}

/// There is only one greatest.
#[tactic(auto, using(crate::proofs::Tops::greatest_by_only))]
pub fn greatest_by_is_the_only_one()
    ensures { (net : Net) (f : ℕ → ℕ → ℕ) (P : List ℕ) → NeverFalls f → IsGreatestBy net f P
        → P ≡ greatest_by net f }
{}

/// No more rounds than units are owed come to them, and none after that changes anything.
#[tactic(auto, using(crate::proofs::Tops::rounds_come_to))]
pub fn rounds_come_to_the_greatest()
    ensures { (net : Net) (f : ℕ → ℕ → ℕ) (n : ℕ) → NeverFalls f → units_owed net ≤ n
        → falling_by net f n ≡ greatest_by net f }
{}

/// They are nowhere below the least.
pub fn least_is_at_most_greatest()
    ensures { (net : Net) (f : ℕ → ℕ → ℕ) → NeverFalls f
        → IsAtMost (least_by net f) (greatest_by net f) }
{}

/// Where banks divide less they are nowhere greater.
pub fn less_divided_pays_no_more()
    ensures { (net : Net) (f g : ℕ → ℕ → ℕ) → NeverFalls f → NeverFalls g → RisesTo f g
        → IsAtMost (greatest_by net f) (greatest_by net g) }
{}

/// The payments after as many rounds as units are owed, from all debts paid in full, clear, and are
/// at least all that clear (Eisenberg and Noe 2001).
pub fn greatest_is_greatest()
    ensures { (net : Net) → IsGreatest net (greatest net) }
{}

/// There is only one greatest.
#[tactic(auto, using(crate::proofs::Tops::greatest_only))]
pub fn greatest_is_the_only_one()
    ensures { (net : Net) (P : List ℕ) → IsGreatest net P → P ≡ greatest net }
{}

/// A bank's wave is the first round that it enters with less than all that it owes, and 0 where
/// there is none.
pub fn wave_is_the_first_short_round()
    ensures { (net : Net) (i : ℕ) → IsWave net i (wave net i) }
{}

/// There is only one such number.
pub fn wave_is_the_only_one()
    ensures { (net : Net) (i w : ℕ) → IsWave net i w → w ≡ wave net i }
{}

/// A bank's wave is 1 exactly where its own fundamentals are at fault under the least payments, and
/// 0 exactly where it is sound under the greatest.
pub fn wave_tells_health()
    ensures { (net : Net) (i : ℕ) → IsNetwork net → TellsHealth net i (wave net i) }
{}

/// A bank is in gridlock exactly where it is in default under the least payments and sound under the
/// greatest: all that it lacks is that the banks round it pay.
pub fn gridlock_is_default_that_the_greatest_mend()
    ensures { (net : Net) (i : ℕ) → IsNetwork net → IsGridlock net i }
{}
