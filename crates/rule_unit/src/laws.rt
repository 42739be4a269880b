//! The laws of a division by units: what holds of every rule. A law has nothing to run; its
//! `ensures` is proved.
ghost use Rattle.rule_unit.specs.Awards.{IsAtMost, IsWithin};
ghost use Rattle.rule_unit.specs.Choice.{AgreeWhereUnmet};
ghost use Rattle.rule_unit.specs.Units.{award, awards_after};
ghost use Rattle.std.specs.Prelude.{◌≡◌, ◌+◌, ◌≤◌, ℕ, List, min, sum};

use crate::rule::UnitRule;

/// No debt is given more than its claim.
pub fn awards_stay_within_claims<R: UnitRule>()
    ensures { (rule : R) (claims awards : List ℕ) (d : ℕ) → IsWithin claims awards
        → IsWithin claims (awards_after (R.choice rule) claims awards d) }
{}

/// All units are given out, up to all that is claimed.
pub fn units_are_given_out<R: UnitRule>()
    ensures { (rule : R) (claims awards : List ℕ) (d : ℕ) → IsWithin claims awards
        → sum (awards_after (R.choice rule) claims awards d) ≡ min (sum awards + d) (sum claims) }
{}

/// No debt gets less where more units are given out.
pub fn awards_never_fall<R: UnitRule>()
    ensures { (rule : R) (claims awards : List ℕ) (d e : ℕ) → d ≤ e
        → IsAtMost (awards_after (R.choice rule) claims awards d)
        (awards_after (R.choice rule) claims awards e) }
{}

/// No debt gets more than its claim of an estate.
pub fn award_is_within_claims<R: UnitRule>()
    ensures { (rule : R) (claims : List ℕ) (e : ℕ)
        → IsWithin claims (award (R.choice rule) claims e) }
{}

/// An estate is given out whole, up to all that is claimed.
pub fn award_gives_all<R: UnitRule>()
    ensures { (rule : R) (claims : List ℕ) (e : ℕ)
        → sum (award (R.choice rule) claims e) ≡ min e (sum claims) }
{}

/// No debt gets less of a larger estate.
pub fn award_never_falls<R: UnitRule>()
    ensures { (rule : R) (claims : List ℕ) (d e : ℕ) → d ≤ e
        → IsAtMost (award (R.choice rule) claims d) (award (R.choice rule) claims e) }
{}

/// The debts that are paid in full do not matter: where two lists of claims and awards agree on the
/// others, the same debt is next.
pub fn next_sees_the_unmet_alone<R: UnitRule>()
    ensures { (rule : R) (claims awards other_claims other_awards : List ℕ) → IsWithin claims awards
        → IsWithin other_claims other_awards
        → AgreeWhereUnmet claims awards other_claims other_awards
        → R.choice rule claims awards ≡ R.choice rule other_claims other_awards }
{}
