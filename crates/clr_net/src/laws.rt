//! The laws of the division: what holds of every rule. A law has nothing to run; its `ensures` is
//! proved.
ghost use Rattle.clr_net.specs.Amounts.{IsAtMost};
ghost use Rattle.clr_net.specs.Division.{AreClasses, award, next_of, share};
ghost use Rattle.rule_unit.specs.Awards.{IsWithin};
ghost use Rattle.rule_unit.specs.Choice.{place_without};
ghost use Rattle.clr_net.specs.declared.TheConstants.{MAX_CLASS};
ghost use Rattle.clr_net.specs.declared.rule.RuleKind.{RuleKind};
ghost use Rattle.std.specs.List.{sum};
ghost use Rattle.std.specs.Option.{option_map};
ghost use Rattle.std.specs.Prelude.{◌≡◌, ◌<◌, ◌≤◌, ◌↔◌, ℕ, List, None, length, min, remove, slice_index};

/// The next unit goes to none exactly where every claim is met.
pub fn next_is_none_where_all_is_met()
    ensures { (rule : RuleKind) (claims awards : List ℕ) → IsWithin claims awards
        → (next_of rule claims awards ≡ None) ↔ (awards ≡ claims) }
{}

/// A place whose claim is met can be left out of both lists: of the other places the same one is
/// next.
pub fn met_place_can_be_left_out()
    ensures { (rule : RuleKind) (claims awards : List ℕ) (i : ℕ) → i < length claims
        → length awards ≡ length claims
        → slice_index claims i ≤ slice_index awards i
        → next_of rule claims awards
        ≡ option_map (place_without i) (next_of rule (remove claims i) (remove awards i)) }
{}

/// No debt is awarded more than its claim.
pub fn award_is_within_claims()
    ensures { (rule : RuleKind) (claims : List ℕ) (e : ℕ) → IsWithin claims (award rule claims e) }
{}

/// No debt is awarded less of a larger estate.
#[tactic(auto, using(crate::proofs::Award::award_mono))]
pub fn award_never_falls()
    ensures { (rule : RuleKind) (claims : List ℕ) (d e : ℕ) → d ≤ e
        → IsAtMost (award rule claims d) (award rule claims e) }
{}

/// An award hands out all there is, up to all that is claimed.
#[tactic(auto, using(crate::proofs::Award::sum_award))]
pub fn award_gives_all()
    ensures { (rule : RuleKind) (claims : List ℕ) (e : ℕ)
        → sum (award rule claims e) ≡ min e (sum claims) }
{}

/// A share over classes hands out all there is, up to all that is claimed.
#[tactic(auto, using(crate::proofs::Share::sum_share))]
pub fn share_gives_all()
    ensures { (rule : RuleKind) (claims classes : List ℕ) (e : ℕ)
        → length claims ≡ length classes → AreClasses classes 1 MAX_CLASS
        → sum (share rule claims classes e) ≡ min e (sum claims) }
{}

/// No debt gets more than its claim.
#[tactic(auto, using(crate::proofs::Share::share_within))]
pub fn share_is_within_claims()
    ensures { (rule : RuleKind) (claims classes : List ℕ) (e : ℕ)
        → IsAtMost (share rule claims classes e) claims }
{}

/// No debt gets less of a larger estate.
#[tactic(auto, using(crate::proofs::Share::share_mono))]
pub fn share_never_falls()
    ensures { (rule : RuleKind) (claims classes : List ℕ) (d e : ℕ) → d ≤ e
        → IsAtMost (share rule claims classes d) (share rule claims classes e) }
{}

/// Where there is enough for all, each debt gets its claim.
#[tactic(auto, using(crate::proofs::Share::share_full))]
pub fn share_meets_claims()
    ensures { (rule : RuleKind) (claims classes : List ℕ) (e : ℕ)
        → length claims ≡ length classes → AreClasses classes 1 MAX_CLASS
        → sum claims ≤ e → share rule claims classes e ≡ claims }
{}
