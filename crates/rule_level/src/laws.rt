//! The laws that a division by levels rests on. A law has nothing to run; its `ensures` is proved.
ghost use Rattle.clr_net.specs.Division.{award, next_of};
ghost use Rattle.rule_unit.specs.Awards.{IsWithin};
ghost use Rattle.rule_unit.specs.Units.{awards_after};
ghost use Rattle.clr_net.specs.declared.rule.RuleKind.{RuleKind};
ghost use Rattle.rule_level.specs.InTurn.{IsInTurn};
ghost use Rattle.rule_level.specs.Levels.{awards_above, level_awards};
ghost use Rattle.rule_unit.specs.declared.TheConstants.{MAX_CLAIM};
ghost use Rattle.std.specs.Prelude.{◌≡◌, ◌+◌, ◌-◌, ◌≤◌, ℕ, List, slice_index, sum};

/// An award goes on, unit by unit, from the award of any smaller estate.
#[tactic(auto, using(crate::proofs::GoesOn::award_goes_on))]
pub fn award_goes_on_from_smaller()
    ensures { (kind : RuleKind) (claims : List ℕ) (f e : ℕ) → f ≤ e
        → award kind claims e ≡ awards_after (next_of kind) claims (award kind claims f) (e - f) }
{}

/// Awards within the claims are the award of their sum, where no unit that they leave out goes
/// before one that they give, and at a tie no unit of an earlier debt is left out.
#[tactic(auto, using(crate::proofs::InTurn::award_in_turn))]
pub fn awards_in_turn_are_those_of_their_sum()
    ensures { (kind : RuleKind) (claims awards : List ℕ) → IsWithin claims awards
        → IsInTurn kind claims awards → awards ≡ award kind claims (sum awards) }
{}

/// So units that end between a level and the next are awarded by giving each claim what it gets at
/// the level, and those that are left to the earliest of the claims that get one more at the next.
#[tactic(auto, using(crate::proofs::Above::award_by_level))]
pub fn units_end_at_a_level()
    ensures { (kind : RuleKind) (level units : ℕ) (claims : List ℕ)
        → ((k : ℕ) → slice_index claims k ≤ MAX_CLAIM)
        → sum (level_awards kind level claims) ≤ units
        → units ≤ sum (level_awards kind (level + 1) claims)
        → awards_above kind level (units - sum (level_awards kind level claims)) claims
        ≡ award kind claims units }
{}
