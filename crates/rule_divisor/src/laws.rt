//! What the rules by divisor share. A law has nothing to run; its `ensures` is proved.
ghost use Rattle.clr_net.specs.Division.{next_of};
ghost use Rattle.rule_divisor.specs.Kind.{kind_of};
ghost use Rattle.rule_divisor.specs.declared.divisor.Divisor.{Divisor};
ghost use Rattle.rule_unit.specs.Choice.{IsUnitChoice};
ghost use Rattle.std.specs.Prelude.{◌≡◌};

use crate::divisor::Divisor;
use rule_unit::UnitRule;

/// The next debt by each divisor meets the laws of every unit rule.
#[tactic(auto, using(clr_net::proofs::Award::kind_is_unit_choice))]
pub fn each_divisor_is_a_unit_choice()
    ensures { (divisor : Divisor) → IsUnitChoice (next_of (kind_of divisor)) }
{}

/// A divisor chooses the next debt of its kind.
pub fn divisor_chooses_by_its_kind()
    ensures { (divisor : Divisor)
        → ⟦<Divisor as UnitRule>⟧.choice divisor ≡ next_of (kind_of divisor) }
{}
