//! What the rules by kind share. A law has nothing to run; its `ensures` is proved.
ghost use Rattle.clr_net.specs.Division.{next_of};
ghost use Rattle.clr_net.specs.declared.rule.RuleKind.{RuleKind};
ghost use Rattle.clr_net.specs.declared.rule.RuleKind.TheVariants.{Equal, Losses, Order};
ghost use Rattle.rule_kinds.specs.declared.equal.EqualRule.{EqualRule};
ghost use Rattle.rule_kinds.specs.declared.losses.LossRule.{LossRule};
ghost use Rattle.rule_kinds.specs.declared.order.OrderRule.{OrderRule};
ghost use Rattle.rule_unit.specs.Choice.{IsUnitChoice};
ghost use Rattle.std.specs.Prelude.{◌≡◌};

use crate::equal::EqualRule;
use crate::losses::LossRule;
use crate::order::OrderRule;
use rule_unit::UnitRule;

/// The next debt of each kind meets the laws of every unit rule.
#[tactic(auto, using(clr_net::proofs::Award::kind_is_unit_choice))]
pub fn each_kind_is_a_unit_choice()
    ensures { (kind : RuleKind) → IsUnitChoice (next_of kind) }
{}

/// The rule `order` chooses the next debt of its kind.
pub fn order_chooses_by_its_kind()
    ensures { (rule : OrderRule) → ⟦<OrderRule as UnitRule>⟧.choice rule ≡ next_of Order }
{}

/// The rule `equal` chooses the next debt of its kind.
pub fn equal_chooses_by_its_kind()
    ensures { (rule : EqualRule) → ⟦<EqualRule as UnitRule>⟧.choice rule ≡ next_of Equal }
{}

/// The rule `losses` chooses the next debt of its kind.
pub fn losses_chooses_by_its_kind()
    ensures { (rule : LossRule) → ⟦<LossRule as UnitRule>⟧.choice rule ≡ next_of Losses }
{}
