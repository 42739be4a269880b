ghost use Rattle.clr_net.specs.Division.{next_of};
ghost use Rattle.clr_net.specs.declared.rule.RuleKind.TheVariants.{Order};
ghost use Rattle.clr_net.proofs.Award.{kind_is_unit_choice};

use rule_unit::UnitRule;

/// The rule `order`: the earliest debt that is not paid in full gets the next unit.
#[derive(Clone, Copy, Debug)]
pub struct OrderRule;

impl UnitRule for OrderRule {
    ghost choice = { λ rule. next_of Order };

    fn next(&self, claims: &[u64], awards: &[u64]) -> Option<usize> {
        for debt in 0..claims.len() {
            if awards[debt] < claims[debt] {
                return Some(debt);
            }
        }
        None
    }

    ghost laws = { λ rule. kind_is_unit_choice Order };
}
