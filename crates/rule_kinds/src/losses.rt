ghost use Rattle.clr_net.specs.Division.{next_of};
ghost use Rattle.clr_net.specs.declared.rule.RuleKind.TheVariants.{Losses};
ghost use Rattle.clr_net.proofs.Award.{kind_is_unit_choice};

use rule_unit::UnitRule;

/// The rule `losses`: the debt that lacks most of its claim gets the next unit.
#[derive(Clone, Copy, Debug)]
pub struct LossRule;

impl UnitRule for LossRule {
    ghost choice = { λ rule. next_of Losses };

    fn next(&self, claims: &[u64], awards: &[u64]) -> Option<usize> {
        let mut worst: Option<usize> = None;
        for debt in 0..claims.len() {
            let loss = claims[debt] - awards[debt];
            if 0 < loss {
                worst = match worst {
                    Some(earlier) if loss <= claims[earlier] - awards[earlier] => Some(earlier),
                    _ => Some(debt),
                };
            }
        }
        worst
    }

    ghost laws = { λ rule. kind_is_unit_choice Losses };
}
