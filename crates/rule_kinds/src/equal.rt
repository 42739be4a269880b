ghost use Rattle.clr_net.specs.Division.{next_of};
ghost use Rattle.clr_net.specs.declared.rule.RuleKind.TheVariants.{Equal};
ghost use Rattle.clr_net.proofs.Award.{kind_is_unit_choice};

use rule_unit::UnitRule;

/// The rule `equal`: of the debts that are not paid in full, the one with the fewest units gets the
/// next.
#[derive(Clone, Copy, Debug)]
pub struct EqualRule;

impl UnitRule for EqualRule {
    ghost choice = { λ rule. next_of Equal };

    fn next(&self, claims: &[u64], awards: &[u64]) -> Option<usize> {
        let mut fewest: Option<usize> = None;
        for debt in 0..claims.len() {
            if awards[debt] < claims[debt] {
                fewest = match fewest {
                    Some(earlier) if awards[earlier] <= awards[debt] => Some(earlier),
                    _ => Some(debt),
                };
            }
        }
        fewest
    }

    ghost laws = { λ rule. kind_is_unit_choice Equal };
}
