ghost use Rattle.rule_unit.specs.declared.TheConstants.{MAX_CLAIM};
ghost use Rattle.rule_unit.specs.Awards.{IsWithin};
ghost use Rattle.rule_unit.specs.Units.{awards_after, units_left};
ghost use Rattle.std.specs.Prelude.{◌≡◌, ◌+◌, ◌≤◌, All, sum};

use crate::rule::UnitRule;

/// Gives out `units` one by one, each to the debt that the rule chooses next, and answers how many
/// were left when all debts were paid in full.
pub fn award_more<R: UnitRule>(rule: &R, claims: &[u64], awards: &mut [u64], units: u64) -> u64
    requires within { IsWithin claims.now awards.old }
    requires limit { All (λ c. c ≤ MAX_CLAIM) claims.now }
    ensures given_out { awards.new ≡ awards_after (R.choice rule.now) claims.now awards.old units }
    ensures left { result ≡ units_left claims.now awards.old units }
    ensures none_lost { sum awards.new + result ≡ sum awards.old + units }
    ensures still_within { IsWithin claims.now awards.new }
{
    for given in 0..units {
        match rule.next(claims, awards) {
            Some(debt) => awards[debt] += 1,
            None => return units - given,
        }
    }
    0
}
