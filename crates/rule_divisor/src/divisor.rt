ghost use Rattle.clr_net.specs.Division.{goes_before as goes_first, next_of};
ghost use Rattle.rule_divisor.specs.Kind.{kind_of, divisor_of};
ghost use Rattle.clr_net.proofs.Award.{kind_is_unit_choice};
ghost use Rattle.rule_unit.specs.declared.TheConstants.{MAX_CLAIM};
ghost use Rattle.std.specs.Prelude.{◌≡◌, ◌≤◌};

use rule_unit::UnitRule;

/// What a claim is divided by, once its debt has `k` units. The debt with the greatest quotient
/// gets the next unit.
#[derive(Clone, Copy, Debug, PartialEq, Eq)]
pub enum Divisor {
    /// The greatest divisors, `k + 1`.
    Jefferson,
    /// The divisors `2k + 1`.
    Webster,
    /// The smallest divisors, `k`: the quotient of a debt without units is the greatest of all.
    Adams,
}

impl Divisor {
    // What the claim of a debt with so many units is divided by.
    fn after(self, units: u64) -> u128
        requires { units ≤ MAX_CLAIM }
        ensures { result ≡ divisor_of self units }
    {
        let units = u128::from(units);
        match self {
            Divisor::Jefferson => units + 1,
            Divisor::Webster => 2 * units + 1,
            Divisor::Adams => units,
        }
    }

    // Whether a debt goes before an earlier one: whether its quotient is greater.
    fn goes_before(self, claim: u64, units: u64, earlier_claim: u64, earlier_units: u64) -> bool
        requires { (claim ≤ MAX_CLAIM) × (earlier_claim ≤ MAX_CLAIM)
            × (units ≤ claim) × (earlier_units ≤ earlier_claim) }
        ensures { result ≡ goes_first (kind_of self) claim units earlier_claim earlier_units }
    {
        u128::from(earlier_claim) * self.after(units)
            < u128::from(claim) * self.after(earlier_units)
    }
}

impl UnitRule for Divisor {
    ghost choice = { λ divisor. next_of (kind_of divisor) };

    fn next(&self, claims: &[u64], awards: &[u64]) -> Option<usize> {
        let mut best: Option<usize> = None;
        for debt in 0..claims.len() {
            if awards[debt] < claims[debt] {
                best = match best {
                    None => Some(debt),
                    Some(earlier) => {
                        if self.goes_before(
                            claims[debt],
                            awards[debt],
                            claims[earlier],
                            awards[earlier],
                        ) {
                            Some(debt)
                        } else {
                            Some(earlier)
                        }
                    }
                };
            }
        }
        best
    }

    ghost laws = { λ divisor. kind_is_unit_choice (kind_of divisor) };
}
