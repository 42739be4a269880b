ghost use Rattle.clr_net.specs.Division.{AreClasses, class_claims};
ghost use Rattle.rule_class.specs.Sharing.{cleared_class};
ghost use Rattle.clr_net.specs.declared.TheConstants.{MAX_CLASS, MAX_OWED};
ghost use Rattle.clr_net.specs.Division.{share_by};
ghost use Rattle.rule_unit.specs.Awards.{IsWithin};
ghost use Rattle.rule_unit.specs.Units.{awards_after};
ghost use Rattle.rule_unit.specs.declared.TheConstants.{MAX_CLAIM};
ghost use Rattle.std.specs.Prelude.{◌≡◌, ◌<◌, ◌≤◌, All, length, min, sum};

use clr_net::MAX_CLASS;
use rule_unit::{UnitRule, award_more};

/// Divides an estate among the debts of a bank, in whole units, and writes over `into` what each
/// debt gets.
///
/// A place in each list is a debt, in file order. Each class, from the first on, gets as much as it
/// claims and there is left, given out within the class unit by unit, each to the debt that the
/// rule chooses.
pub fn share<R: UnitRule>(rule: &R, claims: &[u64], classes: &[u8], estate: u64, into: &mut [u64])
    requires a_class_each { length claims.now ≡ length classes.now }
    requires a_place_each { length into.old ≡ length claims.now }
    requires limit { All (λ c. c ≤ MAX_CLAIM) claims.now }
    requires total { sum claims.now ≤ MAX_OWED }
    requires classed { AreClasses classes.now 1 MAX_CLASS }
    ensures { into.new ≡ share_by (R.choice rule.now) claims.now classes.now estate }
{
    into.copy_from_slice(claims);
    let mut left = estate;
    for class in 1..MAX_CLASS + 1 {
        left -= one_class(rule, claims, classes, class, left, into);
    }
}

// The turn of one class: its debts lose what they had, and are given as much of `left` as they
// claim. Answers how much.
fn one_class<R: UnitRule>(
    rule: &R,
    claims: &[u64],
    classes: &[u8],
    class: u8,
    left: u64,
    into: &mut [u64],
) -> u64
    requires a_class_each { length claims.now ≡ length classes.now }
    requires within { IsWithin claims.now into.old }
    requires limit { All (λ c. c ≤ MAX_CLAIM) claims.now }
    requires total { sum claims.now ≤ MAX_OWED }
    requires first { 1 ≤ class }
    ensures given_out { into.new ≡ awards_after (R.choice rule.now) claims.now
        (cleared_class class into.old classes.now) result }
    ensures given { result ≡ min (sum (class_claims class claims.now classes.now)) left }
    ensures still_within { IsWithin claims.now into.new }
{
    let given = class_total(claims, classes, class).min(left);
    clear_class(into, classes, class);
    award_more(rule, claims, into, given);
    given
}

/// What the debts of one class claim together, in units.
pub fn class_total(claims: &[u64], classes: &[u8], class: u8) -> u64
    requires a_class_each { length claims.now ≡ length classes.now }
    requires total { sum claims.now ≤ MAX_OWED }
    ensures { result ≡ sum (class_claims class claims.now classes.now) }
{
    let mut total = 0;
    for debt in 0..claims.len() {
        if classes[debt] == class {
            total += claims[debt];
        }
    }
    total
}

// Sets the places of one class to 0.
fn clear_class(into: &mut [u64], classes: &[u8], class: u8)
    requires { length into.old ≡ length classes.now }
    ensures { into.new ≡ cleared_class class into.old classes.now }
{
    for debt in 0..classes.len() {
        if classes[debt] == class {
            into[debt] = 0;
        }
    }
}
