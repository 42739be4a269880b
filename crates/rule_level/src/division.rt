ghost use Rattle.clr_net.specs.Division.{AreClasses, class_claims, next_of, share};
ghost use Rattle.rule_class.specs.Sharing.{cleared_class};
ghost use Rattle.rule_level.specs.Gathered.{IsClearedAbove};
ghost use Rattle.clr_net.specs.declared.TheConstants.{MAX_CLASS, MAX_OWED};
ghost use Rattle.clr_net.specs.declared.rule.RuleKind.TheVariants.{Order};
ghost use Rattle.rule_unit.specs.Units.{awards_after};
ghost use Rattle.rule_unit.specs.declared.TheConstants.{MAX_CLAIM};
ghost use Rattle.std.specs.Prelude.{◌≡◌, ◌≢◌, ◌≤◌, All, length, sum};

use crate::gathered::gather;
use crate::level::set_awards;
use crate::search::level_for;
use clr_net::RuleKind;
use rule_class::{class_total, last_class, share_in_order};

/// Divides an estate among the debts of a bank by a rule: writes for each debt, in file order, the
/// units that it gets.
///
/// `claims` and `estate` are in units. The debts of a lower class are paid in full before those of
/// a higher one get a unit, and the rule divides within a class. Takes no memory.
pub fn share_by_level(kind: RuleKind, claims: &[u64], classes: &[u8], estate: u64, into: &mut [u64])
    requires a_class_each { length claims.now ≡ length classes.now }
    requires a_place_each { length into.old ≡ length claims.now }
    requires limit { All (λ c. c ≤ MAX_CLAIM) claims.now }
    requires total { sum claims.now ≤ MAX_OWED }
    requires classed { AreClasses classes.now 1 MAX_CLASS }
    ensures { into.new ≡ share kind claims.now classes.now estate }
{
    match kind {
        RuleKind::Order => share_in_order(claims, classes, estate, into),
        _ => by_levels(kind, claims, classes, estate, into),
    }
}

// Each class gets what it claims up to the one at which the estate ends: that gets what is left, and
// those above it nothing.
fn by_levels(kind: RuleKind, claims: &[u64], classes: &[u8], estate: u64, into: &mut [u64])
    requires has_levels { kind ≢ Order }
    requires a_class_each { length claims.now ≡ length classes.now }
    requires a_place_each { length into.old ≡ length claims.now }
    requires limit { All (λ c. c ≤ MAX_CLAIM) claims.now }
    requires total { sum claims.now ≤ MAX_OWED }
    requires classed { AreClasses classes.now 1 MAX_CLASS }
    ensures { into.new ≡ share kind claims.now classes.now estate }
{
    let mut left = estate;
    for class in 1..last_class(classes) + 1 {
        let total = class_total(claims, classes, class);
        if left < total {
            end_in_class(kind, claims, classes, class, total, left, into);
            clear_above(classes, class, into);
            return;
        }
        left -= total;
    }
    into.copy_from_slice(claims);
}

// Every debt gets its claim, but those of one class, which claim `total`, get `left` together.
//
// The claims of the class are gathered in `into` while the level is looked for, so that a look goes
// over them alone.
fn end_in_class(
    kind: RuleKind,
    claims: &[u64],
    classes: &[u8],
    class: u8,
    total: u64,
    left: u64,
    into: &mut [u64],
)
    requires has_levels { kind ≢ Order }
    requires a_class_each { length claims.now ≡ length classes.now }
    requires a_place_each { length into.old ≡ length claims.now }
    requires limit { All (λ c. c ≤ MAX_CLAIM) claims.now }
    requires in_all { sum claims.now ≤ MAX_OWED }
    requires first { 1 ≤ class }
    requires claimed { total ≡ sum (class_claims class claims.now classes.now) }
    requires short { left ≤ total }
    ensures { into.new ≡ awards_after (next_of kind) claims.now
        (cleared_class class claims.now classes.now) left }
{
    let many = gather(claims, classes, class, into);
    let (level, units) = level_for(kind, &into[..many], total, left);
    into.copy_from_slice(claims);
    set_awards(kind, claims, classes, class, level, left - units, into);
}

// The debts of all classes above one get nothing.
fn clear_above(classes: &[u8], class: u8, into: &mut [u64])
    requires { length into.old ≡ length classes.now }
    ensures { IsClearedAbove class classes.now into.old into.new }
{
    for debt in 0..classes.len() {
        if classes[debt] > class {
            into[debt] = 0;
        }
    }
}
