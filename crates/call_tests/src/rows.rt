//! Rows of three debts, for the tests of divisions.
ghost use Rattle.clr_net.specs.Division.{AreClasses};
ghost use Rattle.clr_net.specs.declared.TheConstants.{MAX_CLASS, MAX_OWED};
ghost use Rattle.rule_unit.specs.declared.TheConstants.{MAX_CLAIM};
ghost use Rattle.std.specs.Prelude.{◌≤◌, All, sum};

use clear_core::share_of;
use clr_net::{MAX_CLAIM, MAX_CLASS, RuleKind};

/// Three debts with the estate that they divide by a rule: the rule, the claims, the classes and the
/// estate.
pub type Row = (RuleKind, [u64; 3], [u8; 3], u64);

/// Estates and what the debts get of them. At a tie the earliest debt gets the unit, and a lower
/// class is paid in full first.
pub const SHARES: &[(Row, [u64; 3])] = &[
    ((RuleKind::Order, [6, 3, 1], [1, 1, 1], 7), [6, 1, 0]),
    ((RuleKind::Order, [6, 3, 1], [1, 1, 1], 8), [6, 2, 0]),
    ((RuleKind::Equal, [3, 3, 3], [1, 1, 1], 5), [2, 2, 1]),
    ((RuleKind::Equal, [1, 5, 5], [1, 1, 1], 8), [1, 4, 3]),
    ((RuleKind::Losses, [6, 3, 1], [1, 1, 1], 5), [4, 1, 0]),
    ((RuleKind::Jefferson, [6, 3, 1], [1, 1, 1], 5), [4, 1, 0]),
    ((RuleKind::Webster, [6, 3, 1], [1, 1, 1], 5), [3, 2, 0]),
    ((RuleKind::Adams, [6, 3, 1], [1, 1, 1], 5), [3, 1, 1]),
    ((RuleKind::Equal, [4, 5, 5], [1, 2, 2], 9), [4, 3, 2]),
];

/// These claims, each at most [`MAX_CLAIM`].
pub fn within(claims: [u64; 3]) -> [u64; 3]
    ensures limit { All (λ claim. claim ≤ MAX_CLAIM) result }
    ensures total { sum result ≤ MAX_OWED }
{
    let [first, second, third] = claims;
    [
        first.min(MAX_CLAIM),
        second.min(MAX_CLAIM),
        third.min(MAX_CLAIM),
    ]
}

/// These classes, each from 1 to [`MAX_CLASS`].
pub fn classed(classes: [u8; 3]) -> [u8; 3]
    ensures { AreClasses result 1 MAX_CLASS }
{
    let [first, second, third] = classes;
    [
        first.clamp(1, MAX_CLASS),
        second.clamp(1, MAX_CLASS),
        third.clamp(1, MAX_CLASS),
    ]
}

/// What the debts get by the plain division, unit by unit.
pub fn by_units(row: Row) -> [u64; 3] {
    let (kind, claims, classes, estate) = row;
    let mut into = [9; 3];
    share_of(kind, &within(claims), &classed(classes), estate, &mut into);
    into
}
