use crate::rows::within;
use rule_kinds::{EqualRule, LossRule, OrderRule};
use rule_unit::{UnitRule, award_more};

// Whether three debts get so much of an estate, unit by unit, and so many units are left.
fn awards<R: UnitRule>(rule: &R, claims: [u64; 3], estate: u64, wanted: ([u64; 3], u64)) -> bool {
    let mut awards = [0; 3];
    let left = award_more(rule, &within(claims), &mut awards, estate);
    (awards, left) == wanted
}

#[test]
fn an_estate_is_given_out_by_each_rule(rt: HostRuntime) {
    assert!(rt; awards(&OrderRule, [6, 3, 1], 8, ([6, 2, 0], 0)));
    // At a tie the earliest debt gets the odd unit.
    assert!(rt; awards(&EqualRule, [3, 3, 3], 5, ([2, 2, 1], 0)));
    assert!(rt; awards(&EqualRule, [1, 5, 5], 8, ([1, 4, 3], 0)));
    // The fourth unit is a tie.
    assert!(rt; awards(&LossRule, [6, 3, 1], 5, ([4, 1, 0], 0)));
    assert!(rt; awards(&LossRule, [6, 3, 1], 12, ([6, 3, 1], 2)));
}
