use crate::rows::{Row, SHARES, by_units, classed, within};
use clr_net::RuleKind;
use rule_level::share_by_level;

const KINDS: &[RuleKind] = &[
    RuleKind::Order,
    RuleKind::Equal,
    RuleKind::Losses,
    RuleKind::Jefferson,
    RuleKind::Webster,
    RuleKind::Adams,
];

const FIRST: [u8; 3] = [1, 1, 1];

// Claims and classes of three debts, and estates at which both divisions are tried.
const TRIED: &[([u64; 3], [u8; 3], [u64; 4])] = &[
    // Quotients that are equal by each of the divisors.
    ([6, 3, 1], FIRST, [2, 5, 8, 9]),
    ([9, 3, 15], FIRST, [1, 4, 13, 26]),
    ([500, 1_000, 250], FIRST, [6, 874, 875, 876]),
    // Claims that are all the same, also where more is there than all of them.
    ([3, 3, 3], FIRST, [1, 5, 7, u64::MAX]),
    ([700, 700, 700], FIRST, [1_051, 2_099, 2_100, 2_101]),
    // The smallest claims and the greatest, of which few units are given out.
    ([0, 1, 1_000_000], FIRST, [3, 4, 500, 2_001]),
    ([0, 1, 9_000], FIRST, [3, 9_000, 9_001, 9_002]),
    ([999_999, 1_000_000, 1], FIRST, [0, 5, 11, 2_001]),
    ([0, 0, 0], FIRST, [0, 1, 2, 3]),
    // Several classes.
    ([4, 5, 5], [1, 2, 2], [3, 4, 9, 13]),
    ([40, 50, 60], [9, 1, 9], [49, 97, 149, 150]),
];

// Large claims, and what they get.
const LARGE: &[(Row, [u64; 3])] = &[
    (
        (RuleKind::Equal, [1_000_000; 3], FIRST, 1_500_001),
        [500_001, 500_000, 500_000],
    ),
    (
        (
            RuleKind::Losses,
            [1_000_000, 400_000, 100_000],
            FIRST,
            1_000_000,
        ),
        [800_000, 200_000, 0],
    ),
    (
        (
            RuleKind::Jefferson,
            [900_000, 600_000, 300_000],
            FIRST,
            1_200_001,
        ),
        [600_001, 400_000, 200_000],
    ),
    // All but one unit, and more than all.
    (
        (RuleKind::Losses, [0, 1, 1_000_000], FIRST, 1_000_000),
        [0, 1, 999_999],
    ),
    (
        (RuleKind::Jefferson, [0, 1, 1_000_000], FIRST, 1_000_000),
        [0, 1, 999_999],
    ),
    (
        (RuleKind::Adams, [0, 1, 1_000_000], FIRST, 1_000_000),
        [0, 1, 999_999],
    ),
    (
        (RuleKind::Webster, [999_999, 1_000_000, 1], FIRST, u64::MAX),
        [999_999, 1_000_000, 1],
    ),
];

// What three debts get of an estate, by levels.
fn by_level(row: Row) -> [u64; 3] {
    let (kind, claims, classes, estate) = row;
    let mut into = [9; 3];
    share_by_level(kind, &within(claims), &classed(classes), estate, &mut into);
    into
}

// Whether the two divisions of an estate are the same by each rule.
fn agree(claims: [u64; 3], classes: [u8; 3], estate: u64) -> bool {
    for kind in KINDS {
        let row = (*kind, claims, classes, estate);
        if by_level(row) != by_units(row) {
            return false;
        }
    }
    true
}

#[test]
fn levels_and_single_units_agree(rt: HostRuntime) {
    for (claims, classes, estates) in TRIED {
        for estate in estates {
            assert!(rt;
                agree(*claims, *classes, *estate),
                "{claims:?} {classes:?} {estate}"
            );
        }
    }
}

#[test]
fn ties_go_to_the_earliest_among_large_claims_too(rt: HostRuntime) {
    for (row, awards) in SHARES.iter().chain(LARGE) {
        assert!(rt; by_level(*row) == *awards, "{awards:?}");
    }
}

// Unit by unit these divisions would take more than fifteen thousand million steps.
#[test]
fn ten_thousand_divisions_end_soon(rt: HostRuntime) {
    for estate in 1_500_000..1_510_000u64 {
        let awards = by_level((RuleKind::Equal, [1_000_000; 3], FIRST, estate));
        assert_eq!(rt; awards[0], (estate + 2) / 3);
    }
}

// What the debts of a long row get, of 1,000 units each.
fn divide_long_row(kind: RuleKind, estate: u64) -> [u64; 8_991] {
    let mut awards = [9; 8_991];
    share_by_level(kind, &[1_000; 8_991], &[1; 8_991], estate, &mut awards);
    awards
}

// At the level thousands of units are left over; one by one, each for a walk over the row, they
// would take long.
#[test]
fn long_row_is_divided_soon(rt: HostRuntime) {
    let kinds = [
        RuleKind::Equal,
        RuleKind::Losses,
        RuleKind::Jefferson,
        RuleKind::Webster,
        RuleKind::Adams,
    ];
    for kind in kinds {
        let awards = divide_long_row(kind, 4_495_500 + 6_000);
        assert_eq!(rt;
            [awards[0], awards[5_999], awards[6_000], awards[8_990]],
            [501, 501, 500, 500]
        );
        let awards = divide_long_row(kind, 8_990_999);
        assert_eq!(rt;
            [awards[0], awards[8_989], awards[8_990]],
            [1_000, 1_000, 999]
        );
    }
}
