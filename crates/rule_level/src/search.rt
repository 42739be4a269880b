// The search for the level at which the units for some claims end.
ghost use Rattle.clr_net.specs.declared.rule.RuleKind.TheVariants.{Order};
ghost use Rattle.clr_net.specs.declared.TheConstants.{MAX_OWED};
ghost use Rattle.rule_level.specs.Levels.{at_level, level_awards};
ghost use Rattle.rule_level.specs.declared.TheConstants.{MAX_LEVEL};
ghost use Rattle.rule_unit.specs.declared.TheConstants.{MAX_CLAIM};
ghost use Rattle.std.specs.Prelude.{◌≡◌, ◌≢◌, ◌+◌, ◌-◌, ◌/◌, ◌%◌, ◌<◌, ◌≤◌, ℕ, All, length};
ghost use Rattle.std.specs.Prelude.{slice_index, sum};

use crate::MAX_LEVEL;
use crate::level::{award_at, units_at};
use clr_net::RuleKind;
use rule_unit::MAX_CLAIM;

// Every ninth look halves what is left of the levels. They are fewer than 2 ^ 41, so that after 41
// halvings the end is found.
const MAX_LOOKS: u32 = 9 * 41;

// The greatest claim, or 0.
fn greatest_claim(claims: &[u64]) -> u64
    requires limit { All (λ c. c ≤ MAX_CLAIM) claims.now }
    ensures greatest { (k : ℕ) → slice_index claims.now k ≤ result }
    ensures limit { result ≤ MAX_CLAIM }
{
    let mut greatest = 0;
    for place in 0..claims.len() {
        if claims[place] > greatest {
            greatest = claims[place];
        }
    }
    greatest
}

// Two levels: at the first no claim up to the greatest gets a unit, at the second each is met.
fn levels_around(kind: RuleKind, greatest: u64) -> (u64, u64)
    requires has_levels { kind ≢ Order }
    requires limit { greatest ≤ MAX_CLAIM }
    ensures none { (c : ℕ) → c ≤ greatest → at_level kind result.0 c ≡ 0 }
    ensures met { (c : ℕ) → c ≤ greatest → c ≤ at_level kind result.1 c }
    ensures in_order { (result.0 ≤ result.1) × (result.0 < MAX_LEVEL) × (result.1 ≤ MAX_LEVEL) }
{
    match kind {
        RuleKind::Order => (0, 0),
        RuleKind::Equal => (0, greatest),
        RuleKind::Losses => (MAX_CLAIM - greatest, MAX_CLAIM),
        RuleKind::Jefferson | RuleKind::Webster | RuleKind::Adams => (0, MAX_LEVEL),
    }
}

// A level between two others: as far from the first as some units are from none, on the way to all
// of those below and above; but next to an end at most.
fn level_between(low: u64, high: u64, below: u64, above: u64) -> u64
    requires { low + 1 < high }
    ensures { (low < result) × (result < high) }
{
    let width = high - low;
    let all = below.saturating_add(above).max(1);
    // Half of the greatest width times 18,000,000 units is within 64 bits. Of more units the level
    // is nearer to the first, and still between.
    let far = ((width / 2).saturating_mul(below) / all).saturating_mul(2);
    low + far.min(width - 1).max(1)
}

// What is aimed at first for some units of so many claims: what a rule rounds off or up is half a
// unit for each claim on average.
fn first_aim(kind: RuleKind, claims: usize, units: u64) -> u64 {
    match kind {
        RuleKind::Jefferson => units.saturating_add(claims as u64 / 2),
        RuleKind::Adams => units.saturating_sub(claims as u64 / 2),
        _ => units,
    }
}

// By a divisor, the level at which a claim gets one unit more than these.
fn level_of_next(kind: RuleKind, claim: u64, units: u64) -> u64
    requires limit { claim ≤ MAX_CLAIM }
    requires more { units < claim }
{
    match kind {
        RuleKind::Order | RuleKind::Equal | RuleKind::Losses => 0,
        RuleKind::Jefferson => ((units + 1) * MAX_LEVEL).div_ceil(claim),
        RuleKind::Webster => ((2 * units + 1) * MAX_LEVEL).div_ceil(2 * claim),
        RuleKind::Adams => units * MAX_LEVEL / claim + 1,
    }
}

// A level between two others: by a divisor one at which some claim gets a unit more, if there is
// one. Else the level in the middle.
fn step_between(kind: RuleKind, claims: &[u64], low: u64, high: u64) -> u64
    requires limit { All (λ c. c ≤ MAX_CLAIM) claims.now }
    requires between { low + 1 < high }
    requires top { high ≤ MAX_LEVEL }
    ensures { (low < result) × (result < high) }
{
    for place in 0..claims.len() {
        let claim = claims[place];
        let units = award_at(kind, low, claim);
        if units < award_at(kind, high, claim) {
            let level = level_of_next(kind, claim, units);
            if low < level && level < high {
                return level;
            }
        }
    }
    low + (high - low) / 2
}

// Some units, or half of them.
fn half_if(half: bool, units: u64) -> u64 {
    if half { units / 2 } else { units }
}

// The level that is looked at next, of those between two others. Each ninth is the middle.
fn next_level(
    look: u32,
    kind: RuleKind,
    claims: &[u64],
    low: u64,
    high: u64,
    below: u64,
    above: u64,
) -> u64
    requires limit { All (λ c. c ≤ MAX_CLAIM) claims.now }
    requires between { low + 1 < high }
    requires top { high ≤ MAX_LEVEL }
    ensures between { (low < result) × (result < high) }
    ensures middle { look % 9 ≡ 8 → result ≡ low + (high - low) / 2 }
{
    match look % 9 {
        6 => step_between(kind, claims, low, high),
        7 => high - 1,
        8 => low + (high - low) / 2,
        _ => level_between(low, high, below, above),
    }
}

// The level at which the units for these claims end: at it the debts get no more than these, and at
// the next no less. `total` is what they claim. Answers too what they get at it.
//
// Of nine levels that are looked at, six are as far from the lowest that is left as the units are
// between what is given there and at the highest, where an end that stays counts half (regula falsi
// by Illinois); one is where a claim gets a unit more, one is just below the highest, and one halves
// what is left, so that no more than `MAX_LOOKS` are made. Where the debts get just these units at a
// level, the search ends there.
pub fn level_for(kind: RuleKind, claims: &[u64], total: u64, units: u64) -> (u64, u64)
    requires has_levels { kind ≢ Order }
    requires limit { All (λ c. c ≤ MAX_CLAIM) claims.now }
    requires total { sum claims.now ≤ MAX_OWED }
    requires claimed { total ≡ sum claims.now }
    requires short { units ≤ total }
    ensures level { result.0 < MAX_LEVEL }
    ensures given { result.1 ≡ sum (level_awards kind result.0 claims.now) }
    ensures low { result.1 ≤ units }
    ensures high { units ≤ sum (level_awards kind (result.0 + 1) claims.now) }
{
    let (mut low, top) = levels_around(kind, greatest_claim(claims));
    let mut high = if units == 0 { low } else { top };
    let mut at_low = 0;
    let mut below = first_aim(kind, claims.len(), units);
    let mut above = total - units;
    let mut rose = false;
    for look in 0..MAX_LOOKS {
        if low + 1 >= high {
            break;
        }
        let middle = next_level(look, kind, claims, low, high, below, above);
        let given = units_at(kind, claims, middle);
        if given <= units {
            low = middle;
            at_low = given;
            below = units - given;
            above = half_if(rose, above);
        }
        if units <= given {
            high = middle;
            below = half_if(!rose, below);
            above = given - units;
        }
        rose = given <= units;
    }
    (low, at_low)
}
