ghost use Rattle.clr_net.specs.Division.{class_claims};
ghost use Rattle.clr_net.specs.declared.TheConstants.{MAX_OWED};
ghost use Rattle.rule_class.specs.ClassSet.{IsClassSet};
ghost use Rattle.rule_level.specs.Levels.{at_level, awards_above, level_awards, step_at};
ghost use Rattle.rule_level.specs.declared.TheConstants.{MAX_LEVEL};
ghost use Rattle.rule_unit.specs.declared.TheConstants.{MAX_CLAIM};
ghost use Rattle.std.specs.Prelude.{◌≡◌, ◌+◌, ◌<◌, ◌≤◌, All, length, sum};

use crate::MAX_LEVEL;
use clr_net::RuleKind;
use rule_unit::MAX_CLAIM;

// What a debt gets at a level.
pub fn award_at(kind: RuleKind, level: u64, claim: u64) -> u64
    requires level { level ≤ MAX_LEVEL }
    requires claim { claim ≤ MAX_CLAIM }
    ensures { result ≡ at_level kind level claim }
{
    match kind {
        RuleKind::Order => 0,
        RuleKind::Equal => claim.min(level),
        RuleKind::Losses => claim.saturating_sub(MAX_CLAIM.saturating_sub(level)),
        RuleKind::Jefferson => claim.min(level * claim / MAX_LEVEL),
        RuleKind::Webster => claim.min((2 * level * claim + MAX_LEVEL) / (2 * MAX_LEVEL)),
        RuleKind::Adams => claim.min((level * claim + (MAX_LEVEL - 1)) / MAX_LEVEL),
    }
}

// What a debt gets at the next level and not yet at this one.
#[tactic(auto, using(crate::proofs::Steps::level_rises))]
fn step_of(kind: RuleKind, level: u64, claim: u64) -> u64
    requires level { level < MAX_LEVEL }
    requires claim { claim ≤ MAX_CLAIM }
    ensures step { result ≡ step_at kind level claim }
    ensures small { at_level kind level claim + result ≤ claim }
{
    award_at(kind, level + 1, claim) - award_at(kind, level, claim)
}

// What these claims get together at a level.
pub fn units_at(kind: RuleKind, claims: &[u64], level: u64) -> u64
    requires limit { All (λ c. c ≤ MAX_CLAIM) claims.now }
    requires total { sum claims.now ≤ MAX_OWED }
    requires level { level ≤ MAX_LEVEL }
    ensures { result ≡ sum (level_awards kind level claims.now) }
{
    let mut units = 0;
    for place in 0..claims.len() {
        units += award_at(kind, level, claims[place]);
    }
    units
}

// Gives the debts of one class what they get at a level, and so many units of the next level: to
// the earliest of those that get one there.
pub fn set_awards(
    kind: RuleKind,
    claims: &[u64],
    classes: &[u8],
    class: u8,
    level: u64,
    above: u64,
    into: &mut [u64],
)
    requires a_class_each { length claims.now ≡ length classes.now }
    requires a_place_each { length into.old ≡ length claims.now }
    requires limit { All (λ c. c ≤ MAX_CLAIM) claims.now }
    requires level { level < MAX_LEVEL }
    requires first { 1 ≤ class }
    ensures { IsClassSet class classes.now
        (awards_above kind level above (class_claims class claims.now classes.now))
        into.old into.new }
{
    // Only the first debts get a unit of the next level.
    let mut left = above;
    let mut first = 0;
    while left > 0 && first < claims.len() {
        if classes[first] == class {
            let more = left.min(step_of(kind, level, claims[first]));
            into[first] = award_at(kind, level, claims[first]) + more;
            left -= more;
        }
        first += 1;
    }
    for debt in first..claims.len() {
        if classes[debt] == class {
            into[debt] = award_at(kind, level, claims[debt]);
        }
    }
}
