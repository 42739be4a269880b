//! What the program does not call, for whoever calls the crate: the division of an estate unit by
//! unit, and whether payments clear. The program divides by levels, and asks for the first bank
//! that is not quiet.
ghost use Rattle.clear_core.specs.Buffers.{HasRoom};
ghost use Rattle.clear_core.specs.Clearing.{Clears};
ghost use Rattle.clear_core.specs.Quiet.{IsQuiet, IsWithinClaims};
ghost use Rattle.clr_net.specs.Division.{AreClasses, share as share_by_kind};
ghost use Rattle.clr_net.specs.declared.TheConstants.{MAX_CLAIM, MAX_CLASS, MAX_OWED};
ghost use Rattle.std.specs.Prelude.{◌≡◌, ◌≤◌, ◌↔◌, All, IsTrue, length, sum};

mod state;

use crate::quiet::first_unquiet;
use crate::scratch::Scratch;
use clr_net::{Network, RuleKind};
use rule_class::share;
use rule_divisor::Divisor;
use rule_kinds::{EqualRule, LossRule, OrderRule};
pub use state::State;

/// Divides an estate among the debts of a bank by a rule: writes for each debt, in file order, the
/// units that it gets.
///
/// `claims` and `estate` are in units. The debts of a lower class are paid in full before those of
/// a higher one get a unit, and the rule divides within a class. Takes no memory, and
/// walks over the row for each unit; `rule_level::share_by_level` answers the same.
pub fn share_of(kind: RuleKind, claims: &[u64], classes: &[u8], estate: u64, into: &mut [u64])
    requires a_class_each { length claims.now ≡ length classes.now }
    requires a_place_each { length into.old ≡ length claims.now }
    requires limit { All (λ claim. claim ≤ MAX_CLAIM) claims.now }
    requires total { sum claims.now ≤ MAX_OWED }
    requires classed { AreClasses classes.now 1 MAX_CLASS }
    ensures { into.new ≡ share_by_kind kind claims.now classes.now estate }
{
    match kind {
        RuleKind::Order => share(&OrderRule, claims, classes, estate, into),
        RuleKind::Equal => share(&EqualRule, claims, classes, estate, into),
        RuleKind::Losses => share(&LossRule, claims, classes, estate, into),
        RuleKind::Jefferson => share(&Divisor::Jefferson, claims, classes, estate, into),
        RuleKind::Webster => share(&Divisor::Webster, claims, classes, estate, into),
        RuleKind::Adams => share(&Divisor::Adams, claims, classes, estate, into),
    }
}

/// Whether each bank pays on each of its debts what its rule gives from its cash and from what it
/// receives, less what it owes outside the network, all by `paid`: whether the payments clear the
/// network.
///
/// `paid` has a place for each debt, in file order, in units. Takes no memory.
pub fn is_quiet(net: &Network, paid: &[u64], scratch: &mut Scratch) -> bool
    requires over { length paid.now ≡ length net.now.debts }
    requires within { IsWithinClaims net.now paid.now }
    requires room { HasRoom net.now scratch.old }
    ensures quiet { IsTrue result ↔ IsQuiet net.now paid.now }
    ensures clears { IsTrue result ↔ Clears net.now paid.now }
    ensures room { scratch.new ≡ scratch.old }
{
    first_unquiet(net, paid, scratch).is_none()
}
