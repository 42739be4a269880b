//! Networks for the tests of other crates: small ones, which are the same plain data that worked
//! cases are about, and one that is large enough for a call that gives up early to be found out.
//!
//! No program calls this crate.
#![tactic(auto)]

mod large;
mod made;

ghost use Rattle.clr_net.specs.Net.{with_bank, with_debt};
ghost use Rattle.clr_net.specs.Samples.{bank, classed, debt, ruled};
ghost use Rattle.std.specs.Prelude.{◌≡◌, OnOk};

use clr_net::{
    Bank, BankId, Debt, MAX_BANKS, MAX_CASH, MAX_CLAIM, MAX_CLASS, MAX_DEBTS, MAX_OUTSIDE,
    MAX_OWED, Mem, Name, Network, RuleKind,
};
pub use made::{chain, ring, woven};
use std::alloc::Global;

/// Adds a bank that divides by the order rule and owes nothing outside. `Mem` also where it may not
/// be added.
pub fn add_bank(alloc: Global, net: &mut Network, name: &[u8], cash: u64) -> Result<(), Mem>
    ensures { OnOk result (net.new ≡ with_bank net.old (bank name.now cash)) }
{
    add_ruled(alloc, net, name, cash, RuleKind::Order, 0)
}

/// Adds a bank with a rule and an outside claim of its own. `Mem` also where it may not be added.
pub fn add_ruled(
    alloc: Global,
    net: &mut Network,
    name: &[u8],
    cash: u64,
    rule: RuleKind,
    outside: u64,
) -> Result<(), Mem>
    ensures { OnOk result (net.new ≡ with_bank net.old (ruled name.now cash rule outside)) }
{
    if net.banks() >= MAX_BANKS || net.bank_named(name).is_some() {
        return Err(Mem);
    }
    if cash > MAX_CASH || outside > MAX_OUTSIDE {
        return Err(Mem);
    }
    let Ok(name) = Name::of(alloc, name) else {
        return Err(Mem);
    };
    match net.add_bank(Bank {
        name,
        cash,
        rule,
        outside,
    }) {
        Ok(_) => Ok(()),
        Err(_) => Err(Mem),
    }
}

/// Adds a debt of class 1. `Mem` also where it may not be added.
pub fn add_debt(net: &mut Network, debtor: u32, creditor: u32, claim: u64) -> Result<(), Mem>
    ensures { OnOk result (net.new ≡ with_debt net.old (debt debtor creditor claim)) }
{
    add_classed(net, debtor, creditor, 1, claim)
}

/// Adds a debt of a class. `Mem` also where it may not be added.
pub fn add_classed(
    net: &mut Network,
    debtor: u32,
    creditor: u32,
    class: u8,
    claim: u64,
) -> Result<(), Mem>
    ensures { OnOk result (net.new ≡ with_debt net.old (classed debtor creditor class claim)) }
{
    let debt = Debt {
        debtor: BankId(debtor),
        creditor: BankId(creditor),
        class,
        claim,
    };
    if debtor == creditor || debtor >= net.banks() || creditor >= net.banks() {
        return Err(Mem);
    }
    if class < 1 || class > MAX_CLASS || claim > MAX_CLAIM {
        return Err(Mem);
    }
    if net.debts() >= MAX_DEBTS || net.owed() > MAX_OWED - claim {
        return Err(Mem);
    }
    if net.has_debt(debt.debtor, debt.creditor, class) {
        return Err(Mem);
    }
    net.add_debt(debt)?;
    Ok(())
}
