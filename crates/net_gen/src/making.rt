ghost use Rattle.clr_net.specs.Limits.{IsNetwork};
ghost use Rattle.clr_net.specs.Net.{units_owed};
ghost use Rattle.clr_net.specs.declared.TheConstants.{MAX_CLAIM, MAX_CLASS, MAX_DEBTS, MAX_OWED};
ghost use Rattle.net_gen.specs.declared.TheConstants.{MOST_BANKS, MOST_TRIES};
ghost use Rattle.net_gen.specs.Generated.{after_tries, after_words, debt_from, generated, name_at};
ghost use Rattle.net_gen.specs.Generated.{rule_numbered, tried};
ghost use Rattle.std.specs.Prelude.{◌≡◌, ◌+◌, ◌*◌, ◌<◌, ◌≤◌, ℕ, [], IfOk, OnOk, length};

use clr_net::{Bank, BankId, Debt, Mem, Name, NameFault, Network, RuleKind};
use rand_core::utils::NextWord;
use rand_pcg::Lcg64Xsh32;
use std::alloc::Global;

/// The network that a seed makes, of so many banks and from so many tries at a debt.
///
/// `size` is 1 to [`MOST_BANKS`] and `tries` at most [`MOST_TRIES`]. A try is dropped where it has a bank owe
/// itself, or makes a debt of a debtor, creditor and class of which there is one. Cash is below
/// 2,000 units, claims are 1 to 500, classes 1 to 3, and no bank owes anything outside. `Mem` for
/// want of memory alone. Costs for each try a walk of the debtor's row or the creditor's column,
/// whichever is shorter.
pub fn generate(alloc: Global, seed: u64, size: u32, tries: u32) -> Result<Network, Mem>
    requires some_banks { 1 ≤ size }
    requires few_banks { size ≤ MOST_BANKS }
    requires few_tries { tries ≤ MOST_TRIES }
    ensures network { IfOk result (λ net. net ≡ generated seed size tries) }
    ensures lawful { IfOk result IsNetwork }
{
    let mut net = Network::empty(alloc);
    fill(alloc, seed, size, tries, &mut net)?;
    Ok(net)
}

// Adds the banks and the debts to a network without any.
fn fill(alloc: Global, seed: u64, size: u32, tries: u32, net: &mut Network) -> Result<(), Mem>
    requires some_banks { 1 ≤ size }
    requires few_banks { size ≤ MOST_BANKS }
    requires few_tries { tries ≤ MOST_TRIES }
    requires empty { net.old ≡ record { banks = []; debts = [] } }
    ensures { OnOk result (net.new ≡ generated seed size tries) }
{
    let mut words = Lcg64Xsh32::new(seed, 0);
    make_banks(alloc, seed, size, &mut words, net)?;
    make_debts(seed, size, tries, &mut words, net)
}

// Adds the banks to a network without any.
fn make_banks(
    alloc: Global,
    seed: u64,
    size: u32,
    words: &mut Lcg64Xsh32,
    net: &mut Network,
) -> Result<(), Mem>
    requires few_banks { size ≤ MOST_BANKS }
    requires words { words.old ≡ after_words seed 0 }
    requires empty { net.old ≡ record { banks = []; debts = [] } }
    ensures words { OnOk result (words.new ≡ after_words seed (2 * size)) }
    ensures net { OnOk result (net.new ≡ after_tries seed size 0) }
{
    for number in 0..size {
        let cash = u64::from(words.next_word() % 2000);
        let rule = rule_of(words.next_word() % 6);
        let bank = Bank {
            name: name_of(alloc, number)?,
            cash,
            rule,
            outside: 0,
        };
        if net.add_bank(bank).is_err() {
            return Err(Mem);
        }
    }
    Ok(())
}

// The name of the bank of a number.
fn name_of(alloc: Global, number: u32) -> Result<Name, Mem>
    requires { number < MOST_BANKS }
    ensures { IfOk result (λ name. name ≡ name_at number) }
{
    let text = format!(in alloc; "N{number}")?;
    match Name::of(alloc, text.as_bytes()) {
        Ok(name) => Ok(name),
        Err(NameFault::Bad) => unreachable!(),
        Err(NameFault::Mem) => Err(Mem),
    }
}

// The rule of a number below 6.
fn rule_of(number: u32) -> RuleKind
    ensures { result ≡ rule_numbered number }
{
    match number {
        0 => RuleKind::Order,
        1 => RuleKind::Equal,
        2 => RuleKind::Losses,
        3 => RuleKind::Jefferson,
        4 => RuleKind::Webster,
        _ => RuleKind::Adams,
    }
}

// Tries so many debts.
fn make_debts(
    seed: u64,
    size: u32,
    tries: u32,
    words: &mut Lcg64Xsh32,
    net: &mut Network,
) -> Result<(), Mem>
    requires some_banks { 1 ≤ size }
    requires few_banks { size ≤ MOST_BANKS }
    requires few_tries { tries ≤ MOST_TRIES }
    requires words { words.old ≡ after_words seed (2 * size) }
    requires net { net.old ≡ after_tries seed size 0 }
    ensures { OnOk result (net.new ≡ after_tries seed size tries) }
{
    for _ in 0..tries {
        let debt = draw_debt(size, words);
        try_debt(net, debt)?;
    }
    Ok(())
}

// The debt that the next four words make.
fn draw_debt(size: u32, words: &mut Lcg64Xsh32) -> Debt
    requires { 1 ≤ size }
    ensures { (seed n : ℕ) → words.old ≡ after_words seed n
        → (result ≡ debt_from seed size n) × (words.new ≡ after_words seed (n + 4)) }
{
    let debtor = BankId(words.next_word() % size);
    let creditor = BankId(words.next_word() % size);
    let class = 1 + (words.next_word() % 3) as u8;
    let claim = 1 + u64::from(words.next_word() % 500);
    Debt {
        debtor,
        creditor,
        class,
        claim,
    }
}

// Adds a debt, unless it is to be dropped.
fn try_debt(net: &mut Network, debt: Debt) -> Result<(), Mem>
    requires debtor { debt.debtor.0 < length net.old.banks }
    requires creditor { debt.creditor.0 < length net.old.banks }
    requires class { (1 ≤ debt.class) × (debt.class ≤ MAX_CLASS) }
    requires claim { debt.claim ≤ MAX_CLAIM }
    requires few_debts { length net.old.debts < MAX_DEBTS }
    requires few_units { units_owed net.old + debt.claim ≤ MAX_OWED }
    ensures { OnOk result (net.new ≡ tried net.old debt) }
{
    if debt.debtor != debt.creditor && !net.has_debt(debt.debtor, debt.creditor, debt.class) {
        net.add_debt(debt)?;
    }
    Ok(())
}
