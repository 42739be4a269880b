ghost use Rattle.net_csv.specs.Printing.{bank_line, banks_text, banks_text_2, banks_text_in};
ghost use Rattle.net_csv.specs.Printing.{debt_line, debts_text, rule_word as word_of_rule};
ghost use Rattle.net_check.specs.declared.limits.Limits.{Limits};
ghost use Rattle.net_csv.specs.Reading.{network_within};
ghost use Rattle.std.specs.Prelude.{◌≡◌, ◌<◌, ◌++◌, ℕ, List, Ok, length, IfOk, OnOk};

use crate::layout::Version;
use clr_edge::line::{Line, push_field, push_number};
use clr_net::{Bank, BankId, Debt, DebtId, Mem, Network, RuleKind};
use std::alloc::Global;

/// The banks file of a network: its header, and a line for each bank, in file order. It is of
/// version 1 where no bank owes anything outside the network, and otherwise of version 2. Amounts
/// are in units. `Mem` is want of memory.
pub fn print_banks(alloc: Global, net: &Network) -> Result<Vec<u8>, Mem>
    ensures { IfOk result (λ text. text.items ≡ banks_text net.now) }
{
    if net.outside_total() == 0 {
        banks_file(alloc, net, Version::One)
    } else {
        banks_file(alloc, net, Version::Two)
    }
}

/// The banks file of a network in version 2, whatever its banks owe outside the network. `Mem` is
/// want of memory.
pub fn print_banks_2(alloc: Global, net: &Network) -> Result<Vec<u8>, Mem>
    ensures text { IfOk result (λ text. text.items ≡ banks_text_2 net.now) }

    // With the debts file that gave the network it gives the same network.
    ensures read_back { (by : Limits) (banks debts : List ℕ)
        → network_within by banks debts ≡ Ok net.now
        → IfOk result (λ text. network_within by text.items debts ≡ Ok net.now) }
{
    banks_file(alloc, net, Version::Two)
}

// The banks file of a network in a version.
fn banks_file(alloc: Global, net: &Network, version: Version) -> Result<Vec<u8>, Mem>
    ensures { IfOk result (λ text. text.items ≡ banks_text_in version net.now) }
{
    let mut text = match version {
        Version::One => Vec::from_slice(alloc, b"name,cash,rule\n")?,
        Version::Two => Vec::from_slice(alloc, b"name,cash,rule,outside\n")?,
    };
    for i in 0..net.banks() {
        push_bank(&mut text, version, net.bank(BankId(i)))?;
    }
    Ok(text)
}

/// The debts file of a network: its header, and a line for each debt, in file order. Claims are in
/// units. `Mem` is want of memory.
pub fn print_debts(alloc: Global, net: &Network) -> Result<Vec<u8>, Mem>
    ensures { IfOk result (λ text. text.items ≡ debts_text net.now) }
{
    let mut text = Vec::from_slice(alloc, b"debtor,creditor,class,claim\n")?;
    let mut line = Line::empty();
    for i in 0..net.debts() {
        push_debt(&mut text, &mut line, net, net.debt(DebtId(i)))?;
    }
    Ok(text)
}

// Appends the line of a bank.
fn push_bank(text: &mut Vec<u8>, version: Version, bank: &Bank) -> Result<(), Mem>
    ensures { OnOk result (text.new.items ≡ text.old.items ++ bank_line version bank.now) }
{
    push_field(text, bank.name.bytes(), b',')?;
    push_number(text, bank.cash, b',')?;
    let rule = rule_word(bank.rule).as_bytes();
    match version {
        Version::One => push_field(text, rule, b'\n'),
        Version::Two => {
            push_field(text, rule, b',')?;
            push_number(text, bank.outside, b'\n')
        }
    }
}

// Appends the line of a debt.
fn push_debt(text: &mut Vec<u8>, line: &mut Line, net: &Network, debt: Debt) -> Result<(), Mem>
    requires debtor { debt.debtor.0 < length net.now.banks }
    requires creditor { debt.creditor.0 < length net.now.banks }
    ensures { OnOk result (text.new.items ≡ text.old.items ++ debt_line net.now debt) }
{
    line.begin(debt.claim);
    line.add_number(u64::from(debt.class));
    line.add_name(&net.bank(debt.creditor).name);
    line.add_name(&net.bank(debt.debtor).name);
    text.extend_from_slice(line.bytes())?;
    Ok(())
}

// The word by which a file names a rule.
fn rule_word(rule: RuleKind) -> &'static str
    ensures { result.now ≡ word_of_rule rule }
{
    match rule {
        RuleKind::Order => "order",
        RuleKind::Equal => "equal",
        RuleKind::Losses => "losses",
        RuleKind::Jefferson => "jefferson",
        RuleKind::Webster => "webster",
        RuleKind::Adams => "adams",
    }
}
