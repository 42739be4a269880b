ghost use Rattle.clr_net.specs.Limits.{IsNewBank};
ghost use Rattle.clr_net.specs.Net.{has_name};
ghost use Rattle.clr_net.specs.declared.TheConstants.{MAX_BANKS};
ghost use Rattle.clr_net.specs.declared.bank.Bank.{Bank};
ghost use Rattle.clr_net.specs.declared.rule.RuleKind.{RuleKind};
ghost use Rattle.net_check.specs.Field.{trimmed_field};
ghost use Rattle.net_check.specs.Record.{as_bank, in_row, new_bank, outside_in};
ghost use Rattle.net_check.specs.declared.fault.Fault.{Fault};
ghost use Rattle.net_check.specs.declared.fault.FileKind.TheVariants as file;
ghost use Rattle.std.specs.List.{list_any};
ghost use Rattle.std.specs.Option.{option_map};
ghost use Rattle.std.specs.Result.{result_map_both};
ghost use Rattle.std.specs.Prelude.{◌≡◌, ◌<◌, ◌↔◌, length, IfOk, IsErrOf};

use crate::fault::{Fault, FaultKind, FileKind, ReadNet};
use crate::field::{number_up_to, rule, trimmed};
use clr_net::{Bank, MAX_CASH, MAX_OUTSIDE, Name, Network, RuleKind};
use std::alloc::Global;

/// The bank of a record with these fields, which may then be added to the network, or the first
/// fault of the record. Without a field for what the bank owes outside the network it owes nothing
/// there.
///
/// Spaces and tabs at the ends of the fields are dropped. `Refused` comes exactly where there is a
/// fault, `Mem` only where there is none.
pub fn check_bank(
    alloc: Global,
    net: &Network,
    row: u32,
    name: &[u8],
    cash: &[u8],
    rule: &[u8],
    outside: Option<&[u8]>,
) -> Result<Bank, ReadNet>
    requires { length net.now.banks < MAX_BANKS }
    ensures ok { let last = option_map (λ f. trimmed_field f.now) outside.entry in
        let bank = new_bank net.now (trimmed_field name.now) (trimmed_field cash.now)
        (trimmed_field rule.now) last in
        IfOk result (λ b. bank ≡ Ok b) }
    ensures refused { let last = option_map (λ f. trimmed_field f.now) outside.entry in
        let bank = new_bank net.now (trimmed_field name.now) (trimmed_field cash.now)
        (trimmed_field rule.now) last in
        (f : Fault) → IsErrOf result (ReadNet.Refused f) ↔ (in_row file.Banks row bank ≡ Err f) }
    ensures new { IfOk result (λ b. IsNewBank net.now b) }
{
    let name = trimmed(name);
    let outside = outside.map(trimmed);
    match amounts(net, name, trimmed(cash), trimmed(rule), outside) {
        Ok((cash, rule, outside)) => match Name::of(alloc, name) {
            Ok(name) => Ok(Bank {
                name,
                cash,
                rule,
                outside,
            }),
            Err(_) => Err(ReadNet::Mem),
        },
        Err(kind) => Err(ReadNet::Refused(Fault {
            file: FileKind::Banks,
            row,
            kind,
        })),
    }
}

// The cash and the rule of the bank of a record and what it owes outside, or the record's first
// fault.
fn amounts(
    net: &Network,
    name: &[u8],
    cash: &[u8],
    rule_word: &[u8],
    outside: Option<&[u8]>,
) -> Result<(u64, RuleKind, u64), FaultKind>
    ensures { let last = option_map (λ f. f.now) outside.entry in
        result_map_both (as_bank name.now) (λ k. k) result
        ≡ new_bank net.now name.now cash.now rule_word.now last }
{
    if !Name::accepts(name) {
        return Err(FaultKind::Name);
    }
    if is_taken(net, name) {
        return Err(FaultKind::DoubleBank);
    }
    let cash = number_up_to(MAX_CASH, cash)?;
    let rule = rule(rule_word).ok_or(FaultKind::Rule)?;
    let outside = owed_outside(outside)?;
    Ok((cash, rule, outside))
}

// What a bank owes outside the network: nothing, where its record has no field for it.
fn owed_outside(field: Option<&[u8]>) -> Result<u64, FaultKind>
    ensures { result ≡ outside_in (option_map (λ f. f.now) field.entry) }
{
    match field {
        Some(field) => number_up_to(MAX_OUTSIDE, field),
        None => Ok(0),
    }
}

// Whether a bank of this name came before.
fn is_taken(net: &Network, name: &[u8]) -> bool
    ensures { result ≡ list_any (has_name name.now) net.now.banks }
{
    net.bank_named(name).is_some()
}
