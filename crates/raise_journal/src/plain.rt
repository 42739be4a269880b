//! What the program does not call, for whoever calls the crate: a journal read by the standard limits,
//! its text as one list, and the plain way to replay it. The program is told the limits, prints a
//! journal part by part, and divides a row once for all raises of a visit.
ghost use Rattle.clear_core.specs.Buffers.{HasRoom};
ghost use Rattle.net_check.specs.Record.{fault_at};
ghost use Rattle.net_check.specs.Within.{file_limit};
ghost use Rattle.net_check.specs.declared.TheConstants.{MAX_DIGITS};
ghost use Rattle.net_check.specs.declared.fault.Fault.{Fault};
ghost use Rattle.net_check.specs.declared.fault.FaultKind.TheVariants as kind;
ghost use Rattle.net_check.specs.declared.fault.FileKind.TheVariants as file;
ghost use Rattle.net_check.specs.declared.limits.Limits.{Limits};
ghost use Rattle.net_check.specs.declared.limits.Limits.TheVariants as limits;
ghost use Rattle.net_csv.specs.Printing.{KeepsNames};
ghost use Rattle.raise_journal.specs.ReadBack.{IsInLimits};
ghost use Rattle.raise_journal.specs.ReadJournal.{journal_of, journal_within};
ghost use Rattle.raise_journal.specs.Texts.{journal_text, raise_line, rounds_line};
ghost use Rattle.raise_journal.specs.Verdicts.{IsVerdict};
ghost use Rattle.std.specs.Fmt.{decimal};
ghost use Rattle.std.specs.Prelude.{◌≡◌, ◌<◌, ◌≤◌, ◌^◌, ◌++◌, ℕ, Ok, Err, All, IfOk, IsErrOf};
ghost use Rattle.std.specs.Prelude.{length};

use crate::dividing::Dividing;
use crate::printing::{journal_head, lay_raise};
use crate::reading::read_journal_within;
use crate::replaying::judge;
use crate::verdict::Verdict;
use clear_core::{Journal, Raise, Scratch};
use clr_edge::line::Line;
use clr_net::{Mem, Network};
use net_check::{Limits, ReadNet};
use std::alloc::Global;

/// Reads a journal of raises on the debts of a network by the standard limits: amounts in units,
/// and each debt by the names of its banks and its class.
///
/// `Refused` names the first fault of the file, in the order of its records: a file too long, a
/// header that is another, a record of another number of fields, a raise too many, or a field that
/// is no stamp, no bank of the network, no class, no debt or no amount. `Mem` is want of memory.
/// The last record that is not blank may be the word `rounds` and a number, and carries no raise
/// then. Costs one pass over the file, and for each raise a walk of its debtor's row or of its
/// creditor's column, whichever is shorter.
pub fn read_journal(alloc: Global, net: &Network, bytes: &[u8]) -> Result<Journal, ReadNet>
    ensures journal { IfOk result (λ journal. journal_of net.now bytes.now ≡ Ok journal.raises) }
    ensures refused { (f : Fault) → IsErrOf result (ReadNet.Refused f)
        → journal_of net.now bytes.now ≡ Err f }
    ensures size { file_limit limits.Standard file.Journal < length bytes.now
        → IsErrOf result (ReadNet.Refused (fault_at file.Journal 0 kind.FileSize)) }
    ensures debts { IfOk result
        (λ journal. All (λ r. r.debt.0 < length net.now.debts) journal.raises) }
{
    read_journal_within(alloc, Limits::Standard, net, bytes)
}

/// The text of a journal: a header, and a line for each raise, in order. Room for the text is
/// reserved once.
pub fn print_journal(alloc: Global, net: &Network, journal: &[Raise]) -> Result<Vec<u8>, Mem>
    requires debts { All (λ r. r.debt.0 < length net.now.debts) journal.now }
    ensures text { IfOk result (λ text. text.items ≡ journal_text net.now journal.now) }

    // What is printed is read as the same journal by any limits that it is within, also with a line
    // of rounds after it.
    ensures read_back { (by : Limits) → KeepsNames net.now → IsInLimits by net.now journal.now
        → IfOk result (λ text. journal_within by net.now text.items ≡ Ok journal.now) }
    ensures read_closed { (by : Limits) (rounds : ℕ) → KeepsNames net.now
        → IsInLimits by net.now journal.now → rounds < 10 ^ MAX_DIGITS
        → IfOk result (λ text. journal_within by net.now (text.items ++ rounds_line rounds)
        ≡ Ok journal.now) }
{
    prove!(net.banks() <= clr_net::MAX_BANKS);
    let header = journal_head();
    let mut bytes = header.len();
    for raise in journal {
        let more = line_bytes(net, *raise);
        bytes = bytes.checked_add(more).ok_or(Mem)?;
    }
    let mut text = Vec::with_capacity(alloc, bytes)?;
    text.extend_from_slice(header)?;
    let mut line = Line::empty();
    for entry in journal {
        lay_raise(&mut line, net, *entry);
        text.extend_from_slice(line.bytes())?;
    }
    Ok(text)
}

// How many bytes the line of a raise has.
fn line_bytes(net: &Network, raise: Raise) -> usize
    requires debt { raise.debt.0 < length net.now.debts }
    ensures { result ≡ length (raise_line net.now raise) }
{
    prove!(net.banks() <= clr_net::MAX_BANKS);
    let debt = net.debt(raise.debt);
    digits_of(raise.stamp)
        + net.bank(debt.debtor).name.bytes().len()
        + net.bank(debt.creditor).name.bytes().len()
        + digits_of(u64::from(debt.class))
        + digits_of(raise.to)
        + 5
}

// How many decimal digits a number has.
fn digits_of(number: u64) -> usize
    ensures digits { result ≡ length (decimal number) }
    ensures few { result ≤ 40 }
{
    match number.checked_ilog10() {
        Some(power) => power as usize + 1,
        None => 1,
    }
}

/// Takes the raises of a journal in order, from nothing paid, and says what they come to.
///
/// The first raise that falls or is not lawful decides, and `paid` then holds the payments before
/// it. `paid` has a place for each debt, in file order, in units; what stands there before is not
/// looked at. Takes no memory.
///
/// Divides the debtor's row for each raise.
pub fn replay(net: &Network, journal: &[Raise], paid: &mut [u64], scratch: &mut Scratch) -> Verdict
    requires debts { All (λ r. r.debt.0 < length net.now.debts) journal.now }
    requires over { length paid.old ≡ length net.now.debts }
    requires room { HasRoom net.now scratch.old }
    ensures verdict { IsVerdict net.now journal.now result paid.new }
    ensures room { scratch.new ≡ scratch.old }
{
    prove!(net.banks() <= clr_net::MAX_BANKS);
    judge(net, journal, paid, &mut [], Dividing::ForEachRaise, scratch)
}
