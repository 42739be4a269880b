ghost use Rattle.clear_report.specs.Rescues.{rescue_lines, rescued_text};
ghost use Rattle.std.specs.Prelude.{◌≡◌, ◌++◌, ◌<◌, IfOk, OnOk, length};

use crate::line::{Field, name, push_line};
use crate::payments::push_payments_below;
use clr_net::{BankId, Mem, Network};
use rescue::Rescued;
use std::alloc::Global;

/// The text of what saves a bank: a line of the bank and the cash that saves it, a line of what it
/// is short of with one unit less, and below them, after an empty line, the text of the payments
/// that are made then.
///
/// `paid` has a place for each debt, in file order, in units. `Mem` for want of memory alone.
pub fn rescue_text(
    alloc: Global,
    net: &Network,
    bank: BankId,
    found: &Rescued,
    paid: &[u64],
) -> Result<Vec<u8>, Mem>
    requires bank { bank.0 < length net.now.banks }
    requires over { length paid.now ≡ length net.now.debts }
    ensures { IfOk result (λ text. text.items
        ≡ rescued_text net.now bank.0 found.now.added found.now.short paid.now) }
{
    let mut text = Vec::new(alloc);
    push_rescue(&mut text, net, bank, found)?;
    push_payments_below(&mut text, net, paid)?;
    Ok(text)
}

// Appends the line of the bank and the cash that saves it, and that of what it is short of.
fn push_rescue(text: &mut Vec<u8>, net: &Network, bank: BankId, found: &Rescued) -> Result<(), Mem>
    requires { bank.0 < length net.now.banks }
    ensures { OnOk result (text.new.items
        ≡ text.old.items ++ rescue_lines net.now bank.0 found.now.added found.now.short) }
{
    push_line(
        text,
        &[
            Field::Word(b"rescue"),
            Field::Word(name(net, bank)),
            Field::Number(found.added),
        ],
    )?;
    push_line(text, &[Field::Word(b"short"), Field::Number(found.short)])
}
