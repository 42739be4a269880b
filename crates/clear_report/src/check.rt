ghost use Rattle.clear_report.specs.Text.{totals_text};
ghost use Rattle.std.specs.Prelude.{◌≡◌, ◌++◌, IfOk, OnOk};

use crate::line::{Field, push_line};
use clr_net::{Mem, Network};
use std::alloc::Global;

/// The totals of a network: the numbers of its banks and debts, the units owed and the cash, a line
/// each. `Mem` for want of memory alone.
pub fn totals_text(alloc: Global, net: &Network) -> Result<Vec<u8>, Mem>
    ensures { IfOk result (λ text. text.items ≡ totals_text net.now) }
{
    let mut text = Vec::new(alloc);
    push_totals(&mut text, net)?;
    Ok(text)
}

// Appends the lines of the totals.
pub fn push_totals(text: &mut Vec<u8>, net: &Network) -> Result<(), Mem>
    ensures { OnOk result (text.new.items ≡ text.old.items ++ totals_text net.now) }
{
    push_line(
        text,
        &[Field::Word(b"banks"), Field::Number(u64::from(net.banks()))],
    )?;
    push_line(
        text,
        &[Field::Word(b"debts"), Field::Number(u64::from(net.debts()))],
    )?;
    push_line(text, &[Field::Word(b"owed"), Field::Number(net.owed())])?;
    push_line(
        text,
        &[Field::Word(b"cash"), Field::Number(net.cash_total())],
    )
}
