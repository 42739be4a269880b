ghost use Rattle.clear_report.specs.Pieces.{begun};
ghost use Rattle.clear_report.specs.Savings.{saves_header, saves_line, saves_lines, saving_line};
ghost use Rattle.clear_report.specs.Savings.{saving_line_of, savings_header};
ghost use Rattle.rescue.specs.Saved.{IsSavingOf};
ghost use Rattle.std.specs.List.{flat_map};
ghost use Rattle.std.specs.Prelude.{◌≡◌, ◌++◌, ◌<◌, All, IfOk, OnOk, length};

use crate::line::{Field, name, push_line};
use crate::piece::{Piece, begin};
use clr_net::{BankId, Mem, Network};
use rescue::Saving;
use std::alloc::Global;

/// The part of a bank in the text of what saves each bank, where saving it comes to this: its line
/// among the banks in default, and the lines of those that are saved with it. `Mem` for want of
/// memory alone.
pub fn saving_piece(
    alloc: Global,
    net: &Network,
    bank: BankId,
    saving: &Saving,
) -> Result<Piece, Mem>
    requires bank { bank.0 < length net.now.banks }
    requires saving { IsSavingOf net.now bank.0 saving.now }
    ensures upper { IfOk result (λ p. p.upper.items ≡ saving_line net.now bank.0) }
    ensures lower { IfOk result (λ p. p.lower.items ≡ saves_lines net.now bank.0) }
{
    Ok(Piece {
        upper: saving_row(alloc, net, bank, saving)?,
        lower: saves_rows(alloc, net, bank, saving.saves.as_slice())?,
    })
}

/// What stands before the lines of the banks that are saved besides, in the text of what saves each
/// bank: the table of the banks in default, from their parts in file order, an empty line, and the
/// header of the others. `Mem` for want of memory alone.
pub fn savings_begun(alloc: Global, pieces: &[Piece]) -> Result<Vec<u8>, Mem>
    ensures { IfOk result (λ text. text.items ≡ begun savings_header saves_header pieces.now) }
{
    begin(
        alloc,
        b"bank,added,short,also_saved,still_short\n",
        b"bank,saves\n",
        pieces,
    )
}

// The line of a bank.
fn saving_row(alloc: Global, net: &Network, bank: BankId, saving: &Saving) -> Result<Vec<u8>, Mem>
    requires { bank.0 < length net.now.banks }
    ensures { IfOk result (λ row. row.items ≡ saving_line_of net.now bank.0 saving.now.added
        saving.now.short (length saving.now.saves.items) saving.now.still_short) }
{
    let mut row = Vec::new(alloc);
    push_line(
        &mut row,
        &[
            Field::Word(name(net, bank)),
            Field::Number(saving.added),
            Field::Number(saving.short),
            Field::Number(saving.saves.len() as u64),
            Field::Number(u64::from(saving.still_short)),
        ],
    )?;
    Ok(row)
}

// The lines of those that are saved with it.
fn saves_rows(alloc: Global, net: &Network, bank: BankId, saves: &[BankId]) -> Result<Vec<u8>, Mem>
    requires bank { bank.0 < length net.now.banks }
    requires known { All (λ b. b.0 < length net.now.banks) saves.now }
    ensures { IfOk result (λ rows.
        rows.items ≡ flat_map (λ b. saves_line net.now bank.0 b.0) saves.now) }
{
    let mut rows = Vec::new(alloc);
    for other in saves {
        push_saved(&mut rows, net, bank, *other)?;
    }
    Ok(rows)
}

// Appends the line of one of them.
fn push_saved(text: &mut Vec<u8>, net: &Network, bank: BankId, other: BankId) -> Result<(), Mem>
    requires bank { bank.0 < length net.now.banks }
    requires other { other.0 < length net.now.banks }
    ensures { OnOk result (text.new.items ≡ text.old.items ++ saves_line net.now bank.0 other.0) }
{
    push_line(
        text,
        &[Field::Word(name(net, bank)), Field::Word(name(net, other))],
    )
}
