ghost use Rattle.clear_report.specs.Impact.{hurt_line, hurt_lines, hurts_header, impact_header};
ghost use Rattle.clear_report.specs.Impact.{impact_line, impact_line_of};
ghost use Rattle.clear_report.specs.Pieces.{begun};
ghost use Rattle.clr_net.specs.Net.{cash_of};
ghost use Rattle.impact.specs.Impact.{IsImpactOf};
ghost use Rattle.std.specs.List.{flat_map};
ghost use Rattle.std.specs.Prelude.{◌≡◌, ◌++◌, ◌<◌, All, IfOk, OnOk, length};

use crate::line::{Field, name, push_line, yes_or_no};
use crate::piece::{Piece, begin};
use clr_net::{BankId, Mem, Network};
use impact::{Hurt, Impact};
use std::alloc::Global;

/// The part of a bank in the text of who would hurt whom, where its ruin comes to this: its line
/// among the banks that are ruined, and the lines of those that it hurts. `Mem` for want of memory
/// alone.
pub fn impact_piece(
    alloc: Global,
    net: &Network,
    bank: BankId,
    impact: &Impact,
) -> Result<Piece, Mem>
    requires bank { bank.0 < length net.now.banks }
    requires impact { IsImpactOf net.now bank.0 impact.now }
    ensures upper { IfOk result (λ p. p.upper.items ≡ impact_line net.now bank.0) }
    ensures lower { IfOk result (λ p. p.lower.items ≡ hurt_lines net.now bank.0) }
{
    Ok(Piece {
        upper: impact_row(alloc, net, bank, cash(net, bank), impact)?,
        lower: hurt_rows(alloc, net, bank, impact.hurts.as_slice())?,
    })
}

/// What stands before the lines of the banks that are hurt, in the text of who would hurt whom:
/// the table of the banks that are ruined, from the parts of all banks in file order, an empty
/// line, and the header of the others. `Mem` for want of memory alone.
pub fn impact_begun(alloc: Global, pieces: &[Piece]) -> Result<Vec<u8>, Mem>
    ensures { IfOk result (λ text. text.items ≡ begun impact_header hurts_header pieces.now) }
{
    begin(
        alloc,
        b"bank,cash,own,others,falls\n",
        b"bank,of,lost,falls\n",
        pieces,
    )
}

// The line of a bank that has this cash.
fn impact_row(
    alloc: Global,
    net: &Network,
    bank: BankId,
    cash: u64,
    impact: &Impact,
) -> Result<Vec<u8>, Mem>
    requires { bank.0 < length net.now.banks }
    ensures { IfOk result (λ row. row.items ≡ impact_line_of net.now bank.0 cash
        impact.now.own impact.now.others impact.now.falls) }
{
    let mut row = Vec::new(alloc);
    push_line(
        &mut row,
        &[
            Field::Word(name(net, bank)),
            Field::Number(cash),
            Field::Number(impact.own),
            Field::Number(impact.others),
            Field::Number(u64::from(impact.falls)),
        ],
    )?;
    Ok(row)
}

// The cash of a bank.
fn cash(net: &Network, bank: BankId) -> u64
    requires { bank.0 < length net.now.banks }
    ensures { result ≡ cash_of net.now bank.0 }
{
    net.bank(bank).cash
}

// The lines of those that it hurts.
fn hurt_rows(alloc: Global, net: &Network, bank: BankId, hurts: &[Hurt]) -> Result<Vec<u8>, Mem>
    requires bank { bank.0 < length net.now.banks }
    requires known { All (λ h. h.bank.0 < length net.now.banks) hurts.now }
    ensures { IfOk result (λ rows. rows.items ≡ flat_map (hurt_line net.now bank.0) hurts.now) }
{
    let mut rows = Vec::new(alloc);
    for hurt in hurts {
        push_hurt(&mut rows, net, bank, *hurt)?;
    }
    Ok(rows)
}

// Appends the line of one of them.
fn push_hurt(text: &mut Vec<u8>, net: &Network, bank: BankId, hurt: Hurt) -> Result<(), Mem>
    requires bank { bank.0 < length net.now.banks }
    requires hurt { hurt.bank.0 < length net.now.banks }
    ensures { OnOk result (text.new.items
        ≡ text.old.items ++ hurt_line net.now bank.0 hurt) }
{
    push_line(
        text,
        &[
            Field::Word(name(net, bank)),
            Field::Word(name(net, hurt.bank)),
            Field::Number(hurt.lost),
            Field::Word(yes_or_no(hurt.falls).as_bytes()),
        ],
    )
}
