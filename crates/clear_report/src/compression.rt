ghost use Rattle.clear_report.specs.Compression.{claim_line, claims_text, class_lines};
ghost use Rattle.clear_report.specs.Compression.{compressed_text, has_debt_of, rank_line_of};
ghost use Rattle.clear_report.specs.Compression.{ranks_text};
ghost use Rattle.clear_report.specs.Words.{number_line};
ghost use Rattle.clr_net.specs.declared.TheConstants.{MAX_CLASS};
ghost use Rattle.std.specs.List.{flat_map, range_with_len};
ghost use Rattle.std.specs.Prelude.{◌≡◌, ◌++◌, ◌*◌, ◌<◌, ◌≤◌, codes, length, IfOk, OnOk};

use crate::line::{Field, name, push_below, push_debt, push_line};
use crate::table::{BankTable, DebtTable, push_bank_rows, push_debts};
use clr_edge::line::Line;
use clr_net::{BankId, DebtId, MAX_CLASS, Mem, Network};
use std::alloc::Global;

/// The text of claims that were compressed: the debts file with these claims, and below it, after
/// an empty line, the rank of each bank in each class that has a debt, and the units cancelled.
///
/// `claims` has a place for each debt, in file order, in units. `ranks` has nine times as many
/// places as there are banks: those of class 1 for all banks in file order, then those of class 2,
/// and so on. `Mem` for want of memory alone.
pub fn compress_text(
    alloc: Global,
    net: &Network,
    claims: &[u64],
    ranks: &[u64],
    cancelled: u64,
) -> Result<Vec<u8>, Mem>
    requires claims { length claims.now ≡ length net.now.debts }
    requires ranks { length ranks.now ≡ MAX_CLASS * length net.now.banks }
    ensures { IfOk result (λ text. text.items
        ≡ compressed_text net.now claims.now ranks.now cancelled) }
{
    let mut text = claims_file(alloc, net, claims)?;
    let ranks = ranks_table(alloc, net, ranks, cancelled)?;
    push_below(&mut text, ranks.as_slice())?;
    Ok(text)
}

// The table of the ranks, and the line of the units cancelled.
fn ranks_table(alloc: Global, net: &Network, ranks: &[u64], cancelled: u64) -> Result<Vec<u8>, Mem>
    requires { length ranks.now ≡ MAX_CLASS * length net.now.banks }
    ensures { IfOk result (λ text. text.items
        ≡ ranks_text net.now ranks.now ++ number_line (codes "cancelled") cancelled) }
{
    let mut text = Vec::from_slice(alloc, b"class,bank,rank\n")?;
    push_ranks(&mut text, net, ranks)?;
    push_line(
        &mut text,
        &[Field::Word(b"cancelled"), Field::Number(cancelled)],
    )?;
    Ok(text)
}

// The debts file with other claims.
fn claims_file(alloc: Global, net: &Network, claims: &[u64]) -> Result<Vec<u8>, Mem>
    requires { length claims.now ≡ length net.now.debts }
    ensures { IfOk result (λ text. text.items ≡ claims_text net.now claims.now) }
{
    let mut text = Vec::new(alloc);
    push_debts(
        &mut text,
        b"debtor,creditor,class,claim\n",
        net,
        &Claims { claims },
    )?;
    Ok(text)
}

// The claim of each debt, in file order.
#[derive(Drop)]
struct Claims<'a> {
    claims: &'a [u64],
}

impl<'a> DebtTable for Claims<'a> {
    ghost over = { λ t net. length t.claims.now ≡ length net.debts };

    ghost line_of = { λ t net. claim_line net t.claims.now };

    fn push(
        &self,
        text: &mut Vec<u8>,
        room: &mut Line,
        net: &Network,
        debt: DebtId,
    ) -> Result<(), Mem> {
        room.begin(self.claims[debt.0 as usize]);
        push_debt(text, room, net, debt)
    }
}

// Appends the ranks, class by class.
fn push_ranks(text: &mut Vec<u8>, net: &Network, ranks: &[u64]) -> Result<(), Mem>
    requires { length ranks.now ≡ MAX_CLASS * length net.now.banks }
    ensures { OnOk result (text.new.items
        ≡ text.old.items ++ flat_map (class_lines net.now ranks.now) (range_with_len 1 MAX_CLASS)) }
{
    for below in 0..MAX_CLASS {
        push_class(text, net, ranks, below + 1)?;
    }
    Ok(())
}

// Appends the ranks in a class, where it has a debt.
fn push_class(text: &mut Vec<u8>, net: &Network, ranks: &[u64], class: u8) -> Result<(), Mem>
    requires first { 1 ≤ class }
    requires last { class ≤ MAX_CLASS }
    requires ranks { length ranks.now ≡ MAX_CLASS * length net.now.banks }
    ensures { OnOk result (text.new.items
        ≡ text.old.items ++ class_lines net.now ranks.now class) }
{
    if has_debt(net, class) {
        push_bank_rows(text, net, &Ranks { ranks, class })
    } else {
        Ok(())
    }
}

// Whether a class has a debt.
fn has_debt(net: &Network, class: u8) -> bool
    ensures { result ≡ has_debt_of net.now class }
{
    for x in 0..net.debts() {
        if net.debt(DebtId(x)).class == class {
            return true;
        }
    }
    false
}

// The ranks in a class, among those of all classes.
#[derive(Drop)]
struct Ranks<'a> {
    ranks: &'a [u64],
    class: u8,
}

impl<'a> BankTable for Ranks<'a> {
    ghost over = { λ t net. (1 ≤ t.class) × (t.class ≤ MAX_CLASS)
        × (length t.ranks.now ≡ MAX_CLASS * length net.banks) };

    ghost line_of = { λ t net. rank_line_of net t.ranks.now t.class };

    fn push(
        &self,
        text: &mut Vec<u8>,
        _room: &mut Line,
        net: &Network,
        bank: BankId,
    ) -> Result<(), Mem> {
        let first = (self.class as usize - 1) * net.banks() as usize;
        let rank = self.ranks[first + bank.0 as usize];
        push_line(
            text,
            &[
                Field::Number(u64::from(self.class)),
                Field::Word(name(net, bank)),
                Field::Number(rank),
            ],
        )
    }
}
