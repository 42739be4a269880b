ghost use Rattle.clear_report.specs.CostBounds.{cost_bounds_text as text_of, ends_line};
ghost use Rattle.clear_report.specs.CostBounds.{ends_line_of};
ghost use Rattle.std.specs.Prelude.{◌≡◌, ◌++◌, length, IfOk, OnOk};

use crate::bounds::{DebtBounds, debts_table};
use crate::line::{Field, name, push_line, state_word};
use crate::table::{BankTable, push_banks};
use clr_edge::line::Line;
use clr_net::{BankId, Mem, Network};
use costs::CostStanding;
use std::alloc::Global;

/// The text of the least and of the greatest payments that clear where default costs (Rogers and
/// Veraart 2013): a table of the debts, in file order, and below it, after an empty line, one of
/// the banks, in file order: what each loses, its equity and its state under the least, and then
/// under the greatest.
///
/// `least` and `greatest` have a place for each debt, in file order, in units. `at_least` and
/// `at_greatest` have one standing for each bank, in file order, under these payments. `Mem` for
/// want of memory alone.
pub fn cost_bounds_text(
    alloc: Global,
    net: &Network,
    least: &[u64],
    greatest: &[u64],
    at_least: &[CostStanding],
    at_greatest: &[CostStanding],
) -> Result<Vec<u8>, Mem>
    requires least { length least.now ≡ length net.now.debts }
    requires greatest { length greatest.now ≡ length net.now.debts }
    requires at_least { length at_least.now ≡ length net.now.banks }
    requires at_greatest { length at_greatest.now ≡ length net.now.banks }
    ensures { IfOk result (λ text. text.items
        ≡ text_of net.now least.now greatest.now at_least.now at_greatest.now) }
{
    let header = b"bank,lost_at_least,equity_at_least,state_at_least,\
        lost_at_greatest,equity_at_greatest,state_at_greatest\n";
    let mut text = debts_table(alloc, net, &DebtBounds { least, greatest })?;
    push_line(&mut text, &[])?;
    let banks = Ends {
        at_least,
        at_greatest,
    };
    push_banks(&mut text, header, net, &banks)?;
    Ok(text)
}

// How each bank stands under the least and under the greatest payments, in file order.
#[derive(Drop)]
struct Ends<'a> {
    at_least: &'a [CostStanding],
    at_greatest: &'a [CostStanding],
}

impl<'a> BankTable for Ends<'a> {
    ghost over = { λ t net. (length t.at_least.now ≡ length net.banks)
        × (length t.at_greatest.now ≡ length net.banks) };

    ghost line_of = { λ t net. ends_line_of net t.at_least.now t.at_greatest.now };

    fn push(
        &self,
        text: &mut Vec<u8>,
        _room: &mut Line,
        net: &Network,
        bank: BankId,
    ) -> Result<(), Mem> {
        let place = bank.0 as usize;
        push_ends(
            text,
            name(net, bank),
            self.at_least[place],
            self.at_greatest[place],
        )
    }
}

// Appends the line of a bank of this name.
fn push_ends(
    text: &mut Vec<u8>,
    name: &[u8],
    low: CostStanding,
    top: CostStanding,
) -> Result<(), Mem>
    ensures { OnOk result (text.new.items ≡ text.old.items ++ ends_line name.now low top) }
{
    push_line(
        text,
        &[
            Field::Word(name),
            Field::Number(low.lost),
            Field::Number(low.equity),
            Field::Word(state_word(low.health).as_bytes()),
            Field::Number(top.lost),
            Field::Number(top.equity),
            Field::Word(state_word(top.health).as_bytes()),
        ],
    )
}
