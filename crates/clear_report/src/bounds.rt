ghost use Rattle.clear_report.specs.Bounds.{bounds_line, bounds_tables};
ghost use Rattle.clear_report.specs.Bounds.{debts_table as debts_table_of, wave_line, wave_line_of};
ghost use Rattle.std.specs.Prelude.{◌≡◌, ◌++◌, length, IfOk, OnOk};

use crate::line::{Field, name, push_debt, push_line, yes_or_no};
use crate::table::{BankTable, DebtTable, push_banks, push_debts};
use cascade::Standing;
use clr_edge::line::Line;
use clr_net::{BankId, DebtId, Mem, Network};
use std::alloc::Global;

/// The text of the least and of the greatest payments that clear: a table of the debts, in file
/// order, and below it, after an empty line, one of the banks, in file order: the round in which
/// each falls short on the way to the greatest, 0 for none, whether it is in gridlock, and its
/// equity.
///
/// `least` and `greatest` have a place for each debt, in file order, in units. `waves` and
/// `standings` have one for each bank, in file order; the standings are those under the least
/// payments. `Mem` for want of memory alone.
pub fn bounds_text(
    alloc: Global,
    net: &Network,
    least: &[u64],
    greatest: &[u64],
    waves: &[u64],
    standings: &[Standing],
) -> Result<Vec<u8>, Mem>
    requires least { length least.now ≡ length net.now.debts }
    requires greatest { length greatest.now ≡ length net.now.debts }
    requires waves { length waves.now ≡ length net.now.banks }
    requires standings { length standings.now ≡ length net.now.banks }
    ensures { IfOk result (λ text. text.items
        ≡ bounds_tables net.now least.now greatest.now waves.now standings.now) }
{
    let mut text = debts_table(alloc, net, &DebtBounds { least, greatest })?;
    push_line(&mut text, &[])?;
    let banks = Waves { waves, standings };
    push_banks(&mut text, b"bank,wave,gridlock,equity\n", net, &banks)?;
    Ok(text)
}

// The table of the debts.
pub fn debts_table(alloc: Global, net: &Network, paid: &DebtBounds) -> Result<Vec<u8>, Mem>
    requires least { length paid.now.least.now ≡ length net.now.debts }
    requires greatest { length paid.now.greatest.now ≡ length net.now.debts }
    ensures { IfOk result
        (λ text. text.items ≡ debts_table_of net.now paid.now.least.now paid.now.greatest.now) }
{
    let header = b"debtor,creditor,class,claim,least,greatest\n";
    let mut text = Vec::new(alloc);
    push_debts(&mut text, header, net, paid)?;
    Ok(text)
}

// The least and the greatest that is paid on each debt, in file order.
#[derive(Drop)]
pub struct DebtBounds<'a> {
    pub least: &'a [u64],
    pub greatest: &'a [u64],
}

impl<'a> DebtTable for DebtBounds<'a> {
    ghost over = { λ t net. (length t.least.now ≡ length net.debts)
        × (length t.greatest.now ≡ length net.debts) };

    ghost line_of = { λ t net. bounds_line net t.least.now t.greatest.now };

    fn push(
        &self,
        text: &mut Vec<u8>,
        room: &mut Line,
        net: &Network,
        debt: DebtId,
    ) -> Result<(), Mem> {
        let claim = net.debt(debt).claim;
        let place = debt.0 as usize;
        room.begin(self.greatest[place]);
        room.add_number(self.least[place]);
        room.add_number(claim);
        push_debt(text, room, net, debt)
    }
}

// The round in which each bank falls short, and how each stands, in file order.
#[derive(Drop)]
struct Waves<'a> {
    waves: &'a [u64],
    standings: &'a [Standing],
}

impl<'a> BankTable for Waves<'a> {
    ghost over = { λ t net. (length t.waves.now ≡ length net.banks)
        × (length t.standings.now ≡ length net.banks) };

    ghost line_of = { λ t net. wave_line_of net t.waves.now t.standings.now };

    fn push(
        &self,
        text: &mut Vec<u8>,
        _room: &mut Line,
        net: &Network,
        bank: BankId,
    ) -> Result<(), Mem> {
        let place = bank.0 as usize;
        push_wave(
            text,
            name(net, bank),
            self.waves[place],
            self.standings[place],
        )
    }
}

// Appends the line of a bank of this name.
fn push_wave(text: &mut Vec<u8>, name: &[u8], wave: u64, standing: Standing) -> Result<(), Mem>
    ensures { OnOk result
        (text.new.items ≡ text.old.items ++ wave_line name.now wave standing) }
{
    let is_gridlocked = standing.health.is_default() && wave == 0;
    push_line(
        text,
        &[
            Field::Word(name),
            Field::Number(wave),
            Field::Word(yes_or_no(is_gridlocked).as_bytes()),
            Field::Number(standing.equity),
        ],
    )
}
