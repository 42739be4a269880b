// Tables with a line for each bank, or for each debt, in file order.
ghost use Rattle.cascade.specs.Standings.{bank_numbers};
ghost use Rattle.clear_report.specs.Words.{at_place};
ghost use Rattle.clr_net.specs.Limits.{IsNetwork};
ghost use Rattle.clr_net.specs.Net.{Net, debt_numbers, name_of};
ghost use Rattle.std.specs.List.{flat_map};
ghost use Rattle.std.specs.Prelude.{◌≡◌, ◌++◌, ◌<◌, ℕ, List, OnOk, length};

use crate::line::name;
use clr_edge::line::Line;
use clr_net::{BankId, DebtId, Mem, Network};

// What a table says of the banks of a network.
pub trait BankTable {
    // It has what it says of each of them.
    ghost over: { Self → Net → Type 0 };

    // The line of a bank.
    ghost line_of: { Self → Net → ℕ → List ℕ };

    // Appends the line of a bank, which may be written in this room first.
    fn push(
        &self,
        text: &mut Vec<u8>,
        room: &mut Line,
        net: &Network,
        bank: BankId,
    ) -> Result<(), Mem>
        requires over { over self.now net.now }
        requires bank { bank.0 < length net.now.banks }
        ensures { OnOk result
            (text.new.items ≡ text.old.items ++ line_of self.now net.now bank.0) };
}

// Appends the lines of a table.
pub fn push_bank_rows<T: BankTable>(text: &mut Vec<u8>, net: &Network, table: &T) -> Result<(), Mem>
    requires { T.over table.now net.now }
    ensures { OnOk result (text.new.items
        ≡ text.old.items ++ flat_map (T.line_of table.now net.now) (bank_numbers net.now)) }
{
    let mut room = Line::empty();
    for number in 0..net.banks() {
        table.push(text, &mut room, net, BankId(number))?;
    }
    Ok(())
}

// Appends a header, and the lines of a table below it.
pub fn push_banks<T: BankTable>(
    text: &mut Vec<u8>,
    header: &[u8],
    net: &Network,
    table: &T,
) -> Result<(), Mem>
    requires { T.over table.now net.now }
    ensures { OnOk result (text.new.items ≡ text.old.items
        ++ (header.now ++ flat_map (T.line_of table.now net.now) (bank_numbers net.now))) }
{
    text.extend_from_slice(header)?;
    push_bank_rows(text, net, table)
}

// What a line says of a bank.
pub trait Row: Copy {
    // The line of a bank of this name.
    ghost told: { Self → List ℕ → List ℕ };

    // Appends the line.
    fn push(self, text: &mut Vec<u8>, name: &[u8]) -> Result<(), Mem>
        ensures { OnOk result (text.new.items ≡ text.old.items ++ told self name.now) };
}

// What lines say of all banks, in file order.
#[derive(Drop)]
pub struct Each<'a, T: Row> {
    pub all: &'a [T],
}

impl<'a, T: Row> BankTable for Each<'a, T> {
    ghost over = { λ t net. length t.all.now ≡ length net.banks };

    ghost line_of = { λ t net i. at_place (λ row. T.told row (name_of net i)) t.all.now i };

    fn push(
        &self,
        text: &mut Vec<u8>,
        _room: &mut Line,
        net: &Network,
        bank: BankId,
    ) -> Result<(), Mem> {
        self.all[bank.0 as usize].push(text, name(net, bank))
    }
}

// What a table says of the debts of a network.
pub trait DebtTable {
    // It has what it says of each of them.
    ghost over: { Self → Net → Type 0 };

    // The line of a debt.
    ghost line_of: { Self → Net → ℕ → List ℕ };

    // Appends the line of a debt, which may be written in this room first.
    fn push(
        &self,
        text: &mut Vec<u8>,
        room: &mut Line,
        net: &Network,
        debt: DebtId,
    ) -> Result<(), Mem>
        requires network { IsNetwork net.now }
        requires over { over self.now net.now }
        requires debt { debt.0 < length net.now.debts }
        ensures { OnOk result
            (text.new.items ≡ text.old.items ++ line_of self.now net.now debt.0) };
}

// Appends a header, and the lines of a table below it.
pub fn push_debts<T: DebtTable>(
    text: &mut Vec<u8>,
    header: &[u8],
    net: &Network,
    table: &T,
) -> Result<(), Mem>
    requires { T.over table.now net.now }
    ensures { OnOk result (text.new.items ≡ text.old.items
        ++ (header.now ++ flat_map (T.line_of table.now net.now) (debt_numbers net.now))) }
{
    text.extend_from_slice(header)?;
    push_debt_rows(text, net, table)
}

// Appends the lines of a table.
fn push_debt_rows<T: DebtTable>(text: &mut Vec<u8>, net: &Network, table: &T) -> Result<(), Mem>
    requires { T.over table.now net.now }
    ensures { OnOk result (text.new.items
        ≡ text.old.items ++ flat_map (T.line_of table.now net.now) (debt_numbers net.now)) }
{
    let mut room = Line::empty();
    for number in 0..net.debts() {
        table.push(text, &mut room, net, DebtId(number))?;
    }
    Ok(())
}
