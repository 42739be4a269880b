ghost use Rattle.clear_report.specs.Costs.{cost_line, cost_table, cost_total_line, costs_text};
ghost use Rattle.std.specs.Prelude.{◌≡◌, ◌++◌, length, IfOk, OnOk};

use crate::line::{Field, push_below, push_line, state_word};
use crate::payments::pay_text;
use crate::sums::{defaults_of, totals_of};
use crate::table::{Each, Row, push_banks};
use clr_net::{Mem, Network};
use costs::CostStanding;
use std::alloc::Global;

/// The text of payments where default costs (Rogers and Veraart 2013): the payments, and below
/// them, after an empty line, a header, a line for each bank in file order, a line of the sums and
/// of how many banks are in default, and a line of all opening cash.
///
/// `paid` has a place for each debt, in file order, in units, and `standings` one standing a bank,
/// in file order. `Mem` for want of memory alone.
pub fn cost_text(
    alloc: Global,
    net: &Network,
    paid: &[u64],
    standings: &[CostStanding],
) -> Result<Vec<u8>, Mem>
    requires over { length paid.now ≡ length net.now.debts }
    requires standings { length standings.now ≡ length net.now.banks }
    ensures { IfOk result (λ text. text.items ≡ costs_text net.now paid.now standings.now) }
{
    let mut text = pay_text(alloc, net, paid)?;
    let banks = banks_table(alloc, net, standings)?;
    push_below(&mut text, banks.as_slice())?;
    Ok(text)
}

// The table of the banks, the line of the sums, and that of all opening cash.
fn banks_table(alloc: Global, net: &Network, standings: &[CostStanding]) -> Result<Vec<u8>, Mem>
    requires { length standings.now ≡ length net.now.banks }
    ensures { IfOk result (λ text. text.items ≡ cost_table net.now standings.now) }
{
    let header = b"bank,estate,lost,outside_paid,paid,equity,state\n";
    let mut text = Vec::new(alloc);
    push_banks(&mut text, header, net, &Each { all: standings })?;
    push_total(&mut text, standings)?;
    push_line(
        &mut text,
        &[Field::Word(b"cash"), Field::Number(net.cash_total())],
    )?;
    Ok(text)
}

impl Row for CostStanding {
    ghost told = { λ s name. cost_line name s };

    fn push(self, text: &mut Vec<u8>, name: &[u8]) -> Result<(), Mem> {
        push_line(
            text,
            &[
                Field::Word(name),
                Field::Number(self.estate),
                Field::Number(self.lost),
                Field::Number(self.outside_paid),
                Field::Number(self.paid),
                Field::Number(self.equity),
                Field::Word(state_word(self.health).as_bytes()),
            ],
        )
    }
}

// Appends the line of the sums over all banks, and of how many are in default.
fn push_total(text: &mut Vec<u8>, standings: &[CostStanding]) -> Result<(), Mem>
    ensures { OnOk result (text.new.items ≡ text.old.items ++ cost_total_line standings.now) }
{
    let [estate, lost, outside_paid, paid, equity] = totals_of(standings);
    push_line(
        text,
        &[
            Field::Word(b"total"),
            Field::Sum(estate),
            Field::Sum(lost),
            Field::Sum(outside_paid),
            Field::Sum(paid),
            Field::Sum(equity),
            Field::Number(defaults_of(standings)),
        ],
    )
}
