ghost use Rattle.clear_report.specs.Text.{payment_line, payments_header, payments_text};
ghost use Rattle.clear_report.specs.Words.{empty_line};
ghost use Rattle.std.specs.Prelude.{◌≡◌, ◌++◌, ◌^◌, ◌<◌, length, IfOk, OnOk};

use crate::line::{push_debt, push_line};
use crate::table::{DebtTable, push_debts};
use clr_edge::line::Line;
use clr_net::{DebtId, Mem, Network};
use std::alloc::Global;

// About how many bytes the line of a debt takes.
const LINE: usize = 48;

/// The text of some payments: a header, and a line for each debt, in file order.
///
/// `paid` has a place for each debt, in file order, in units. `Mem` for want of memory alone.
pub fn pay_text(alloc: Global, net: &Network, paid: &[u64]) -> Result<Vec<u8>, Mem>
    requires { length paid.now ≡ length net.now.debts }
    ensures { IfOk result (λ text. text.items ≡ payments_text net.now paid.now) }
{
    let mut text = Vec::with_capacity(alloc, payments_room(net))?;
    push_payments(&mut text, net, paid)?;
    Ok(text)
}

// About how many bytes the text of payments takes: a hint, for a text may grow beyond it.
fn payments_room(net: &Network) -> usize
    ensures { result < 2 ^ 40 }
{
    (net.debts() as usize + 1) * LINE
}

/// The line that heads payments.
pub fn payments_head() -> &'static [u8]
    ensures { result.now ≡ payments_header }
{
    b"debtor,creditor,class,claim,paid\n"
}

// Appends the text of some payments.
pub fn push_payments(text: &mut Vec<u8>, net: &Network, paid: &[u64]) -> Result<(), Mem>
    requires { length paid.now ≡ length net.now.debts }
    ensures { OnOk result (text.new.items ≡ text.old.items ++ payments_text net.now paid.now) }
{
    push_debts(text, payments_head(), net, &Payments { paid })
}

// Appends the text of some payments, with an empty line before it.
pub fn push_payments_below(text: &mut Vec<u8>, net: &Network, paid: &[u64]) -> Result<(), Mem>
    requires { length paid.now ≡ length net.now.debts }
    ensures { OnOk result (text.new.items
        ≡ text.old.items ++ empty_line ++ payments_text net.now paid.now) }
{
    push_line(text, &[])?;
    push_payments(text, net, paid)
}

// What is paid on each debt, in file order.
#[derive(Drop)]
struct Payments<'a> {
    paid: &'a [u64],
}

impl<'a> DebtTable for Payments<'a> {
    ghost over = { λ t net. length t.paid.now ≡ length net.debts };

    ghost line_of = { λ t net. payment_line net t.paid.now };

    fn push(
        &self,
        text: &mut Vec<u8>,
        room: &mut Line,
        net: &Network,
        debt: DebtId,
    ) -> Result<(), Mem> {
        let claim = net.debt(debt).claim;
        room.begin(self.paid[debt.0 as usize]);
        room.add_number(claim);
        push_debt(text, room, net, debt)
    }
}
