ghost use Rattle.clear_report.specs.Text.{AreHeadsOf, head_of};
ghost use Rattle.clr_net.specs.Limits.{IsNetwork};
ghost use Rattle.std.specs.Prelude.{◌≡◌, ◌<◌, IfOk, length};

use crate::line::{Field, name, push_fields};
use clr_net::{DebtId, Mem, Network};
use std::alloc::Global;

// About how many bytes the beginning of a line takes.
const HEAD: usize = 40;

/// The beginnings of the lines of payments, up to what is paid: one for each debt, in file order.
/// Networks that differ in cash alone share them. `Mem` for want of memory alone.
pub fn line_heads(alloc: Global, net: &Network) -> Result<Vec<Vec<u8>>, Mem>
    ensures { IfOk result (λ heads. AreHeadsOf net.now heads.items) }
{
    let mut heads = Vec::with_capacity(alloc, net.debts() as usize)?;
    for x in 0..net.debts() {
        heads.push(line_head(alloc, net, DebtId(x))?)?;
    }
    Ok(heads)
}

// The beginning of the line of a debt.
fn line_head(alloc: Global, net: &Network, id: DebtId) -> Result<Vec<u8>, Mem>
    requires network { IsNetwork net.now }
    requires in_range { id.0 < length net.now.debts }
    ensures { IfOk result (λ head. head.items ≡ head_of net.now id.0) }
{
    let debt = net.debt(id);
    let mut head = Vec::with_capacity(alloc, HEAD)?;
    push_fields(
        &mut head,
        &[
            Field::Word(name(net, debt.debtor)),
            Field::Word(name(net, debt.creditor)),
            Field::Number(u64::from(debt.class)),
            Field::Number(debt.claim),
        ],
    )?;
    Ok(head)
}
