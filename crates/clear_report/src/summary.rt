ghost use Rattle.clear_report.specs.Summary.{summary_lines};
ghost use Rattle.std.specs.Prelude.{◌≡◌, IfOk};

use crate::check::push_totals;
use crate::line::{Field, push_line};
use crate::sums::{defaults_of, sum_of, totals_of};
use cascade::Standing;
use clr_net::{Mem, Network};
use std::alloc::Global;

/// The summary of a network that was cleared: seven lines of its banks, its debts, the units owed,
/// the cash, the units paid, the banks in default, and what is left to all owners.
///
/// `paid` has a place for each debt, in file order, in units, and `standings` one standing a bank.
/// `Mem` for want of memory alone.
pub fn summary_text(
    alloc: Global,
    net: &Network,
    paid: &[u64],
    standings: &[Standing],
) -> Result<Vec<u8>, Mem>
    ensures { IfOk result (λ text. text.items ≡ summary_lines net.now paid.now standings.now) }
{
    let [.., equity] = totals_of(standings);
    let mut text = Vec::new(alloc);
    push_totals(&mut text, net)?;
    push_line(&mut text, &[Field::Word(b"paid"), Field::Sum(sum_of(paid))])?;
    push_line(
        &mut text,
        &[
            Field::Word(b"defaults"),
            Field::Number(defaults_of(standings)),
        ],
    )?;
    push_line(&mut text, &[Field::Word(b"equity"), Field::Sum(equity)])?;
    Ok(text)
}
