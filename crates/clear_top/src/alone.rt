//! The tasks without workers.
ghost use Rattle.clear_core.specs.Clearing.{least};
ghost use Rattle.clear_report.specs.Text.{checked_text, payments_text};
ghost use Rattle.clear_top.specs.Meaning.{IsCompressed, IsPlain};
ghost use Rattle.clear_top.specs.Reports.{cost_bounds_report, costs_report};
ghost use Rattle.net_csv.specs.Printing.{banks_text, debts_text};
ghost use Rattle.std.specs.Prelude.{◌≤◌, IfOk};

use crate::outcome::Outcome;
use clear_least::central;
use clear_report::{compress_text, cost_bounds_text, cost_text, pay_text, totals_text};
use clr_edge::Text;
use clr_net::{Mem, Network};
use compress::{Compressed, compress};
use costs::{cost_standings, greatest_with_costs, least_with_costs};
use net_csv::{print_banks, print_debts};
use std::alloc::Global;

/// The counts of a network, and its files as they are printed.
pub fn check(alloc: Global, net: &Network) -> Result<Outcome, Mem>
    ensures { IfOk result
        (IsPlain (checked_text net.now (banks_text net.now) (debts_text net.now))) }
{
    let mut text = Text::of(alloc, totals_text(alloc, net)?)?;
    text.add_below(alloc, print_banks(alloc, net)?)?;
    text.add_below(alloc, print_debts(alloc, net)?)?;
    Ok(Outcome::of(text))
}

/// The least payments, computed centrally.
pub fn clear_centrally(alloc: Global, net: &Network) -> Result<Outcome, Mem>
    ensures { IfOk result (IsPlain (payments_text net.now (least net.now))) }
{
    let paid = central(alloc, net)?;
    Outcome::plain(alloc, pay_text(alloc, net, paid.as_slice())?)
}

/// The debts with cycles cancelled, and the ranks that show that none is left.
pub fn cancel_cycles(alloc: Global, net: &Network) -> Result<Outcome, Mem>
    ensures { IfOk result (IsCompressed net.now) }
{
    let Compressed {
        claims,
        ranks,
        cancelled,
    } = compress(alloc, net)?;
    let text = compress_text(alloc, net, claims.as_slice(), ranks.as_slice(), cancelled)?;
    Outcome::plain(alloc, text)
}

/// The least payments where an estate in default is worth only so much in a thousand, and how each
/// bank stands then.
pub fn clear_with_costs(alloc: Global, net: &Network, keep: u32) -> Result<Outcome, Mem>
    requires keep { keep ≤ 1000 }
    ensures { IfOk result (IsPlain (costs_report net.now keep)) }
{
    let paid = least_with_costs(alloc, net, keep)?;
    let standings = cost_standings(alloc, net, keep, paid.as_slice())?;
    let text = cost_text(alloc, net, paid.as_slice(), standings.as_slice())?;
    Outcome::plain(alloc, text)
}

/// The least and the greatest payments where an estate in default is worth only so much in a
/// thousand, and how each bank stands at both.
pub fn bound_with_costs(alloc: Global, net: &Network, keep: u32) -> Result<Outcome, Mem>
    requires keep { keep ≤ 1000 }
    ensures { IfOk result (IsPlain (cost_bounds_report net.now keep)) }
{
    let least = least_with_costs(alloc, net, keep)?;
    let greatest = greatest_with_costs(alloc, net, keep)?;
    let below = cost_standings(alloc, net, keep, least.as_slice())?;
    let above = cost_standings(alloc, net, keep, greatest.as_slice())?;
    let text = cost_bounds_text(
        alloc,
        net,
        least.as_slice(),
        greatest.as_slice(),
        below.as_slice(),
        above.as_slice(),
    )?;
    Outcome::plain(alloc, text)
}
