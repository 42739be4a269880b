//! What the program does not call, for whoever calls the crate: a text as one list. The program
//! writes the parts of this one, one after another.
ghost use Rattle.clear_report.specs.Text.{checked_text};
ghost use Rattle.std.specs.Prelude.{◌≡◌, IfOk};

use crate::check::totals_text;
use crate::line::push_below;
use clr_net::{Mem, Network};
use std::alloc::Global;

/// The text of a network that was checked: its totals, and then these two texts of its banks and of
/// its debts, with an empty line before each. `Mem` for want of memory alone.
pub fn check_text(alloc: Global, net: &Network, banks: &[u8], debts: &[u8]) -> Result<Vec<u8>, Mem>
    ensures { IfOk result (λ text. text.items ≡ checked_text net.now banks.now debts.now) }
{
    let mut text = totals_text(alloc, net)?;
    push_below(&mut text, banks)?;
    push_below(&mut text, debts)?;
    Ok(text)
}
