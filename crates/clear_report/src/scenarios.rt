ghost use Rattle.clear_report.specs.Blocks.{scenario_block, scenario_line};
ghost use Rattle.std.specs.Prelude.{◌≡◌, ◌++◌, IfOk, OnOk};

use crate::line::{Field, push_line};
use clr_net::{Mem, Name};
use std::alloc::Global;

/// The block of a scenario: a line of its name, then this text of the payments that it comes to,
/// and this one of who defaults then. `Mem` for want of memory alone.
pub fn scenario_text(
    alloc: Global,
    name: &Name,
    pay: &[u8],
    defaults: &[u8],
) -> Result<Vec<u8>, Mem>
    ensures { IfOk result (λ text.
        text.items ≡ scenario_block name.now pay.now defaults.now) }
{
    let mut text = Vec::new(alloc);
    push_scenario(&mut text, name)?;
    text.extend_from_slice(pay)?;
    text.extend_from_slice(defaults)?;
    Ok(text)
}

// Appends the line of a scenario's name.
fn push_scenario(text: &mut Vec<u8>, name: &Name) -> Result<(), Mem>
    ensures { OnOk result (text.new.items ≡ text.old.items ++ scenario_line name.now) }
{
    push_line(text, &[Field::Word(b"scenario"), Field::Word(name.bytes())])
}
