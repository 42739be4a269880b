ghost use Rattle.clear_report.specs.Outcomes.{falls_line, falls_text as falls_text_of};
ghost use Rattle.clear_report.specs.Outcomes.{outcome_line as outcome_line_of};
ghost use Rattle.clear_report.specs.Outcomes.{outcomes_header as header_of};
ghost use Rattle.std.specs.Prelude.{◌≡◌, length, IfOk};

use crate::line::{Field, push_line};
use crate::table::{Each, Row, push_banks};
use clr_net::{Mem, Name, Network};
use std::alloc::Global;
use stress::{Falls, Outcome};

/// The header of scenarios in sums. `Mem` for want of memory alone.
pub fn outcomes_header(alloc: Global) -> Result<Vec<u8>, Mem>
    ensures { IfOk result (λ text. text.items ≡ header_of) }
{
    let header = b"scenario,cash,paid,outside_paid,equity,defaults,fundamental\n";
    Ok(Vec::from_slice(alloc, header)?)
}

/// The line of a scenario of this name, and of what it comes to in sums. `Mem` for want of memory
/// alone.
pub fn outcome_line(alloc: Global, name: &Name, outcome: &Outcome) -> Result<Vec<u8>, Mem>
    ensures { IfOk result (λ text. text.items ≡ outcome_line_of name.now outcome.now) }
{
    let mut text = Vec::new(alloc);
    let o = *outcome;
    push_line(
        &mut text,
        &[
            Field::Word(name.bytes()),
            Field::Number(o.cash),
            Field::Number(o.paid),
            Field::Number(o.outside_paid),
            Field::Number(o.equity),
            Field::Number(o.defaults),
            Field::Number(o.fundamental),
        ],
    )?;
    Ok(text)
}

/// The text of how often each bank falls in some scenarios: a header, and a line for each bank in
/// file order. It stands below the lines of the scenarios, after an empty line.
///
/// `all` has one a bank, in file order. `Mem` for want of memory alone.
pub fn falls_text(alloc: Global, net: &Network, all: &[Falls]) -> Result<Vec<u8>, Mem>
    requires { length all.now ≡ length net.now.banks }
    ensures { IfOk result (λ text. text.items ≡ falls_text_of net.now all.now) }
{
    let mut text = Vec::new(alloc);
    push_banks(
        &mut text,
        b"bank,defaults,fundamental\n",
        net,
        &Each { all },
    )?;
    Ok(text)
}

impl Row for Falls {
    ghost told = { λ f name. falls_line name f };

    fn push(self, text: &mut Vec<u8>, name: &[u8]) -> Result<(), Mem> {
        push_line(
            text,
            &[
                Field::Word(name),
                Field::Number(u64::from(self.defaults)),
                Field::Number(u64::from(self.fundamental)),
            ],
        )
    }
}
