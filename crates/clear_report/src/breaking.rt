ghost use Rattle.clear_report.specs.Breaking.{breaking_text as text_of, broken_line};
ghost use Rattle.std.specs.Prelude.{◌≡◌, length, IfOk};

use crate::line::{Field, push_line, state_word};
use crate::table::{Each, Row, push_banks};
use clr_net::{Mem, Network};
use std::alloc::Global;
use stress::Broken;

/// The text of what breaks each bank: a header, and a line for each bank in file order, of the
/// least cut, per mille, that breaks it, and of how it stands at it.
///
/// `all` has one a bank, in file order. `Mem` for want of memory alone.
pub fn breaking_text(alloc: Global, net: &Network, all: &[Broken]) -> Result<Vec<u8>, Mem>
    requires { length all.now ≡ length net.now.banks }
    ensures { IfOk result (λ text. text.items ≡ text_of net.now all.now) }
{
    let mut text = Vec::new(alloc);
    push_banks(&mut text, b"bank,cut,state\n", net, &Each { all })?;
    Ok(text)
}

impl Row for Broken {
    ghost told = { λ b name. broken_line name b };

    fn push(self, text: &mut Vec<u8>, name: &[u8]) -> Result<(), Mem> {
        push_line(
            text,
            &[
                Field::Word(name),
                Field::Number(u64::from(self.cut)),
                Field::Word(state_word(self.health).as_bytes()),
            ],
        )
    }
}
