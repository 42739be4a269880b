ghost use Rattle.clear_report.specs.Defaults.{bank_line, defaults_header};
ghost use Rattle.clear_report.specs.Defaults.{defaults_text};
ghost use Rattle.clear_report.specs.Defaults.{owes_outside as owes_any_outside, standing_line};
ghost use Rattle.clear_report.specs.Defaults.{total_line};
ghost use Rattle.clr_edge.specs.declared.line.TheConstants.{MAX_LINE};
ghost use Rattle.std.specs.Fmt.{decimal};
ghost use Rattle.std.specs.Prelude.{◌≡◌, ◌+◌, ◌≤◌, ◌++◌, ◌∷◌, if◌then◌else◌, length, IfOk, OnOk};

use crate::line::{Field, push_line, state_word};
use crate::sums::{defaults_of, totals_of};
use crate::table::{BankTable, push_banks};
use cascade::Standing;
use clr_edge::line::Line;
use clr_net::{BankId, Mem, Name, Network};
use std::alloc::Global;

/// The text of who defaults: a header, a line for each bank in file order, a line of the sums and
/// of how many banks are in default, and a line of all opening cash.
///
/// `standings` has one standing a bank, in file order. There is a column of what is paid outside
/// the network where some bank owes something outside. `Mem` for want of memory alone.
pub fn default_text(alloc: Global, net: &Network, standings: &[Standing]) -> Result<Vec<u8>, Mem>
    requires { length standings.now ≡ length net.now.banks }
    ensures { IfOk result (λ text. text.items ≡ defaults_text net.now standings.now) }
{
    let outside = owes_outside(net);
    let banks = Standings {
        outside,
        all: standings,
    };
    let mut text = Vec::new(alloc);
    push_banks(&mut text, header(outside).as_bytes(), net, &banks)?;
    push_total(&mut text, outside, standings)?;
    push_line(
        &mut text,
        &[Field::Word(b"cash"), Field::Number(net.cash_total())],
    )?;
    Ok(text)
}

// The header.
fn header(outside: bool) -> &'static str
    ensures { result.now ≡ defaults_header outside }
{
    if outside {
        "bank,estate,outside_paid,paid,owed,equity,state\n"
    } else {
        "bank,estate,paid,owed,equity,state\n"
    }
}

// Whether some bank owes something outside the network.
fn owes_outside(net: &Network) -> bool
    ensures { result ≡ owes_any_outside net.now }
{
    net.outside_total() != 0
}

// How each bank stands, in file order, with what it pays outside the network or without.
#[derive(Drop)]
struct Standings<'a> {
    outside: bool,
    all: &'a [Standing],
}

impl<'a> BankTable for Standings<'a> {
    ghost over = { λ t net. length t.all.now ≡ length net.banks };

    ghost line_of = { λ t net. bank_line net t.outside t.all.now };

    fn push(
        &self,
        text: &mut Vec<u8>,
        room: &mut Line,
        net: &Network,
        bank: BankId,
    ) -> Result<(), Mem> {
        let standing = self.all[bank.0 as usize];
        lay_out(room, self.outside, &net.bank(bank).name, standing);
        text.extend_from_slice(room.bytes())?;
        Ok(())
    }
}

// Writes the line of a bank of this name, from its end.
fn lay_out(line: &mut Line, outside: bool, name: &Name, standing: Standing)
    ensures { line.new ≡ standing_line outside name.now standing }
{
    line.begin_word(state_word(standing.health).as_bytes());
    line.add_number(standing.equity);
    line.add_number(standing.owed);
    line.add_number(standing.paid);
    add_outside(line, outside, standing.outside_paid);
    line.add_number(standing.estate);
    line.add_name(name);
}

// Puts what is paid outside the network before the other fields, where there is a column of it.
fn add_outside(line: &mut Line, outside: bool, paid: u64)
    requires room { length line.old + 21 ≤ MAX_LINE }
    ensures bytes { line.new ≡ (if outside then decimal paid ++ 44 ∷ line.old else line.old) }
    ensures more { length line.new ≤ length line.old + 21 }
{
    if outside {
        line.add_number(paid);
    }
}

// Appends the line of the sums over all banks, and of how many are in default.
fn push_total(text: &mut Vec<u8>, outside: bool, standings: &[Standing]) -> Result<(), Mem>
    ensures { OnOk result (text.new.items ≡ text.old.items ++ total_line outside standings.now) }
{
    let [estate, outside_paid, paid, owed, equity] = totals_of(standings);
    if outside {
        push_line(
            text,
            &[
                Field::Word(b"total"),
                Field::Sum(estate),
                Field::Sum(outside_paid),
                Field::Sum(paid),
                Field::Sum(owed),
                Field::Sum(equity),
                Field::Number(defaults_of(standings)),
            ],
        )
    } else {
        push_line(
            text,
            &[
                Field::Word(b"total"),
                Field::Sum(estate),
                Field::Sum(paid),
                Field::Sum(owed),
                Field::Sum(equity),
                Field::Number(defaults_of(standings)),
            ],
        )
    }
}
