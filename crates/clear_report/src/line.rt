// Lines of fields, appended to a text.
ghost use Rattle.clear_report.specs.Fields.{bytes_of};
ghost use Rattle.clear_report.specs.Text.{debt_fields};
ghost use Rattle.clear_report.specs.Words.{empty_line, state_word as word_of_state, with_commas};
ghost use Rattle.clear_report.specs.Words.{yes_or_no as word_of_test};
ghost use Rattle.clr_net.specs.Limits.{IsNetwork};
ghost use Rattle.clr_net.specs.Lines.{line};
ghost use Rattle.clr_net.specs.Net.{name_of};
ghost use Rattle.std.specs.Prelude.{◌≡◌, ◌<◌, ◌≤◌, ◌++◌, ◌∷◌, [], OnOk, length, map};

use cascade::Health;
use clr_edge::line::{Line, push_field, push_number};
use clr_net::{BankId, DebtId, Mem, Network};

// A field of a line.
#[derive(Clone, Copy)]
pub enum Field<'a> {
    // A word, or the name of a bank.
    Word(&'a [u8]),
    // A number, in decimal digits.
    Number(u64),
    // A sum over all banks, in decimal digits.
    Sum(u128),
}

// Appends a field and the byte that ends it.
fn push_ended(text: &mut Vec<u8>, field: Field, end: u8) -> Result<(), Mem>
    ensures { OnOk result (text.new.items ≡ text.old.items ++ (bytes_of field.entry ++ end ∷ [])) }
{
    match field {
        Field::Word(word) => push_field(text, word, end),
        Field::Number(number) => push_number(text, number, end),
        Field::Sum(sum) => push_number(text, sum, end),
    }
}

// Appends fields, each with a comma after it: the beginning of a line.
pub fn push_fields(text: &mut Vec<u8>, fields: &[Field]) -> Result<(), Mem>
    ensures { OnOk result
        (text.new.items ≡ text.old.items ++ with_commas (map bytes_of fields.now)) }
{
    for field in fields {
        push_ended(text, *field, b',')?;
    }
    Ok(())
}

// Appends a line of fields: an empty line where there are none.
pub fn push_line(text: &mut Vec<u8>, fields: &[Field]) -> Result<(), Mem>
    ensures { OnOk result (text.new.items ≡ text.old.items ++ line (map bytes_of fields.now)) }
{
    match fields.split_last() {
        None => {
            text.push(b'\n')?;
            Ok(())
        }
        Some((last, others)) => push_ending(text, others, *last),
    }
}

// Appends a line of some fields and a last one.
fn push_ending(text: &mut Vec<u8>, others: &[Field], last: Field) -> Result<(), Mem>
    ensures { OnOk result (text.new.items
        ≡ text.old.items ++ line (map bytes_of others.now ++ bytes_of last.entry ∷ [])) }
{
    push_fields(text, others)?;
    push_ended(text, last, b'\n')
}

// The name of a bank.
pub fn name(net: &Network, bank: BankId) -> &[u8]
    requires { bank.0 < length net.now.banks }
    ensures { result.now ≡ name_of net.now bank.0 }
{
    net.bank(bank).name.bytes()
}

// Appends a line of a debt: its debtor, creditor and class, and then the fields of this line.
pub fn push_debt(text: &mut Vec<u8>, line: &mut Line, net: &Network, id: DebtId) -> Result<(), Mem>
    requires network { IsNetwork net.now }
    requires in_range { id.0 < length net.now.debts }
    requires room { length line.old ≤ 63 }
    ensures { OnOk result (text.new.items
        ≡ text.old.items ++ (with_commas (debt_fields net.now id.0) ++ line.old)) }
{
    let debt = net.debt(id);
    line.add_number(u64::from(debt.class));
    line.add_name(&net.bank(debt.creditor).name);
    line.add_name(&net.bank(debt.debtor).name);
    text.extend_from_slice(line.bytes())?;
    Ok(())
}

// Appends another text, with an empty line before it.
pub fn push_below(text: &mut Vec<u8>, below: &[u8]) -> Result<(), Mem>
    ensures { OnOk result (text.new.items ≡ text.old.items ++ empty_line ++ below.now) }
{
    push_line(text, &[])?;
    text.extend_from_slice(below)?;
    Ok(())
}

// The word of a bank's state.
pub fn state_word(health: Health) -> &'static str
    ensures { result.now ≡ word_of_state health }
{
    match health {
        Health::Sound => "sound",
        Health::Fundamental => "fundamental",
        Health::Contagion => "contagion",
    }
}

// The word of a test that passes, and of one that does not.
pub fn yes_or_no(test: bool) -> &'static str
    ensures { result.now ≡ word_of_test test }
{
    if test { "yes" } else { "no" }
}
