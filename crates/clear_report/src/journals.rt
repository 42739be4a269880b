ghost use Rattle.clear_report.specs.Journals.{NamesBankOf, lawful_and_payments};
ghost use Rattle.raise_journal.specs.Texts.{rounds_line, verdict_line};
ghost use Rattle.clr_net.specs.Lines.{line};
ghost use Rattle.std.specs.Fmt.{decimal};
ghost use Rattle.std.specs.Prelude.{◌≡◌, ◌++◌, ◌∷◌, IfOk, OnOk, length, map};

use crate::line::{Field, name, push_line};
use crate::payments::push_payments_below;
use clr_net::{Mem, Network};
use raise_journal::Verdict;
use std::alloc::Global;

/// The line that closes a journal: how many rounds there were. `Mem` for want of memory alone.
pub fn rounds_text(alloc: Global, rounds: u64) -> Result<Vec<u8>, Mem>
    ensures { IfOk result (λ text. text.items ≡ rounds_line rounds) }
{
    let mut text = Vec::new(alloc);
    push_line(&mut text, &[Field::Word(b"rounds"), Field::Number(rounds)])?;
    Ok(text)
}

/// The line of a verdict on a journal of so many raises. `Mem` for want of memory alone.
pub fn verdict_text(
    alloc: Global,
    net: &Network,
    raises: u64,
    verdict: Verdict,
) -> Result<Vec<u8>, Mem>
    requires { NamesBankOf net.now verdict }
    ensures { IfOk result (λ text. text.items ≡ verdict_line net.now raises verdict) }
{
    let mut text = Vec::new(alloc);
    match verdict {
        Verdict::Lawful => push_line(&mut text, &[Field::Word(b"lawful"), Field::Number(raises)])?,
        Verdict::Unlawful {
            entry,
            had,
            allowed,
        } => push_three(&mut text, b"unlawful", [entry, had, allowed])?,
        Verdict::Falls { entry, last, stamp } => push_three(
            &mut text,
            b"falls",
            [entry, last, stamp],
        )?,
        Verdict::Unfinished { bank } => push_line(
            &mut text,
            &[Field::Word(b"unfinished"), Field::Word(name(net, bank))],
        )?,
    }
    Ok(text)
}

/// The line of the verdict on a lawful journal of so many raises, and below it, after an empty
/// line, the text of the payments that it ends with.
///
/// `paid` has a place for each debt, in file order, in units. `Mem` for want of memory alone.
pub fn lawful_text(alloc: Global, net: &Network, raises: u64, paid: &[u64]) -> Result<Vec<u8>, Mem>
    requires { length paid.now ≡ length net.now.debts }
    ensures { IfOk result (λ text. text.items ≡ lawful_and_payments net.now raises paid.now) }
{
    let mut text = verdict_text(alloc, net, raises, Verdict::Lawful)?;
    push_payments_below(&mut text, net, paid)?;
    Ok(text)
}

// Appends the line of a word and three numbers.
fn push_three(text: &mut Vec<u8>, word: &[u8], numbers: [u64; 3]) -> Result<(), Mem>
    ensures { OnOk result (text.new.items ≡ text.old.items
        ++ line (word.now ∷ map decimal numbers)) }
{
    let [first, second, third] = numbers;
    push_line(
        text,
        &[
            Field::Word(word),
            Field::Number(first),
            Field::Number(second),
            Field::Number(third),
        ],
    )
}
