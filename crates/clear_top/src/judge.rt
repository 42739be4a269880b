//! A journal that is read, replayed as evidence.
ghost use Rattle.clear_core.specs.Buffers.{HasRoom};
ghost use Rattle.clear_report.specs.Journals.{NamesBankOf};
ghost use Rattle.clear_top.specs.Meaning.{answer_to};
ghost use Rattle.clear_top.specs.declared.status.Status.{Status};
ghost use Rattle.raise_journal.specs.Texts.{verdict_line};
ghost use Rattle.raise_journal.specs.Verdicts.{judged};
ghost use Rattle.std.specs.Prelude.{◌≡◌, ◌<◌, All, IfOk, None, length};

use crate::outcome::Outcome;
use crate::status::Status;
use clear_core::{Raise, Scratch};
use clear_report::{lawful_text, verdict_text};
use clr_edge::Text;
use clr_net::{Amounts, Mem, Network};
use raise_journal::{Verdict, replay_with};
use std::alloc::Global;

/// Replays a journal on a network: the verdict, and of a lawful and complete journal the payments.
pub fn judge(alloc: Global, net: &Network, journal: &[Raise]) -> Result<Outcome, Mem>
    requires debts { All (λ r. r.debt.0 < length net.now.debts) journal.now }
    ensures { IfOk result (λ o.
        o ≡ answer_to net.now journal.now (judged net.now journal.now).verdict) }
{
    let mut paid = Amounts::zeros(alloc, net.debts() as usize)?;
    let mut awards = Amounts::zeros(alloc, net.debts() as usize)?;
    let mut scratch = Scratch::of(alloc, net)?;
    judge_by(
        alloc,
        net,
        journal,
        paid.as_mut_slice(),
        awards.as_mut_slice(),
        &mut scratch,
    )
}

// Replays a journal by these lists.
fn judge_by(
    alloc: Global,
    net: &Network,
    journal: &[Raise],
    paid: &mut [u64],
    awards: &mut [u64],
    scratch: &mut Scratch,
) -> Result<Outcome, Mem>
    requires debts { All (λ r. r.debt.0 < length net.now.debts) journal.now }
    requires over { length paid.old ≡ length net.now.debts }
    requires awards { length awards.old ≡ length net.now.debts }
    requires room { HasRoom net.now scratch.old }
    ensures { IfOk result (λ o.
        o ≡ answer_to net.now journal.now (judged net.now journal.now).verdict) }
{
    let verdict = replay_with(net, journal, paid, awards, scratch);
    let raises = journal.len() as u64;
    match verdict {
        Verdict::Lawful => Outcome::plain(alloc, lawful_text(alloc, net, raises, paid)?),
        _ => reject(alloc, net, raises, verdict),
    }
}

// What is answered of any other journal.
fn reject(alloc: Global, net: &Network, raises: u64, verdict: Verdict) -> Result<Outcome, Mem>
    requires { NamesBankOf net.now verdict }
    ensures { IfOk result (λ o. o ≡ record {
      status = Status.Unlawful verdict;
      sealed = None;
      text = verdict_line net.now raises verdict;
    }) }
{
    let line = verdict_text(alloc, net, raises, verdict)?;
    let text = Text::of(alloc, line)?;
    Ok(Outcome::ending(Status::Unlawful(verdict), text))
}
