//! What is shown of a network that was cleared by workers on a board.
ghost use Rattle.clear_core.specs.Clearing.{least};
ghost use Rattle.clear_core.specs.declared.event.Raise.{Raise};
ghost use Rattle.clear_top.specs.Meaning.{Settles, bounds_report, clear_text, shown_of};
ghost use Rattle.clear_top.specs.Meaning.{summary_report};
ghost use Rattle.clear_top.specs.Outcome.{with_journal};
ghost use Rattle.clr_net.specs.Lines.{line};
ghost use Rattle.raise_journal.specs.Texts.{journal_header, rounds_line};
ghost use Rattle.settle.specs.Runs.{IsSettled};
ghost use Rattle.std.specs.Prelude.{◌≡◌, ◌++◌, [], IfOk, List, None, Some};

use crate::outcome::Outcome;
use clear_report::{
    bounds_text, least_default_text, least_standings, pay_text, rounds_text, summary_text,
};
use clear_words::{Job, Show, Task};
use clr_edge::{Gate, Text};
use clr_net::{MAX_BANKS, Mem, Network};
use raise_journal::journal_head;
use settle::{Engine, Settled};
use std::alloc::Global;
use upper::{Upper, upper};

// What is shown of a run: a text, and where the journal of the record is to be written below it,
// the line that closes it.
#[derive(Drop)]
struct Showing {
    text: Text,
    closing: Option<Text>,
}

/// What a run from nothing paid comes to: its record, and what a job asks to be shown. `Mem` is
/// want of memory.
pub fn outcome_of<G: Gate>(
    engine: &Engine<'_, G>,
    settled: Settled,
    job: &Job,
) -> Result<Outcome, Mem>
    requires { IsSettled settled.sealed.net [] engine.now.plan settled }
    ensures { IfOk result (Settles settled.sealed.net engine.now.plan
        (shown_of job.now.task job.now.show settled.sealed.net)) }
{
    let Settled {
        paid,
        sealed,
        rounds,
        ..
    } = settled;
    let net = sealed.net();
    prove!(net.banks() <= MAX_BANKS);
    let Showing { text, closing } = shown(engine.alloc, net, job, paid.as_slice(), rounds)?;
    Ok(Outcome::with_record(sealed, text, closing))
}

// What is shown of a run, by the task: a row for each that clears on one board.
fn shown(alloc: Global, net: &Network, job: &Job, paid: &[u64], rounds: u64) -> Result<Showing, Mem>
    requires { paid.now ≡ least net.now }
    ensures { IfOk result (λ s. (journal : List Raise)
        → with_journal net.now journal s.text s.closing
        ≡ shown_of job.now.task job.now.show net.now journal rounds) }
{
    match job.task {
        Task::Defaults => alone(alloc, least_default_text(alloc, net, paid)?),
        Task::Gen => alone(alloc, summary_of(alloc, net, paid)?),
        Task::Bounds => alone(alloc, bounds_of(alloc, net, paid)?),
        _ => cleared(alloc, net, job.show, paid, rounds),
    }
}

// What clearing shows.
fn cleared(
    alloc: Global,
    net: &Network,
    show: Show,
    paid: &[u64],
    rounds: u64,
) -> Result<Showing, Mem>
    requires { paid.now ≡ least net.now }
    ensures { IfOk result (λ s. (journal : List Raise)
        → with_journal net.now journal s.text s.closing
        ≡ clear_text show net.now journal rounds) }
{
    match show {
        Show::Payments => alone(alloc, pay_text(alloc, net, paid)?),
        Show::Journal => above_journal(alloc, Text::empty(alloc), rounds),
        Show::Both => {
            let mut text = Text::of(alloc, pay_text(alloc, net, paid)?)?;
            text.add_line(alloc)?;
            above_journal(alloc, text, rounds)
        }
    }
}

// A text alone.
fn alone(alloc: Global, piece: Vec<u8>) -> Result<Showing, Mem>
    ensures { IfOk result (λ s. s ≡ record { text = piece.items; closing = None }) }
{
    Ok(Showing {
        text: Text::of(alloc, piece)?,
        closing: None,
    })
}

// A text, and below it a journal of so many rounds.
fn above_journal(alloc: Global, text: Text, rounds: u64) -> Result<Showing, Mem>
    ensures { IfOk result (λ s. s ≡ record {
      text = text ++ line journal_header;
      closing = Some (rounds_line rounds);
    }) }
{
    let mut text = text;
    text.add(Vec::from_slice(alloc, journal_head())?)?;
    let closing = Text::of(alloc, rounds_text(alloc, rounds)?)?;
    Ok(Showing {
        text,
        closing: Some(closing),
    })
}

// The summary of a network and of its least payments.
fn summary_of(alloc: Global, net: &Network, paid: &[u64]) -> Result<Vec<u8>, Mem>
    requires { paid.now ≡ least net.now }
    ensures { IfOk result (λ text. text.items ≡ summary_report net.now) }
{
    let standings = least_standings(alloc, net, paid)?;
    summary_text(alloc, net, paid, standings.as_slice())
}

// The text of the least and the greatest payments that clear, of waves and gridlock.
fn bounds_of(alloc: Global, net: &Network, paid: &[u64]) -> Result<Vec<u8>, Mem>
    requires { paid.now ≡ least net.now }
    ensures { IfOk result (λ text. text.items ≡ bounds_report net.now) }
{
    let standings = least_standings(alloc, net, paid)?;
    let Upper { greatest, waves } = upper(alloc, net)?;
    bounds_text(
        alloc,
        net,
        paid,
        greatest.as_slice(),
        waves.as_slice(),
        standings.as_slice(),
    )
}
