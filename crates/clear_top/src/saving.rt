//! A bank saved with the least sum, and its network cleared from what was paid before.
ghost use Rattle.clear_core.specs.Clearing.{least};
ghost use Rattle.clear_report.specs.Rescues.{rescued_text};
ghost use Rattle.clear_top.specs.Runs.{Rescues};
ghost use Rattle.settle.specs.Runs.{IsSettled};
ghost use Rattle.settle.specs.declared.runs.Settled.{Settled};
ghost use Rattle.std.specs.Prelude.{◌≡◌, ◌<◌, [], IfOk, length};

use crate::outcome::Outcome;
use clear_core::Raise;
use clear_report::rescue_text;
use clr_edge::{Gate, Text};
use clr_net::{BankId, MAX_BANKS, Mem, Network};
use rescue::{Rescued, added, rescue};
use settle::{Engine, Settled, settle_owned};
use std::alloc::Global;
use std::thread::Threads;

/// Finds the least sum that saves a bank, adds it to the bank's cash, and goes on from the payments
/// that were made without it.
pub fn save<R: Threads + Sync, G: Gate + Sync>(
    rt: &R,
    engine: &Engine<'_, G>,
    net: Network,
    bank: BankId,
) -> Result<Outcome, Mem>
    requires { bank.0 < length net.banks }
    ensures { IfOk result (Rescues net engine.now.plan bank.0) }
{
    let Settled { paid, sealed, .. } = settle_owned(rt, engine, net, &[])?;
    save_after(
        rt,
        engine,
        sealed.net(),
        bank,
        paid.as_slice(),
        sealed.journal(),
    )
}

// Does so once the run without the sum is over: it made the least payments, by this journal.
fn save_after<R: Threads + Sync, G: Gate + Sync>(
    rt: &R,
    engine: &Engine<'_, G>,
    net: &Network,
    bank: BankId,
    least_paid: &[u64],
    past: &[Raise],
) -> Result<Outcome, Mem>
    requires bank { bank.0 < length net.now.banks }
    requires paid { least_paid.now ≡ least net.now }
    requires run { (first : Settled) × IsSettled net.now [] engine.now.plan first
        × (first.sealed.journal ≡ past.now) }
    ensures { IfOk result (Rescues net.now engine.now.plan bank.0) }
{
    let alloc = engine.alloc;
    prove!(net.banks() <= MAX_BANKS);
    let found = rescue(alloc, net, bank, least_paid)?;
    let saved = added(alloc, net, bank, found.added)?;
    prove!(saved.banks() <= MAX_BANKS);
    let Settled { paid, sealed, .. } = settle_owned(rt, engine, saved, past)?;
    let text = saved_text(alloc, net, bank, &found, paid.as_slice())?;
    Ok(Outcome::with_record(sealed, text, None))
}

// The text of what was found, with the payments.
fn saved_text(
    alloc: Global,
    net: &Network,
    bank: BankId,
    found: &Rescued,
    paid: &[u64],
) -> Result<Text, Mem>
    requires bank { bank.0 < length net.now.banks }
    requires over { length paid.now ≡ length net.now.debts }
    ensures { IfOk result (λ text. text
        ≡ rescued_text net.now bank.0 found.now.added found.now.short paid.now) }
{
    let text = rescue_text(alloc, net, bank, found, paid)?;
    Text::of(alloc, text)
}
