//! The least cut of all cash that breaks each bank.
ghost use Rattle.cascade.specs.Standings.{bank_numbers, health_of};
ghost use Rattle.clear_core.specs.Buffers.{HasRoom};
ghost use Rattle.clear_core.specs.Clearing.{Clears, zeros};
ghost use Rattle.clear_core.specs.Sums.{HaveSums};
ghost use Rattle.std.specs.Prelude.{◌≡◌, ◌+◌, ◌<◌, ◌≤◌, ◌==◌, ℕ, IfOk, length, if◌then◌else◌, map};
ghost use Rattle.std.specs.Prelude.{replicate, slice_index_or};
ghost use Rattle.stress.specs.Breaking.{breaking_within as within, unbroken};
ghost use Rattle.stress.specs.Breaking.{joined as joined_of, noted as noted_of};
ghost use Rattle.stress.specs.declared.TheConstants.{MAX_CUT};

use crate::MAX_CUT;
use crate::shock::cut_cash;
use cascade::{Health, due, worth};
use clear_core::{Payments, Scratch};
use clear_least::least_again;
use clr_net::{BankId, MAX_BANKS, Mem, Network};
use std::alloc::Global;

/// The least cut that breaks a bank, per mille, and how the bank stands at it.
#[derive(Clone, Copy, Debug, PartialEq, Eq)]
pub struct Broken {
    /// One more than the greatest cut where none breaks the bank.
    pub cut: u32,
    /// Sound where no cut breaks the bank.
    pub health: Health,
}

/// The least cut of all cash that breaks each bank, and how the bank stands at it, in file order, by
/// the cuts from `low` up to below `high` alone: `low` of a bank that smaller cuts break too, and
/// `high`, and sound, of one that none of these breaks.
///
/// A bank is broken where it does not pay all that it owes, under the least payments that clear
/// (Eisenberg and Noe 2001) once each bank has lost the cut. Shares of the cuts may be gone through
/// side by side, and put together by [`joined`]. `Mem` for want of memory alone.
///
/// Goes down from the greatest cut, on one copy of the network. A smaller cut lowers no payment, so
/// each clearing goes on from the payments of the one before; and it breaks no bank that was sound,
/// so only the others pay anew and are looked at.
pub fn breaking_within(
    alloc: Global,
    net: &Network,
    low: u32,
    high: u32,
) -> Result<Vec<Broken>, Mem>
    requires range { low ≤ high }
    requires high { high ≤ MAX_CUT + 1 }
    ensures { IfOk result (λ all.
        all.items ≡ map (within low high net.now) (bank_numbers net.now)) }
{
    let none = Broken {
        cut: high,
        health: Health::Sound,
    };
    let mut all = vec![in alloc; none; net.banks() as usize]?;
    let mut room = Room::of(alloc, net)?;
    go_down(net, low, high, &mut room, all.as_mut_slice());
    Ok(all)
}

// What it takes to go down from cut to cut, beside what is known of each bank.
#[derive(Drop)]
struct Room {
    marks: Vec<bool>,
    // The least payments after the last cut, and none before any.
    payments: Payments,
    scratch: Scratch,
    // What the last cut left.
    left: Network,
}

impl Room {
    // What the first cut finds.
    fn of(alloc: Global, net: &Network) -> Result<Room, Mem>
        ensures marks { IfOk result (λ room. length room.marks.items ≡ length net.now.banks) }
        ensures paid { IfOk result (λ room. room.payments.paid ≡ zeros net.now) }
        ensures sums { IfOk result (λ room. HaveSums net.now room.payments) }
        ensures scratch { IfOk result (λ room. HasRoom net.now room.scratch) }
        ensures left { IfOk result (λ room. room.left ≡ net.now) }
    {
        let marks = vec![in alloc; true; net.banks() as usize]?;
        let payments = Payments::none(alloc, net)?;
        let scratch = Scratch::of(alloc, net)?;
        Ok(Room {
            marks,
            payments,
            scratch,
            left: net.copy(alloc)?,
        })
    }
}

// Goes down through the cuts, from the greatest below `high` to `low`, where none is known to break
// a bank, and tells of each bank what they do.
fn go_down(net: &Network, low: u32, high: u32, room: &mut Room, all: &mut [Broken])
    requires range { low ≤ high }
    requires high { high ≤ MAX_CUT + 1 }
    requires unbroken { all.old ≡ replicate (length net.now.banks) (unbroken high) }
    requires marks { length room.old.marks.items ≡ length net.now.banks }
    requires paid { room.old.payments.paid ≡ zeros net.now }
    requires sums { HaveSums net.now room.old.payments }
    requires scratch { HasRoom net.now room.old.scratch }
    requires left { room.old.left ≡ net.now }
    ensures { all.new ≡ map (within low high net.now) (bank_numbers net.now) }
{
    for step in 0..high - low {
        let cut = high - step - 1;
        cut_cash(net, cut, &mut room.left);
        prove!(room.left.banks() <= MAX_BANKS);
        mark_broken(all, cut + 1, room.marks.as_mut_slice());
        least_again(
            &room.left,
            &mut room.payments,
            room.marks.as_mut_slice(),
            &mut room.scratch,
        );
        note(&room.left, &room.payments, cut, all);
    }
}

/// What [`breaking_within`] tells by the cuts of two shares, put together: by those below `middle`,
/// and by those from it on. Takes no memory.
pub fn joined(middle: u32, lower: Vec<Broken>, upper: &[Broken]) -> Vec<Broken>
    requires { length lower.items ≡ length upper.now }
    ensures { result.items ≡ joined_of middle lower.items upper.now }
{
    let mut all = lower;
    for (place, known) in upper.iter().enumerate() {
        all[place] = told_by(middle, all[place], *known);
    }
    all
}

// What is told of a bank by the cuts from `middle` on, where none below breaks it, and else by those.
fn told_by(middle: u32, lower: Broken, upper: Broken) -> Broken
    ensures { result ≡ (if lower.cut == middle then upper else lower) }
{
    if lower.cut == middle { upper } else { lower }
}

// Marks the banks that the last cut broke.
fn mark_broken(all: &[Broken], last: u32, marks: &mut [bool])
    requires { length marks.old ≡ length all.now }
    ensures { marks.new ≡ map (λ known. known.cut == last) all.now }
{
    for (place, known) in all.iter().enumerate() {
        marks[place] = known.cut == last;
    }
}

// Notes which of the banks that the last cut broke are broken by this one too, which is one less,
// and how they stand.
fn note(left: &Network, payments: &Payments, cut: u32, all: &mut [Broken])
    requires clears { Clears left.now payments.now.paid }
    requires sums { HaveSums left.now payments.now }
    requires banks { length all.old ≡ length left.now.banks }
    requires cut { cut ≤ MAX_CUT }
    ensures { (i : ℕ) (none : Broken) → i < length all.old → slice_index_or all.new i none
        ≡ noted_of left.now payments.now.paid cut i (slice_index_or all.old i none) }
{
    for number in 0..left.banks() {
        let place = number as usize;
        all[place] = noted(left, payments, cut, BankId(number), all[place]);
    }
}

// What is known of a bank after one cut more.
fn noted(left: &Network, payments: &Payments, cut: u32, bank: BankId, known: Broken) -> Broken
    requires clears { Clears left.now payments.now.paid }
    requires sums { HaveSums left.now payments.now }
    requires bank { bank.0 < length left.now.banks }
    requires cut { cut ≤ MAX_CUT }
    ensures { result ≡ noted_of left.now payments.now.paid cut bank.0 known }
{
    if known.cut != cut + 1 {
        return known;
    }
    let health = health_under(left, payments, bank);
    if health == Health::Sound {
        return known;
    }
    Broken { cut, health }
}

// How a bank stands under payments that clear.
fn health_under(net: &Network, payments: &Payments, bank: BankId) -> Health
    requires clears { Clears net.now payments.now.paid }
    requires sums { HaveSums net.now payments.now }
    requires bank { bank.0 < length net.now.banks }
    ensures { result ≡ health_of net.now payments.now.paid bank.0 }
{
    prove!(bank.0 < net.banks());
    let due = due(net, bank);
    let estate = net.bank(bank).cash + payments.sums[bank.0 as usize].received;
    if due <= estate {
        Health::Sound
    } else if worth(net, bank) < due {
        Health::Fundamental
    } else {
        Health::Contagion
    }
}
