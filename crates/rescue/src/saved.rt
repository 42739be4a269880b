ghost use Rattle.cascade.specs.MoreCash.{NobodyLoses};
ghost use Rattle.cascade.specs.Standings.{is_sound, standings};
ghost use Rattle.clear_core.specs.Clearing.{least as least_of};
ghost use Rattle.clear_core.specs.Sums.{HaveSums};
ghost use Rattle.clr_net.specs.Limits.{IsNetwork};
ghost use Rattle.clr_net.specs.Net.{cash_of};
ghost use Rattle.clr_net.specs.declared.TheConstants.{MAX_BANKS, MAX_CASH};
ghost use Rattle.rescue.specs.Rescue.{added as added_net, rescue as rescue_of};
ghost use Rattle.rescue.specs.Saved.{IsSavingOf, is_saved_with, rescued};
ghost use Rattle.rescue.specs.Searching.{IsSearchAt, IsSearchOf};
ghost use Rattle.std.specs.Prelude.{◌≡◌, ◌&&◌, ◌+◌, ◌<◌, ◌≤◌, IfOk, count_by, length, not};

use crate::banks::{BankTest, passing};
use crate::before::Before;
use crate::search::{Found, Search};
use cascade::{Health, Standing, defaults_by};
use clr_net::{BankId, Mem, Network};
use std::alloc::Global;

/// What saving a bank takes, and whom it saves besides.
#[derive(Drop)]
pub struct Saving {
    /// The least sum with which the bank pays all that it owes, in units.
    pub added: u64,
    /// What it lacks with one unit less, in units.
    pub short: u64,
    /// Which other banks are not sound, and are once the bank has the sum, in file order.
    pub saves: Vec<BankId>,
    /// How many banks are not sound then.
    pub still_short: u32,
}

/// The least sum that saves a bank, as [`rescue`](crate::rescue) finds it, and how all banks
/// stand once it is given.
///
/// `Mem` for want of memory alone, after which the search serves as before.
///
/// Costs what [`rescue`](crate::rescue) does, but for the copy of the network, and a walk over the
/// debts.
pub fn saving_of(
    alloc: Global,
    search: &mut Search,
    before: &Before<'_>,
    bank: BankId,
) -> Result<Saving, Mem>
    requires bank { bank.0 < length before.now.net.now.banks }
    requires search { IsSearchOf before.now.net.now search.old }
    ensures search { IsSearchOf before.now.net.now search.new }
    ensures saving { IfOk result (IsSavingOf before.now.net.now bank.0) }
    ensures nobody_loses { NobodyLoses before.now.net.now (rescued before.now.net.now bank.0) }
{
    prove!(bank.0 < before.net.banks());
    let saving = saving_at(alloc, search, before, bank);
    search.more.set_cash(bank, before.net.bank(bank).cash);
    saving
}

// The same, after which the bank may still have another cash.
fn saving_at(
    alloc: Global,
    search: &mut Search,
    before: &Before<'_>,
    bank: BankId,
) -> Result<Saving, Mem>
    requires network { IsNetwork before.now.net.now }
    requires bank { bank.0 < length before.now.net.now.banks }
    requires search { IsSearchOf before.now.net.now search.old }
    ensures search { IsSearchAt before.now.net.now bank.0 search.new }
    ensures saving { IfOk result (IsSavingOf before.now.net.now bank.0) }
{
    let found = search.found(alloc, before.net, bank, before.least)?;
    let after = standings_saved(alloc, before.net, search, bank, &found)?;
    let saved = SavedWith {
        before: before.standings,
        after: after.as_slice(),
        bank,
    };
    Ok(Saving {
        added: found.sum.added,
        short: found.sum.short,
        saves: passing(alloc, before.net, &saved)?,
        still_short: in_default(after.as_slice()),
    })
}

// How each bank stands once a bank has the sum that was found.
fn standings_saved(
    alloc: Global,
    net: &Network,
    search: &mut Search,
    bank: BankId,
    found: &Found,
) -> Result<Vec<Standing>, Mem>
    requires network { IsNetwork net.now }
    requires bank { bank.0 < length net.now.banks }
    requires search { IsSearchAt net.now bank.0 search.old }
    requires added { found.now.sum.added ≡ rescue_of net.now bank.0 }
    requires fits { cash_of net.now bank.0 + found.now.sum.added ≤ MAX_CASH }
    requires paid { found.now.payments.paid
        ≡ least_of (added_net net.now bank.0 found.now.sum.added) }
    requires sums { HaveSums net.now found.now.payments }
    ensures search { IsSearchAt net.now bank.0 search.new }
    ensures all { IfOk result (λ all. all.items
        ≡ standings (rescued net.now bank.0) (least_of (rescued net.now bank.0))) }
{
    search
        .more
        .set_cash(bank, net.bank(bank).cash + found.sum.added);
    defaults_by(alloc, &search.more, &found.payments)
}

// Whether a bank is saved with this one, where all banks stand so before and after.
#[derive(Drop)]
struct SavedWith<'a> {
    before: &'a [Standing],
    after: &'a [Standing],
    bank: BankId,
}

impl<'a> BankTest for SavedWith<'a> {
    ghost can = { λ t net. (t.before.now ≡ standings net (least_of net))
        × (t.after.now ≡ standings (rescued net t.bank.0) (least_of (rescued net t.bank.0))) };

    ghost passes = { λ t net. is_saved_with net t.bank.0 };

    fn test(&self, _net: &Network, other: BankId) -> bool {
        let place = other.0 as usize;
        let becomes_sound = is_cured(self.before[place].health, self.after[place].health);
        other.0 != self.bank.0 && becomes_sound
    }
}

// Whether a bank was in default, and is sound.
fn is_cured(was: Health, is: Health) -> bool
    ensures { result ≡ (not (is_sound was) && is_sound is) }
{
    was != Health::Sound && is == Health::Sound
}

// How many banks are not sound.
fn in_default(standings: &[Standing]) -> u32
    requires { length standings.now ≤ MAX_BANKS }
    ensures { result ≡ count_by (λ s. not (is_sound s.health)) standings.now }
{
    let mut count = 0;
    for standing in standings {
        count += u32::from(standing.health != Health::Sound);
    }
    count
}
