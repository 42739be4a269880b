// What a ruin does, by how banks stand before and after it.
ghost use Rattle.cascade.specs.Ruin.{hit};
ghost use Rattle.cascade.specs.Standings.{is_sound, standings};
ghost use Rattle.clear_core.specs.Clearing.{least};
ghost use Rattle.clr_net.specs.Limits.{IsNetwork};
ghost use Rattle.clr_net.specs.Net.{cash_of};
ghost use Rattle.impact.specs.Impact.{IsImpactOf, fallen as fallen_of, falls_with, hurt_by};
ghost use Rattle.impact.specs.Impact.{hurt_to, is_hurt as is_hurt_by};
ghost use Rattle.std.specs.Prelude.{◌≡◌, ◌==◌, ◌&&◌, ◌+◌, ◌<◌, ◌≤◌, IfOk, length, not};

use crate::hurt::{Hurt, Impact};
use cascade::{Health, Standing};
use clr_net::{BankId, Mem, Network};
use std::alloc::Global;

// The ruin of a bank: how all banks stand under the least payments before it, and after it.
#[derive(Drop)]
pub(crate) struct Ruin<'a> {
    pub(crate) net: &'a Network,
    pub(crate) before: &'a [Standing],
    pub(crate) after: &'a [Standing],
    pub(crate) ruined: BankId,
    ghost known: { ruined.0 < length net.now.banks },
    ghost stood: { before.now ≡ standings net.now (least net.now) },
    ghost stands: { after.now ≡ standings (hit net.now ruined.0) (least (hit net.now ruined.0)) },
}

impl<'a> Ruin<'a> {
    // What it does. What others keep less is the rest of the cash that was lost.
    pub(crate) fn impact(&self, alloc: Global) -> Result<Impact, Mem>
        ensures impact { IfOk result (IsImpactOf self.now.net.now self.now.ruined.0) }
        ensures cash { IfOk result (λ m.
            m.own + m.others ≡ cash_of self.now.net.now self.now.ruined.0) }
    {
        prove!(self.ruined.0 < self.net.banks());
        let own = self.hurt_of(self.ruined).lost;
        Ok(Impact {
            own,
            others: self.net.bank(self.ruined).cash - own,
            falls: self.fallen(),
            hurts: self.hurts(alloc)?,
        })
    }

    // How many other banks fall.
    fn fallen(&self) -> u32
        ensures { result ≡ fallen_of self.now.net.now self.now.ruined.0 }
    {
        let mut count = 0;
        for number in 0..self.net.banks() {
            count += u32::from(self.has_fallen(BankId(number)));
        }
        count
    }

    // Whether a bank is another one, and falls.
    fn has_fallen(&self, bank: BankId) -> bool
        requires network { IsNetwork self.now.net.now }
        requires bank { bank.0 < length self.now.net.now.banks }
        ensures { result ≡ (not (bank.0 == self.now.ruined.0)
            && falls_with self.now.net.now self.now.ruined.0 bank.0) }
    {
        let hurt = self.hurt_of(bank);
        bank.0 != self.ruined.0 && hurt.falls
    }

    // Whom it hurts, in file order.
    fn hurts(&self, alloc: Global) -> Result<Vec<Hurt>, Mem>
        ensures { IfOk result (λ all. all.items ≡ hurt_by self.now.net.now self.now.ruined.0) }
    {
        let mut all = Vec::new(alloc);
        for number in 0..self.net.banks() {
            let hurt = self.hurt_of(BankId(number));
            if is_hurt(hurt) {
                all.push(hurt)?;
            }
        }
        Ok(all)
    }

    // What it does to one bank.
    fn hurt_of(&self, bank: BankId) -> Hurt
        requires network { IsNetwork self.now.net.now }
        requires bank { bank.0 < length self.now.net.now.banks }
        ensures { result ≡ hurt_to self.now.net.now self.now.ruined.0 bank.0 }
    {
        let place = bank.0 as usize;
        let was = self.before[place];
        let is = self.after[place];
        Hurt {
            bank,
            lost: kept(was) - kept(is),
            falls: falls(was.health, is.health),
        }
    }
}

// Whether a bank keeps less, or falls.
fn is_hurt(hurt: Hurt) -> bool
    ensures { result ≡ is_hurt_by hurt }
{
    hurt.lost > 0 || hurt.falls
}

// Whether a bank was sound, and is no longer.
fn falls(was: Health, is: Health) -> bool
    ensures { result ≡ (is_sound was && not (is_sound is)) }
{
    was == Health::Sound && is != Health::Sound
}

// What a bank keeps: what is left to its owners, and what it pays outside.
fn kept(standing: Standing) -> u64
    requires { standing.equity + standing.outside_paid ≤ standing.estate }
    ensures { result ≡ standing.equity + standing.outside_paid }
{
    standing.equity + standing.outside_paid
}
