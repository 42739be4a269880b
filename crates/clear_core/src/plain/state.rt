//! The process event by event, for whoever calls the crate. The program makes the events on boards.
ghost use Rattle.clear_core.specs.Buffers.{HasRoom};
ghost use Rattle.clear_core.specs.Process.{IsBelowLeast, IsLegal, IsOver, allowed as allowed_on};
ghost use Rattle.clear_core.specs.Process.{debt_of, opening, step};
ghost use Rattle.std.specs.Prelude.{◌≡◌, ◌<◌, IfErr, IfOk, OnErr, OnOk, length, slice_index};

use crate::allowed::allowed_of;
use crate::event::{Event, Illegal};
use crate::scratch::Scratch;
use clr_net::{Mem, Network};
use std::alloc::Global;
use std::marker::Model;

/// How far the process has come: two lists over the debts, in file order, what is paid on each debt
/// and what its creditor last saw paid on it, in units.
#[derive(Drop)]
pub struct State {
    paid: Vec<u64>,
    seen: Vec<u64>,
}

impl Model for State {
    ghost use Rattle.clear_core.specs.Buffers.{IsSound};
    ghost use Rattle.clear_core.specs.Process.{Progress};

    ghost Value = { Progress };

    ghost view = { λ s. record { paid = s.paid.items; seen = s.seen.items } };

    ghost invariant = { λ s. IsSound s.paid.items s.seen.items };
}

impl State {
    /// Nothing paid and nothing seen. `Mem` for want of memory alone.
    pub fn zeros(alloc: Global, net: &Network) -> Result<State, Mem>
        ensures { IfOk result (λ s. s ≡ opening net.now) }
    {
        let debts = net.debts() as usize;
        Ok(State {
            paid: vec![in alloc; 0; debts]?,
            seen: vec![in alloc; 0; debts]?,
        })
    }

    /// Makes one event happen, if it is legal; else `Illegal`, and the state stays as it was.
    ///
    /// A load is always legal, and shows a debt's creditor what is paid on it. A raise is legal if
    /// it pays more on a debt, and no more than its debtor's rule gives it from cash and from what
    /// the debtor has seen paid to itself, less what it owes outside the network. Takes no memory.
    pub fn apply(
        &mut self,
        net: &Network,
        event: Event,
        scratch: &mut Scratch,
    ) -> Result<(), Illegal>
        requires over { IsOver net.now self.old }
        requires debt { debt_of event < length net.now.debts }
        requires room { HasRoom net.now scratch.old }
        ensures legal { OnOk result (IsLegal net.now self.old event) }
        ensures illegal { OnErr result (¬ (IsLegal net.now self.old event)) }
        ensures step { OnOk result (self.new ≡ step self.old event) }
        ensures unchanged { OnErr result (self.new ≡ self.old) }
        ensures had { IfErr result (λ e. e.had ≡ slice_index self.old.paid (debt_of event)) }
        ensures allowed { IfErr result
            (λ e. e.allowed ≡ allowed_on net.now self.old (debt_of event)) }
        ensures over { IsOver net.now self.new }
        ensures below { IsBelowLeast net.now self.old → IsBelowLeast net.now self.new }
        ensures room { scratch.new ≡ scratch.old }
    {
        match event {
            Event::Load(debt) => {
                self.seen[debt.0 as usize] = self.paid[debt.0 as usize];
                Ok(())
            }
            Event::Raise(debt, to) => {
                prove!(debt.0 < net.debts());
                let had = self.paid[debt.0 as usize];
                let allowed = allowed_of(net, debt, self.seen.as_slice(), scratch);
                if had < to && to <= allowed {
                    self.paid[debt.0 as usize] = to;
                    Ok(())
                } else {
                    Err(Illegal { had, allowed })
                }
            }
        }
    }

    /// What is paid on each debt, in file order, in units.
    pub fn paid(&self) -> &[u64]
        ensures { result.now ≡ self.now.paid }
    {
        self.paid.as_slice()
    }

    /// What the creditor of each debt last saw paid on it, in file order, in units.
    pub fn seen(&self) -> &[u64]
        ensures { result.now ≡ self.now.seen }
    {
        self.seen.as_slice()
    }
}
