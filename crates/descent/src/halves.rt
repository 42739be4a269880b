//! A descent: the least payments of many networks, by halves of them.
ghost use Rattle.cascade.specs.Standings.{standings};
ghost use Rattle.clear_core.specs.Clearing.{least};
ghost use Rattle.descent.specs.Cashes.{AreFloors, network_at, with_cashes};
ghost use Rattle.descent.specs.Halves.{HasEnough, IsDescentBy, IsDescentOf, IsPartOf, IsReady};
ghost use Rattle.descent.specs.Halves.{IsStepBy, twice_as_wide};
ghost use Rattle.std.specs.Prelude.{◌≡◌, ◌+◌, ◌<◌, ◌≤◌, ℕ, IfOk, OnOk};

use crate::floors::Floors;
use crate::laying::{cash_in, lay_in, widest};
use crate::marks::mark_richer;
use crate::share::Share;
use cascade::{Standing, defaults_by};
use clear_core::{Payments, Scratch};
use clear_least::{least_again, least_payments};
use clr_net::{Mem, Network};
use std::alloc::Global;

/// A descent through halves of many networks that differ in cash alone: the least payments with the
/// least cash of a share of them, of half of the share, of half of this, and so on; and what it
/// takes to clear.
#[derive(Drop)]
pub struct Descent {
    // A copy of the network, in which the least cash of the last share is laid.
    laid: Network,
    steps: Vec<Step>,
    marks: Vec<bool>,
    scratch: Scratch,
}

// The least payments with the least cash of a share of the networks.
#[derive(Drop)]
struct Step {
    share: Share,
    payments: Payments,
    // That cash of each bank, where the share has more than one network.
    cash: Vec<u64>,
}

impl Descent {
    /// A descent that has not begun. `Mem` for want of memory alone. Costs a copy of the network.
    pub fn of(alloc: Global, net: &Network) -> Result<Descent, Mem>
        ensures { (size : ℕ) (floor : ℕ → ℕ → ℕ → ℕ)
            → IfOk result (IsDescentOf net.now size floor) }
    {
        Ok(Descent {
            laid: net.copy(alloc)?,
            marks: vec![in alloc; false; net.banks() as usize]?,
            scratch: Scratch::of(alloc, net)?,
            steps: Vec::new(alloc),
        })
    }

    /// The network whose banks [`standings_at`](Descent::standings_at) told last, if it did not end in `Mem`.
    pub fn cleared(&self) -> &Network
        ensures { result.now ≡ self.now.laid }
    {
        &self.laid
    }

    /// How each bank stands under the least payments of the network of this number, in file order.
    /// `Mem` for want of memory alone, after which the descent serves as before.
    ///
    /// Any number may be asked for after any other. In order each clearing goes on from one with
    /// the least cash of twice as many networks, and first visits those banks alone that have more.
    /// A clearing begins from nothing paid only where the least cash of more networks would not
    /// come to two thirds of what its own network has: payments rise long where cash is scarce.
    ///
    /// Costs a look at each bank and at all that is owed to each bank in default, and for each step
    /// a list over the debts and one over the banks, which are copied.
    pub fn standings_at<F: Floors>(
        &mut self,
        alloc: Global,
        net: &Network,
        floors: &F,
        number: u32,
    ) -> Result<Vec<Standing>, Mem>
        requires ready { IsReady F.of F.size F.floors net.now floors.now self.old }
        requires floors { AreFloors (F.floors floors.now net.now) }
        requires number { number < F.size floors.now net.now }
        ensures descent { IsDescentBy F.size F.floors net.now floors.now self.new }
        ensures cleared { OnOk result (self.new.laid
            ≡ network_at net.now (F.floors floors.now net.now) number) }
        ensures all { IfOk result (λ all. all.items
            ≡ standings (network_at net.now (F.floors floors.now net.now) number)
            (least (network_at net.now (F.floors floors.now net.now) number))) }
    {
        let mut step = self.nearest(alloc, net, floors, number)?;
        while step.share.high - step.share.low > 1 {
            let half = step.share.half_with(number);
            let next = self.gone_on(alloc, net, floors, &step, half)?;
            self.steps.push(step)?;
            step = next;
        }
        defaults_by(alloc, &self.laid, &step.payments)
    }

    // The last step whose share has the number, taken out, without those after it; one that begins
    // at the number where none has. A share of one network is laid in.
    fn nearest<F: Floors>(
        &mut self,
        alloc: Global,
        net: &Network,
        floors: &F,
        number: u32,
    ) -> Result<Step, Mem>
        requires ready { IsReady F.of F.size F.floors net.now floors.now self.old }
        requires number { number < F.size floors.now net.now }
        ensures descent { IsDescentBy F.size F.floors net.now floors.now self.new }
        ensures step { IfOk result (IsStepBy F.size F.floors net.now floors.now) }
        ensures low { IfOk result (λ step. step.share.low ≤ number) }
        ensures high { IfOk result (λ step. number < step.share.high) }
        ensures laid { IfOk result (λ step. step.share.high ≤ step.share.low + 1 → self.new.laid
            ≡ with_cashes net.now (F.floors floors.now net.now step.share.low step.share.high)) }
    {
        while let Some(step) = self.steps.pop() {
            if step.share.low <= number && number < step.share.high {
                return Ok(step);
            }
        }
        self.begun(alloc, net, floors, number)
    }

    // The step of the widest share that begins at a number and has cash enough. It is cleared from
    // nothing paid.
    fn begun<F: Floors>(
        &mut self,
        alloc: Global,
        net: &Network,
        floors: &F,
        number: u32,
    ) -> Result<Step, Mem>
        requires ready { IsReady F.of F.size F.floors net.now floors.now self.old }
        requires number { number < F.size floors.now net.now }
        ensures descent { IsDescentBy F.size F.floors net.now floors.now self.new }
        ensures step { IfOk result (IsStepBy F.size F.floors net.now floors.now) }
        ensures low { IfOk result (λ step. step.share.low ≡ number) }
        ensures high { IfOk result (λ step. number < step.share.high) }
        ensures enough { IfOk result (λ step.
            HasEnough net.now (F.floors floors.now net.now) number step.share.high) }
        ensures widest { IfOk result (λ step. step.share.high < F.size floors.now net.now
            → HasEnough net.now (F.floors floors.now net.now) number
            (twice_as_wide number step.share.high (F.size floors.now net.now)) → ⊥) }
        ensures laid { IfOk result (λ step. self.new.laid
            ≡ with_cashes net.now (F.floors floors.now net.now step.share.low step.share.high)) }
    {
        let high = widest(net, floors, number, &mut self.laid);
        let share = Share { low: number, high };
        lay_in(net, floors, share, &mut self.laid);
        let payments = least_payments(alloc, &self.laid)?;
        Ok(Step {
            share,
            payments,
            cash: cash_in(alloc, &self.laid, share)?,
        })
    }

    // The step of a part of the share of a step: its clearing goes on.
    fn gone_on<F: Floors>(
        &mut self,
        alloc: Global,
        net: &Network,
        floors: &F,
        step: &Step,
        part: Share,
    ) -> Result<Step, Mem>
        requires ready { IsReady F.of F.size F.floors net.now floors.now self.old }
        requires floors { AreFloors (F.floors floors.now net.now) }
        requires step { IsStepBy F.size F.floors net.now floors.now step.now }
        requires part { IsPartOf part step.now.share }
        requires wide { step.now.share.low + 1 < step.now.share.high }
        ensures descent { IsDescentBy F.size F.floors net.now floors.now self.new }
        ensures step { IfOk result (IsStepBy F.size F.floors net.now floors.now) }
        ensures part { IfOk result (λ next. next.share ≡ part) }
        ensures laid { OnOk result (self.new.laid
            ≡ with_cashes net.now (F.floors floors.now net.now part.low part.high)) }
    {
        let mut payments = step.payments.copy(alloc)?;
        lay_in(net, floors, part, &mut self.laid);
        mark_richer(step.cash.as_slice(), &self.laid, self.marks.as_mut_slice());
        least_again(
            &self.laid,
            &mut payments,
            self.marks.as_mut_slice(),
            &mut self.scratch,
        );
        Ok(Step {
            share: part,
            payments,
            cash: cash_in(alloc, &self.laid, part)?,
        })
    }
}
