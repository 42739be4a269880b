//! The least cash of a share, laid into a copy of the network, and the widest share that has enough.
ghost use Rattle.cascade.specs.MoreCash.{IsOfOtherCash};
ghost use Rattle.clr_net.specs.Limits.{IsNetwork};
ghost use Rattle.descent.specs.Cashes.{IsCashOf, with_cashes};
ghost use Rattle.descent.specs.Halves.{HasEnough, twice_as_wide};
ghost use Rattle.std.specs.Prelude.{◌≡◌, ◌+◌, ◌<◌, ◌≤◌, IfOk};

use crate::floors::Floors;
use crate::share::Share;
use clr_net::{BankId, Mem, Network};
use std::alloc::Global;

// Where the widest share that begins at a number and has cash enough ends. It is made wider twofold
// at a time. The cash is laid into a copy of the network, which has the sum of it.
pub(crate) fn widest<F: Floors>(net: &Network, floors: &F, number: u32, laid: &mut Network) -> u32
    requires network { IsNetwork net.now }
    requires of { F.of floors.now net.now }
    requires number { number < F.size floors.now net.now }
    requires alike { IsOfOtherCash net.now laid.old }
    ensures some { number < result }
    ensures share { result ≤ F.size floors.now net.now }
    ensures enough { HasEnough net.now (F.floors floors.now net.now) number result }
    ensures widest { result < F.size floors.now net.now
        → HasEnough net.now (F.floors floors.now net.now) number
        (twice_as_wide number result (F.size floors.now net.now)) → ⊥ }
    ensures alike { IsOfOtherCash net.now laid.new }
{
    let all = floors.count(net);
    let one = Share {
        low: number,
        high: number + 1,
    };
    lay_in(net, floors, one, laid);
    let own = laid.cash_total();
    let mut high = number + 1;
    while high < all {
        let wider = high + (high - number).min(all - high);
        let share = Share {
            low: number,
            high: wider,
        };
        lay_in(net, floors, share, laid);
        if 3 * laid.cash_total() < 2 * own {
            break;
        }
        high = wider;
    }
    high
}

// Gives each bank of a copy the least cash that it has in a share of the networks.
pub(crate) fn lay_in<F: Floors>(net: &Network, floors: &F, share: Share, laid: &mut Network)
    requires network { IsNetwork net.now }
    requires of { F.of floors.now net.now }
    requires some { share.low < share.high }
    requires share { share.high ≤ F.size floors.now net.now }
    requires alike { IsOfOtherCash net.now laid.old }
    ensures network { IsNetwork laid.new }
    ensures laid { laid.new
        ≡ with_cashes net.now (F.floors floors.now net.now share.low share.high) }
    ensures alike { IsOfOtherCash net.now laid.new }
{
    for number in 0..net.banks() {
        let bank = BankId(number);
        laid.set_cash(bank, floors.floor(net, share.low, share.high, bank));
    }
    prove!(laid.banks() == net.banks());
}

// The cash of each bank of a copy in which that of a share is laid. None is listed for a share of one
// network, from which no clearing goes on.
pub(crate) fn cash_in(alloc: Global, laid: &Network, share: Share) -> Result<Vec<u64>, Mem>
    requires { share.low < share.high }
    ensures { IfOk result (λ cash. share.low + 1 < share.high → IsCashOf laid.now cash.items) }
{
    if share.high - share.low == 1 {
        return Ok(Vec::new(alloc));
    }
    cash_of_all(alloc, laid)
}

// The cash of each bank, in units.
fn cash_of_all(alloc: Global, net: &Network) -> Result<Vec<u64>, Mem>
    ensures { IfOk result (λ cash. IsCashOf net.now cash.items) }
{
    let mut cash = Vec::with_capacity(alloc, net.banks() as usize)?;
    for number in 0..net.banks() {
        cash.push(net.bank(BankId(number)).cash)?;
    }
    Ok(cash)
}
