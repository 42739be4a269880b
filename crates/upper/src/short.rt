ghost use Rattle.cascade.specs.Standings.{due as due_of};
ghost use Rattle.clear_core.specs.Buffers.{AreInLimit};
ghost use Rattle.clear_core.specs.Clearing.{estate};
ghost use Rattle.std.specs.Prelude.{◌≡◌, ◌<◌, ◌↔◌, IsTrue, length};
ghost use Rattle.upper.specs.Descent.{AreMarked, HaveEnough};

use crate::falls::Falls;
use cascade::due;
use clear_core::estate_of;
use clr_net::{BankId, Network};

// Gives each bank that has no wave yet, and less than all that it owes, this round as its wave.
// Looks only at the banks whose receipts fell in the last round.
pub(crate) fn mark_short(net: &Network, last: &Falls, paid: &[u64], round: u64, waves: &mut [u64])
    requires banks { length last.now ≡ length net.now.banks }
    requires paid { length paid.now ≡ length net.now.debts }
    requires paid_in_limit { AreInLimit paid.now }
    requires waves { length waves.old ≡ length net.now.banks }
    requires enough { HaveEnough net.now last.now paid.now waves.old }
    ensures { AreMarked net.now paid.now round waves.old waves.new }
{
    for bank in last.banks() {
        let place = bank.0 as usize;
        if waves[place] == 0 && is_short(net, *bank, paid) {
            waves[place] = round;
        }
    }
}

// Whether a bank has less than all that it owes, on its debts and outside.
fn is_short(net: &Network, bank: BankId, paid: &[u64]) -> bool
    requires bank { bank.0 < length net.now.banks }
    requires paid { length paid.now ≡ length net.now.debts }
    requires paid_in_limit { AreInLimit paid.now }
    ensures { IsTrue result ↔ (estate net.now paid.now bank.0 < due_of net.now bank.0) }
{
    prove!(bank.0 < net.banks());
    estate_of(net, bank, paid) < due(net, bank)
}
