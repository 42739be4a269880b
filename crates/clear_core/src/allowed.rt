ghost use Rattle.clear_core.specs.Buffers.{AreInLimit, HasRoom};
ghost use Rattle.clear_core.specs.Clearing.{part, pay, receipts as receipts_in};
ghost use Rattle.clr_net.specs.Net.{debtor_of, place_in_row as place_of, row as row_of};
ghost use Rattle.std.specs.Prelude.{◌≡◌, ◌*◌, ◌<◌, length, slice_index};

use crate::receipts::receipts_of;
use crate::scratch::Scratch;
use clr_net::{BankId, DebtId, Network};

/// The most that may be paid on a debt, in units, by its debtor's rule and by what the debtor has
/// seen paid to itself.
///
/// `seen` has a place for each debt, in file order, in units. Takes no memory.
pub fn allowed_of(net: &Network, debt: DebtId, seen: &[u64], scratch: &mut Scratch) -> u64
    requires debt { debt.0 < length net.now.debts }
    requires over { length seen.now ≡ length net.now.debts }
    requires in_limit { AreInLimit seen.now }
    requires room { HasRoom net.now scratch.old }
    ensures allowed { result ≡ part net.now debt.0
        (receipts_in net.now seen.now (debtor_of net.now debt.0)) }
    ensures pays { result ≡ slice_index (pay net.now seen.now) debt.0 }
    ensures room { scratch.new ≡ scratch.old }
{
    prove!(debt.0 < net.debts());
    let debtor = net.debt(debt).debtor;
    let receipts = receipts_of(net, debtor, seen);
    let place = place_in_row(net, debtor, debt);
    scratch.award_at(net, debtor, receipts, place)
}

// The place of a debt in its debtor's row.
fn place_in_row(net: &Network, debtor: BankId, debt: DebtId) -> usize
    requires debt { debt.0 < length net.now.debts }
    requires debtor { debtor.0 ≡ debtor_of net.now debt.0 }
    requires bank { debtor.0 < length net.now.banks }
    ensures place { result ≡ place_of net.now debt.0 }
    ensures in_row { result < length (row_of net.now debtor.0) }
{
    for (place, id) in net.row(debtor).iter().enumerate() {
        if *id == debt {
            return place;
        }
    }
    unreachable!()
}
