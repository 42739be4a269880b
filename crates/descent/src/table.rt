//! Networks by a table of the cash that each bank has in each of them.
ghost use Rattle.clr_net.specs.declared.TheConstants.{MAX_CASH};
ghost use Rattle.descent.specs.Cashes.{IsTableOf, cash_in_row, lowest};
ghost use Rattle.std.specs.Prelude.{◌≡◌, ◌<◌, ◌≤◌, length};

use crate::floors::Floors;
use clr_net::{Amounts, BankId, Network};

/// Networks by the cash of their banks: a row for each network, which has a place for each bank, in
/// file order, in units.
#[derive(Drop)]
pub struct Table {
    pub rows: Vec<Amounts>,
}

impl Floors for Table {
    ghost of = { λ t net. IsTableOf net t.rows.items };

    ghost size = { λ t net. length t.rows.items };

    ghost floors = { λ t net low high i. lowest (cash_in_row t.rows.items i) low high };

    fn count(&self, _net: &Network) -> u32 {
        self.rows.len() as u32
    }

    fn floor(&self, net: &Network, low: u32, high: u32, bank: BankId) -> u64 {
        let mut least = cash_at(self, net, low, bank);
        for number in low + 1..high {
            least = least.min(cash_at(self, net, number, bank));
        }
        least
    }
}

// The cash of a bank in the network of this number.
fn cash_at(table: &Table, net: &Network, number: u32, bank: BankId) -> u64
    requires table { IsTableOf net.now table.now.rows.items }
    requires number { number < length table.now.rows.items }
    requires bank { bank.0 < length net.now.banks }
    ensures cash { result ≡ cash_in_row table.now.rows.items bank.0 number }
    ensures in_limit { result ≤ MAX_CASH }
{
    table.rows[number as usize].as_slice()[bank.0 as usize]
}
