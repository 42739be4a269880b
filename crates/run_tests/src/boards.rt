//! Boards on which nothing is paid.
ghost use Rattle.pay_words.specs.Traces.{start_of};
ghost use Rattle.pay_words.specs.Views.{opening};
ghost use Rattle.pay_words.specs.Words.{unpaid as unpaid_word};
ghost use Rattle.std.specs.Prelude.{◌≡◌, ◌≤◌, IfOk, [], replicate};

use clr_net::{Mem, Network};
use pay_words::{Board, PaySeat, Payment};
use std::alloc::Global;

// A board for so many workers on which nothing is paid, and its master.
pub(crate) fn new_board(alloc: Global, net: &Network, workers: u32) -> Result<(Board, PaySeat), Mem>
    requires workers { (1 ≤ workers) × (workers ≤ 64) }
    ensures board { IfOk result (λ r. (r.0.net ≡ net.now) × (r.0.past ≡ [])
        × (r.0.table.workers ≡ workers)) }
    ensures master { IfOk result (λ r. (r.1.table ≡ r.0.table)
        × (r.1.shows ≡ opening net.now (start_of net.now []))) }
{
    let start = unpaid(alloc, net.debts() as usize)?;
    Board::make(alloc, net, workers, start.as_slice(), &[])
}

// As many debts on which nothing is paid.
fn unpaid(alloc: Global, debts: usize) -> Result<Vec<Payment>, Mem>
    ensures { IfOk result (λ ps. ps.items ≡ replicate debts unpaid_word) }
{
    let mut payments = Vec::new(alloc);
    payments.resize(debts, Payment { value: 0, stamp: 0 })?;
    Ok(payments)
}
