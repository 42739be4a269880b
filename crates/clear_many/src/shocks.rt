//! The cash that scenarios leave.
ghost use Rattle.clear_many.specs.Shocked.{cash_row, cash_rows};
ghost use Rattle.std.specs.Prelude.{◌≡◌, All, IfOk, length};
ghost use Rattle.stress.specs.Shocks.{IsScenarioOf};

use clr_net::{Amounts, BankId, Mem, Network};
use descent::Table;
use std::alloc::Global;
use stress::{Scenario, shock_again};

// The cash that each scenario leaves at each bank.
pub(crate) fn cash_left(alloc: Global, net: &Network, scenarios: &[Scenario]) -> Result<Table, Mem>
    requires { All (IsScenarioOf net.now) scenarios.now }
    ensures { IfOk result (λ table. table.rows.items ≡ cash_rows net.now scenarios.now) }
{
    let mut left = net.copy(alloc)?;
    let mut rows = Vec::with_capacity(alloc, scenarios.len())?;
    for place in 0..scenarios.len() {
        shock_again(net, &scenarios[place], &mut left);
        rows.push(cash_of_all(alloc, &left)?)?;
    }
    Ok(Table { rows })
}

// The cash of each bank, in file order.
fn cash_of_all(alloc: Global, net: &Network) -> Result<Amounts, Mem>
    ensures { IfOk result (λ row. row ≡ cash_row net.now) }
{
    let mut row = Amounts::zeros(alloc, net.banks() as usize)?;
    write_cash(net, row.as_mut_slice());
    Ok(row)
}

// Writes down the cash of each bank.
fn write_cash(net: &Network, row: &mut [u64])
    requires { length row.old ≡ length net.now.banks }
    ensures { row.new ≡ cash_row net.now }
{
    for number in 0..net.banks() {
        row[number as usize] = net.bank(BankId(number)).cash;
    }
}
