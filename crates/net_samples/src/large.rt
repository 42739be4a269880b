ghost use Rattle.net_samples.specs.declared.large.TheConstants.{MAX_WOVEN};
ghost use Rattle.std.specs.Prelude.{◌<◌, ◌≤◌};

use crate::{add_classed, add_ruled};
use clr_net::{Mem, Network, RuleKind};
use std::alloc::Global;

// The most banks round a circle: their names have three digits.
const MAX_WOVEN: u32 = 1_000;

// The six rules, in turn.
const RULES: [RuleKind; 6] = [
    RuleKind::Order,
    RuleKind::Equal,
    RuleKind::Losses,
    RuleKind::Jefferson,
    RuleKind::Webster,
    RuleKind::Adams,
];

// Adds debts, by debtor, creditor, class and claim.
fn add_debts(net: &mut Network, debts: &[(u32, u32, u8, u64)]) -> Result<(), Mem> {
    for (debtor, creditor, class, claim) in debts {
        add_classed(net, *debtor, *creditor, *class, *claim)?;
    }
    Ok(())
}

// Adds so many banks, which owe round a circle.
pub(crate) fn add_woven(alloc: Global, net: &mut Network, banks: u32) -> Result<(), Mem> {
    if banks < 8 || banks > MAX_WOVEN {
        return Err(Mem);
    }
    for number in 0..banks {
        add_woven_bank(alloc, net, number)?;
    }
    for number in 0..banks {
        add_debts(net, &woven_debts(number, banks))?;
    }
    Ok(())
}

// Adds one of these banks.
fn add_woven_bank(alloc: Global, net: &mut Network, number: u32) -> Result<(), Mem> {
    let name = [digit(number / 100), digit(number / 10), digit(number)];
    let bank = u64::from(number);
    let outside = if number % 5 == 0 { bank % 13 } else { 0 };
    let rule = RULES[number as usize % 6];
    add_ruled(alloc, net, &name, bank * 7_919 % 61, rule, outside)
}

// The debts of one of these banks.
fn woven_debts(number: u32, banks: u32) -> [(u32, u32, u8, u64); 3]
    requires few { banks ≤ MAX_WOVEN }
    requires enough { 8 ≤ banks }
    requires bank { number < banks }
{
    let bank = u64::from(number);
    let third = 1 + (number % 3) as u8;
    let ninth = 1 + (number % 9) as u8;
    let before = (number + banks - 3) % banks;
    [
        (number, (number + 1) % banks, 1, 20 + bank * 31 % 47),
        (number, (number + 7) % banks, third, 15 + bank * 17 % 29),
        (number, before, ninth, 10 + bank * 13 % 37),
    ]
}

// The last digit of a number, in ASCII.
fn digit(number: u32) -> u8 {
    b'0' + (number % 10) as u8
}
