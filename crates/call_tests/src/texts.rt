//! Texts that the program does not write in this form: put together from others.
use clear_report::{check_text, pay_text, scenario_text};
use clr_net::{Mem, Name, Network};
use net_samples::chain;
use std::alloc::Global;
use std::test::Fail;

const CHECKED: &[u8] = b"banks,3\ndebts,2\nowed,19\ncash,8\n\nthe banks\n\nthe debts\n";

const BLOCK: &[u8] =
    b"scenario,half\ndebtor,creditor,class,claim,paid\nA,B,1,10,7\nB,C,1,9,8\nthe defaults\n";

// Whether the block of a scenario on the chain is this.
fn is_block(alloc: Global, net: &Network, name: &Name, wanted: &[u8]) -> Result<bool, Mem> {
    if net.debts() != 2 {
        return Err(Mem);
    }
    let pay = pay_text(alloc, net, &[7, 8])?;
    let block = scenario_text(alloc, name, pay.as_slice(), b"the defaults\n")?;
    Ok(*block.as_slice() == *wanted)
}

#[test]
fn texts_are_put_together_from_others(rt: HostRuntime) -> Result<(), Fail> {
    let alloc = rt.alloc();
    let net = chain(alloc)?;
    let text = check_text(alloc, &net, b"the banks\n", b"the debts\n")?;
    assert_eq!(rt; text.as_slice(), CHECKED);
    let name = Name::of(alloc, b"half")?;
    assert!(rt; is_block(alloc, &net, &name, BLOCK)?);
    Ok(())
}
