//! Single events on the chain of three banks, and payments of it that are quiet.
//!
//! A network, a state and a buffer are each made in a function of their own round the next one. So
//! no function holds two values that are to be dropped where a step of it may fail: each of these
//! steps is a path to prove, with all that is dropped on it.

ghost use Rattle.clear_core.specs.Buffers.{HasRoom};
ghost use Rattle.clear_core.specs.Process.{IsOver, debt_of};
ghost use Rattle.clr_net.specs.Net.{claim_of};
ghost use Rattle.std.specs.Prelude.{◌≡◌, ◌<◌, ◌≤◌, IfOk, length, slice_index};

use crate::rows::{SHARES, by_units};
use clear_core::{Event, Illegal, Scratch, State, first_unquiet, is_quiet};
use clr_net::{BankId, DebtId, Mem, Network};
use std::alloc::Global;
use std::test::Fail;

// A owes B 10, and B owes C 9; A has 7 and B has 1.
fn chain_of_three(alloc: Global) -> Result<Network, Mem>
    ensures debts { IfOk result (λ net. length net.debts ≡ 2) }
    ensures first_claim { IfOk result (λ net. 7 ≤ claim_of net 0) }
    ensures second_claim { IfOk result (λ net. 8 ≤ claim_of net 1) }
{
    net_samples::chain(alloc)
}

// Whether an event is answered so. The steps of a test need no more of it than that the next one
// may follow.
fn is_answered(
    net: &Network,
    state: &mut State,
    scratch: &mut Scratch,
    event: Event,
    wanted: Result<(), Illegal>,
) -> bool
    requires over { IsOver net.now state.old }
    requires debt { debt_of event < length net.now.debts }
    requires room { HasRoom net.now scratch.old }
    ensures over { IsOver net.now state.new }
    ensures room { HasRoom net.now scratch.new }
{
    state.apply(net, event, scratch) == wanted
}

// Whether the second bank of the chain pays on what it has seen, and on no more; whether a raise
// lifts what is paid; and whether a load shows what is paid on its debt alone.
fn pays_on_the_seen(net: &Network, state: &mut State, scratch: &mut Scratch) -> bool
    requires over { IsOver net.now state.old }
    requires debts { length net.now.debts ≡ 2 }
    requires room { HasRoom net.now scratch.old }
{
    let (first, second) = (DebtId(0), DebtId(1));
    let too_much = Err(Illegal { had: 0, allowed: 1 });
    let no_more = Err(Illegal { had: 7, allowed: 7 });
    let early = is_answered(net, state, scratch, Event::Raise(second, 2), too_much);
    let raise = is_answered(net, state, scratch, Event::Raise(first, 7), Ok(()));
    let again = is_answered(net, state, scratch, Event::Raise(first, 7), no_more);
    let unseen = is_answered(net, state, scratch, Event::Raise(second, 8), too_much);
    let load = is_answered(net, state, scratch, Event::Load(first), Ok(()));
    let seen = is_answered(net, state, scratch, Event::Raise(second, 8), Ok(()));
    let reload = is_answered(net, state, scratch, Event::Load(first), Ok(()));
    let last = state.paid() == [7, 8].as_slice() && state.seen() == [7, 0].as_slice();
    early && raise && again && unseen && load && seen && reload && last
}

// The same from the first state on.
fn pays_from_nothing(alloc: Global, net: &Network, scratch: &mut Scratch) -> Result<bool, Mem>
    requires debts { length net.now.debts ≡ 2 }
    requires room { HasRoom net.now scratch.old }
{
    let mut state = State::zeros(alloc, net)?;
    Ok(pays_on_the_seen(net, &mut state, scratch))
}

// The same with a buffer of its own.
fn pays_alone(alloc: Global, net: &Network) -> Result<bool, Mem>
    requires { length net.now.debts ≡ 2 }
{
    let mut scratch = Scratch::of(alloc, net)?;
    pays_from_nothing(alloc, net, &mut scratch)
}

// The same of a new chain.
fn chain_pays(alloc: Global) -> Result<bool, Mem> {
    let net = chain_of_three(alloc)?;
    pays_alone(alloc, &net)
}

#[test]
fn a_bank_pays_on_what_it_has_seen(rt: HostRuntime) -> Result<(), Fail> {
    assert!(rt; chain_pays(rt.alloc())?);
    Ok(())
}

// The first bank that is not quiet where the two debts of a network are paid so, and whether none
// is.
fn quiet_at(net: &Network, scratch: &mut Scratch, paid: [u64; 2]) -> (Option<BankId>, bool)
    requires debts { length net.now.debts ≡ 2 }
    requires first { slice_index paid 0 ≤ claim_of net.now 0 }
    requires second { slice_index paid 1 ≤ claim_of net.now 1 }
    requires room { HasRoom net.now scratch.old }
    ensures room { HasRoom net.now scratch.new }
{
    let unquiet = first_unquiet(net, &paid, scratch);
    (unquiet, is_quiet(net, &paid, scratch))
}

// Whether payments of the chain that clear are quiet, and others not.
fn clearing_is_quiet(alloc: Global, net: &Network) -> Result<bool, Mem>
    requires debts { length net.now.debts ≡ 2 }
    requires first { 7 ≤ claim_of net.now 0 }
    requires second { 8 ≤ claim_of net.now 1 }
{
    let mut scratch = Scratch::of(alloc, net)?;
    let clears = quiet_at(net, &mut scratch, [7, 8]) == (None, true);
    let second_owes = quiet_at(net, &mut scratch, [7, 0]) == (Some(BankId(1)), false);
    let first_owes = quiet_at(net, &mut scratch, [0, 0]) == (Some(BankId(0)), false);
    Ok(clears && second_owes && first_owes)
}

// The same of a new chain.
fn chain_is_quiet(alloc: Global) -> Result<bool, Mem> {
    let net = chain_of_three(alloc)?;
    clearing_is_quiet(alloc, &net)
}

#[test]
fn payments_that_clear_are_quiet(rt: HostRuntime) -> Result<(), Fail> {
    assert!(rt; chain_is_quiet(rt.alloc())?);
    Ok(())
}

#[test]
fn an_estate_is_divided_by_each_rule(rt: HostRuntime) {
    let wrong = SHARES
        .iter()
        .position(|(row, awards)| by_units(*row) != *awards);
    assert_eq!(rt; wrong, None);
}
