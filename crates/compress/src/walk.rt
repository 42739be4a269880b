ghost use Rattle.clr_net.specs.Limits.{IsNetwork};
ghost use Rattle.clr_net.specs.Net.{debtor_of};
ghost use Rattle.compress.specs.Walk.{IsAtRest, IsKept, IsReady, IsStep, IsUnderWay, LeadsOn};
ghost use Rattle.compress.specs.Walk.{end_of as end_of_walk, mark_of, numbers, steps_left};
ghost use Rattle.compress.specs.declared.mark.Mark.TheVariants.{Done, New};
ghost use Rattle.std.specs.Bool.{OnFalse, OnTrue};
ghost use Rattle.std.specs.Prelude.{◌≡◌, ◌<◌, [], IfOk, IfSome, MatchOption, OnOk, length, sum_by};

use crate::cancel::cancel;
use crate::mark::Mark;
use crate::search::{end_of, is_open, next_back, rank_here};
use crate::step::Step;
use clr_net::{BankId, Mem, Network};
use std::alloc::Global;

/// A walk from a bank back along debts of one class above 0, and what is known of each bank.
#[derive(Drop)]
pub(crate) struct Walk {
    /// The bank that it began at.
    pub start: BankId,
    /// Its steps: the debt of the first is owed to `start`, and that of each other to the debtor of
    /// the one before it.
    pub steps: Vec<Step>,
    /// A mark for each bank.
    pub marks: Vec<Mark>,
    /// How many debts of each bank's column need not be looked at again.
    pub cursors: Vec<usize>,
    /// The last step back from each bank, where there was one.
    pub heads: Vec<Option<Step>>,
    /// The number of each bank that is done.
    pub ranks: Vec<u64>,
}

impl Walk {
    /// No walk yet, with room for so many banks.
    pub fn of(alloc: Global, banks: usize) -> Result<Walk, Mem>
        ensures empty { IfOk result (λ walk. walk.steps.items ≡ []) }
        ensures marks { IfOk result (λ walk. length walk.marks.items ≡ banks) }
        ensures cursors { IfOk result (λ walk. length walk.cursors.items ≡ banks) }
        ensures heads { IfOk result (λ walk. length walk.heads.items ≡ banks) }
        ensures ranks { IfOk result (λ walk. length walk.ranks.items ≡ banks) }
    {
        Ok(Walk {
            start: BankId(0),
            marks: vec![in alloc; Mark::New; banks]?,
            cursors: vec![in alloc; 0; banks]?,
            heads: vec![in alloc; None; banks]?,
            ranks: vec![in alloc; 0; banks]?,
            steps: Vec::new(alloc),
        })
    }
}

/// Walks back from a bank along debts above 0 of a class, cancelling each cycle that it comes upon,
/// until the bank is done. Every bank that it comes to is done then.
pub(crate) fn walk_from(
    net: &Network,
    class: u8,
    start: BankId,
    claims: &mut [u64],
    walk: &mut Walk,
) -> Result<(), Mem>
    requires claims { length claims.old ≡ length net.now.debts }
    requires rest { IsAtRest net.now class claims.old walk.old }
    requires new { mark_of walk.old.marks.items start.0 ≡ New }
    ensures rest { OnOk result (IsAtRest net.now class claims.new walk.new) }
    ensures start { OnOk result (mark_of walk.new.marks.items start.0 ≡ Done) }
    ensures kept { OnOk result (IsKept net.now class claims.old claims.new walk.old.marks.items
        walk.new.marks.items) }
{
    prove!(start.0 < net.banks());
    walk.start = start;
    walk.marks[start.0 as usize] = Mark::Walked(0);
    loop {
        let end = end_of(start, walk.steps.as_slice());
        match step_back(net, class, claims, walk, end) {
            None => {
                if retire(net, class, claims, walk, end) {
                    return Ok(());
                }
            }
            Some(step) => match walk.marks[step.debtor.0 as usize] {
                Mark::Walked(place) => cancel(net, class, claims, walk, place, step.debt),
                _ => grow(net, class, claims, walk, step)?,
            },
        }
    }
}

// The step from the end of the walk: the last one from there where it can be taken again, and else
// the next by the bank's column. None where each debt above 0 to that bank is owed by one that is
// done.
fn step_back(net: &Network, class: u8, claims: &[u64], walk: &mut Walk, end: BankId) -> Option<Step>
    requires network { IsNetwork net.now }
    requires claims { length claims.now ≡ length net.now.debts }
    requires under_way { IsUnderWay net.now class claims.now walk.old }
    requires end { end.0 ≡ end_of_walk net.now walk.old.start.0 (numbers walk.old.steps.items) }
    ensures under_way { IsUnderWay net.now class claims.now walk.new }
    ensures start { walk.new.start ≡ walk.old.start }
    ensures steps { walk.new.steps ≡ walk.old.steps }
    ensures marks { walk.new.marks ≡ walk.old.marks }
    ensures next { MatchOption result (IsReady net.now class end.0 claims.now walk.old.marks.items)
        (λ step. LeadsOn net.now class end.0 claims.now walk.old.marks.items step.debt.0) }
    ensures step { IfSome result (IsStep net.now) }
{
    if let Some(step) = walk.heads[end.0 as usize] {
        if is_open(step, claims, walk.marks.as_slice()) {
            return Some(step);
        }
    }
    let marks = walk.marks.as_slice();
    let found = next_back(net, class, end, claims, marks, walk.cursors.as_mut_slice());
    walk.heads[end.0 as usize] = found;
    found
}

// The walk goes on by a debt to a new bank.
fn grow(net: &Network, class: u8, claims: &[u64], walk: &mut Walk, step: Step) -> Result<(), Mem>
    requires under_way { IsUnderWay net.now class claims.now walk.old }
    requires next { LeadsOn net.now class
        (end_of_walk net.now walk.old.start.0 (numbers walk.old.steps.items))
        claims.now walk.old.marks.items step.debt.0 }
    requires step { IsStep net.now step }
    requires new { mark_of walk.old.marks.items (debtor_of net.now step.debt.0) ≡ New }
    ensures under_way { OnOk result (IsUnderWay net.now class claims.now walk.new) }
    ensures start { OnOk result (walk.new.start ≡ walk.old.start) }
    ensures kept { OnOk result (IsKept net.now class claims.now claims.now walk.old.marks.items
        walk.new.marks.items) }
    ensures less { OnOk result (sum_by steps_left walk.new.marks.items
        < sum_by steps_left walk.old.marks.items) }
{
    walk.steps.push(step)?;
    walk.marks[step.debtor.0 as usize] = Mark::Walked(walk.steps.len());
    Ok(())
}

// The last bank of the walk is done and gets its number. Answers whether the walk was back at its
// start.
fn retire(net: &Network, class: u8, claims: &[u64], walk: &mut Walk, end: BankId) -> bool
    requires network { IsNetwork net.now }
    requires claims { length claims.now ≡ length net.now.debts }
    requires under_way { IsUnderWay net.now class claims.now walk.old }
    requires end { end.0 ≡ end_of_walk net.now walk.old.start.0 (numbers walk.old.steps.items) }
    requires ready { IsReady net.now class end.0 claims.now walk.old.marks.items }
    ensures under_way { OnFalse result (IsUnderWay net.now class claims.now walk.new) }
    ensures rest { OnTrue result (IsAtRest net.now class claims.now walk.new) }
    ensures done { OnTrue result (mark_of walk.new.marks.items walk.old.start.0 ≡ Done) }
    ensures start { walk.new.start ≡ walk.old.start }
    ensures kept { IsKept net.now class claims.now claims.now walk.old.marks.items
        walk.new.marks.items }
    ensures less { sum_by steps_left walk.new.marks.items < sum_by steps_left walk.old.marks.items }
{
    walk.ranks[end.0 as usize] = rank_here(net, class, end, claims, walk.ranks.as_slice());
    walk.marks[end.0 as usize] = Mark::Done;
    if walk.steps.is_empty() {
        return true;
    }
    walk.steps.pop();
    false
}
