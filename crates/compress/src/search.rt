ghost use Rattle.clr_net.specs.Net.{Net, debtor_of as debtor_of_debt};
ghost use Rattle.clr_net.specs.declared.TheConstants.{MAX_BANKS};
ghost use Rattle.compress.specs.Walk.{ArePassed, IsReady, IsStep, LeadsOn, mark_of, numbers};
ghost use Rattle.compress.specs.Walk.{end_of as end_of_walk};
ghost use Rattle.compress.specs.declared.mark.Mark.TheVariants.{Done};
ghost use Rattle.compress.specs.Compression.{is_live as is_live_debt, rank_above};
ghost use Rattle.std.specs.Bool.{OnTrue};
ghost use Rattle.std.specs.Prelude.{◌≡◌, ◌≢◌, ◌<◌, ◌≤◌, ℕ, All, IfSome, MatchOption, length};
ghost use Rattle.std.specs.Prelude.{slice_index};

use crate::mark::Mark;
use crate::step::Step;
use clr_net::{BankId, DebtId, Network};

/// The bank that a walk back from a bank along debts has come to.
pub(crate) fn end_of(start: BankId, walk: &[Step]) -> BankId
    ensures { (net : Net) → All (IsStep net) walk.now
        → result.0 ≡ end_of_walk net start.0 (numbers walk.now) }
{
    let steps = walk.len();
    if steps == 0 {
        return start;
    }
    walk[steps - 1].debtor
}

/// Whether a step can be taken: its claim is above 0, and its debtor is not done.
pub(crate) fn is_open(step: Step, claims: &[u64], marks: &[Mark]) -> bool
    requires debt { step.debt.0 < length claims.now }
    requires debtor { step.debtor.0 < length marks.now }
    ensures claim { OnTrue result (0 < slice_index claims.now step.debt.0) }
    ensures debtor { OnTrue result (mark_of marks.now step.debtor.0 ≢ Done) }
{
    claims[step.debt.0 as usize] > 0 && !marks[step.debtor.0 as usize].is_done()
}

/// A step along a debt above 0 of a class to a bank, whose debtor is not done: the first in file
/// order from the bank's cursor on. The cursor is moved to it, or to the end of the column where
/// there is none.
pub(crate) fn next_back(
    net: &Network,
    class: u8,
    bank: BankId,
    claims: &[u64],
    marks: &[Mark],
    cursors: &mut [usize],
) -> Option<Step>
    requires bank { bank.0 < length net.now.banks }
    requires claims { length claims.now ≡ length net.now.debts }
    requires marks { length marks.now ≡ length net.now.banks }
    requires cursors { length cursors.old ≡ length net.now.banks }
    requires passed { ArePassed net.now class claims.now marks.now cursors.old }
    ensures next { MatchOption result (IsReady net.now class bank.0 claims.now marks.now)
        (λ step. LeadsOn net.now class bank.0 claims.now marks.now step.debt.0) }
    ensures step { IfSome result (IsStep net.now) }
    ensures cursors { length cursors.new ≡ length cursors.old }
    ensures passed { ArePassed net.now class claims.now marks.now cursors.new }
{
    prove!(bank.0 < net.banks());
    let column = net.column(bank);
    for place in cursors[bank.0 as usize]..column.len() {
        let id = column[place];
        let debtor = debtor_of(net, id);
        let done = marks[debtor.0 as usize].is_done();
        if is_live(net, class, id, claims) && !done {
            cursors[bank.0 as usize] = place;
            return Some(Step { debt: id, debtor });
        }
    }
    cursors[bank.0 as usize] = column.len();
    None
}

/// One more than the greatest number that a debtor has of a debt of a class above 0 to a bank, and
/// 0 where there is no such debt.
pub(crate) fn rank_here(
    net: &Network,
    class: u8,
    bank: BankId,
    claims: &[u64],
    ranks: &[u64],
) -> u64
    requires bank { bank.0 < length net.now.banks }
    requires claims { length claims.now ≡ length net.now.debts }
    requires ranks { length ranks.now ≡ length net.now.banks }
    requires low { (b : ℕ) → slice_index ranks.now b ≤ MAX_BANKS }
    ensures { result ≡ rank_above net.now claims.now (slice_index ranks.now) class bank.0 }
{
    prove!(bank.0 < net.banks());
    let mut most = 0;
    for id in net.column(bank) {
        let debtor = debtor_of(net, *id);
        if is_live(net, class, *id, claims) {
            most = (ranks[debtor.0 as usize] + 1).max(most);
        }
    }
    most
}

// The bank that owes a debt.
fn debtor_of(net: &Network, id: DebtId) -> BankId
    requires { id.0 < length net.now.debts }
    ensures debtor { result.0 ≡ debtor_of_debt net.now id.0 }
{
    net.debt(id).debtor
}

// Whether a debt is of a class and has a claim above 0.
fn is_live(net: &Network, class: u8, id: DebtId, claims: &[u64]) -> bool
    requires debt { id.0 < length net.now.debts }
    requires claims { length claims.now ≡ length net.now.debts }
    ensures { result ≡ is_live_debt net.now claims.now class id.0 }
{
    net.debt(id).class == class && claims[id.0 as usize] > 0
}
