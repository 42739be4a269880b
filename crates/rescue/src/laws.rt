//! The laws of rescue, for any network within the limits. A law has nothing to run; its `ensures`
//! is proved.
ghost use Rattle.cascade.specs.MoreCash.{NobodyLoses};
ghost use Rattle.cascade.specs.Standings.{due};
ghost use Rattle.clear_core.specs.Clearing.{least, pay};
ghost use Rattle.clear_core.specs.Richer.{IsRicher};
ghost use Rattle.clear_core.specs.declared.event.Raise.{Raise};
ghost use Rattle.clr_net.specs.Amounts.{IsAtMost};
ghost use Rattle.clr_net.specs.Limits.{IsNetwork};
ghost use Rattle.clr_net.specs.Net.{Net, cash_of};
ghost use Rattle.pay_words.specs.Belongs.{Belongs};
ghost use Rattle.pay_words.specs.declared.payment.Payment.{Payment};
ghost use Rattle.rescue.specs.Bound.{bound, missing, received_with};
ghost use Rattle.rescue.specs.OneUnit.{CountsOnce};
ghost use Rattle.rescue.specs.Rescue.{IsRescue, Saves, added, rescue};
ghost use Rattle.std.specs.Prelude.{◌≡◌, ◌-◌, ◌<◌, ◌≤◌, ℕ, List, length};

/// With more cash at a bank no bank pays less on any debt, whatever it receives.
pub fn cash_makes_no_bank_pay_less()
    ensures { (net : Net) (i a : ℕ) → IsRicher net (added net i a) }
{}

/// What was lawful before a bank was given cash is lawful after: a board may begin with what a run
/// left, and go on.
pub fn finished_run_goes_on_after_cash_is_added()
    ensures { (net : Net) (start : List Payment) (past : List Raise) (i a : ℕ)
        → Belongs net start past → Belongs (added net i a) start past }
{}

/// The least payments that clear before are on the way to those that clear after: at or below them,
/// and such that all banks would pay no less.
pub fn least_payments_go_on_after_cash_is_added()
    ensures { (net : Net) (i a : ℕ) → IsAtMost (least net) (pay (added net i a) (least net))
        × IsAtMost (least net) (least (added net i a)) }
{}

/// A sum greater than one that saves a bank saves it too.
pub fn greater_sum_saves_too()
    ensures { (net : Net) (i a b : ℕ) → IsNetwork net → a ≤ b → Saves net i a → Saves net i b }
{}

/// Cash that is added hurts nobody: no debt is paid less under the least payments, no bank has less
/// or keeps less, and the sound stay sound.
pub fn cash_added_hurts_nobody()
    ensures { (net : Net) (i a : ℕ) → IsNetwork net → NobodyLoses net (added net i a) }
{}

/// Each bank has a least sum that saves it, which is at most what the bank owes above its cash.
pub fn there_is_a_least_sum()
    ensures { (net : Net) (i : ℕ) → IsNetwork net → i < length net.banks
        → IsRescue net i (rescue net i) × (rescue net i ≤ due net i - cash_of net i) }
{}

/// And only one.
pub fn least_sum_is_the_only_one()
    ensures { (net : Net) (i a b : ℕ) → IsRescue net i a → IsRescue net i b → a ≡ b }
{}

/// One unit more at a bank is kept once, by one bank or another, however often it is paid on: no
/// payment changes exactly where the bank is sound or still owes the unit outside, and else all
/// payments together rise.
pub fn unit_counts_once()
    ensures { (net : Net) (i : ℕ) → IsNetwork net → i < length net.banks → CountsOnce net i }
{}

/// Whatever sum it is given, a bank receives at most what it receives where it has cash enough to pay
/// all that it owes. So a sum that saves it is at least what it owes above its cash and these
/// receipts.
pub fn no_sum_below_the_bound_saves()
    ensures { (net : Net) (i a : ℕ) → IsNetwork net → i < length net.banks
        → (received_with net i a ≤ received_with net i (missing net i))
        × (Saves net i a → bound net i ≤ a) }
{}
