//! The laws of journals, for any plain data. A law has nothing to run; its `ensures` is proved.
ghost use Rattle.clear_core.specs.Clearing.{Clears, least};
ghost use Rattle.clear_core.specs.History.{Stands, replayed};
ghost use Rattle.clear_core.specs.declared.event.Raise.{Raise};
ghost use Rattle.clr_net.specs.Limits.{IsNetwork};
ghost use Rattle.clr_net.specs.Net.{Net};
ghost use Rattle.net_check.specs.declared.TheConstants.{MAX_DIGITS};
ghost use Rattle.net_check.specs.declared.limits.Limits.{Limits};
ghost use Rattle.net_csv.specs.Printing.{KeepsNames};
ghost use Rattle.raise_journal.specs.ReadBack.{IsInLimits};
ghost use Rattle.raise_journal.specs.ReadJournal.{journal_within};
ghost use Rattle.raise_journal.specs.Texts.{journal_text, rounds_line};
ghost use Rattle.raise_journal.specs.Verdicts.{judged};
ghost use Rattle.raise_journal.specs.declared.verdict.Verdict.TheVariants as verdict;
ghost use Rattle.std.specs.Prelude.{◌≡◌, ◌<◌, ◌^◌, ◌↔◌, ℕ, Ok, ◌++◌, List};

/// A journal is lawful exactly where it stands and the payments that it replays to clear the
/// network.
#[tactic(auto, using(crate::proofs::Lawful::lawful_is))]
pub fn lawful_journals_stand_and_clear()
    ensures { (net : Net) (rs : List Raise) → IsNetwork net
        → ((judged net rs).verdict ≡ verdict.Lawful)
        ↔ (Stands net rs × Clears net (replayed net rs)) }
{}

/// A lawful journal pays the least clearing payments, whoever made it.
#[tactic(auto, using(crate::proofs::Lawful::lawful_pays_least))]
pub fn lawful_journals_pay_the_least()
    ensures { (net : Net) (rs : List Raise) → IsNetwork net
        → (judged net rs).verdict ≡ verdict.Lawful → (judged net rs).paid ≡ least net }
{}

/// What is printed of a journal is read back as that journal, where no name begins or ends with a
/// space, by any limits that the journal is within.
pub fn printed_journals_are_read_back()
    ensures { (by : Limits) (net : Net) (rs : List Raise) → IsNetwork net → KeepsNames net
        → IsInLimits by net rs → journal_within by net (journal_text net rs) ≡ Ok rs }
{}

/// So it is with a line of how many rounds there were after it, whatever number a file can have.
pub fn closed_journals_are_read_back()
    ensures { (by : Limits) (net : Net) (rs : List Raise) (rounds : ℕ) → IsNetwork net
        → KeepsNames net → IsInLimits by net rs → rounds < 10 ^ MAX_DIGITS
        → journal_within by net (journal_text net rs ++ rounds_line rounds) ≡ Ok rs }
{}
