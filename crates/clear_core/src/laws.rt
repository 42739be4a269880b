//! The laws of clearing, for any plain data. A law has nothing to run; its `ensures` is proved.
ghost use Rattle.clear_core.specs.Clearing.{Clears, IsLeast, least, pay, receipts, spend};
ghost use Rattle.clear_core.specs.History.{IsHistory, IsLawful, IsTraced, Stands, journal_from};
ghost use Rattle.clear_core.specs.History.{may_precede, ordered, raised_to, replayed};
ghost use Rattle.clear_core.specs.Process.{AreLegal, NeverPassesLeast, opening};
ghost use Rattle.clear_core.specs.Richer.{IsRicher};
ghost use Rattle.clear_core.specs.Rounds.{rounds_of};
ghost use Rattle.clear_core.specs.declared.event.Event.{Event};
ghost use Rattle.clear_core.specs.declared.event.Raise.{Raise};
ghost use Rattle.clr_net.specs.Amounts.{IsAtMost};
ghost use Rattle.clr_net.specs.Limits.{IsNetwork};
ghost use Rattle.clr_net.specs.Net.{Net, claims_of, row, units_owed};
ghost use Rattle.std.specs.List.Sorted.{IsPermutation};
ghost use Rattle.std.specs.Prelude.{◌≡◌, ◌+◌, ◌++◌, ◌∷◌, ◌<◌, ◌≤◌, [], All, true, ℕ, List, Some};
ghost use Rattle.std.specs.Prelude.{length, min, slice_get, slice_index, slice_index_or, sum};
ghost use Rattle.std.specs.Prelude.{sum_by};

/// No bank pays less on any debt as what was paid grows.
#[tactic(auto, using(crate::proofs::Pay::pay_mono))]
pub fn pay_never_falls()
    ensures { (net : Net) (P Q : List ℕ) → IsAtMost P Q → IsAtMost (pay net P) (pay net Q) }
{}

/// The payments after as many rounds as units are owed clear, and are at most all that clear.
pub fn least_is_least()
    ensures { (net : Net) → IsLeast net (least net) }
{}

/// There is only one least: whatever payments are the least that clear are these.
#[tactic(auto, using(crate::proofs::Least::least_only))]
pub fn least_is_the_only_one()
    ensures { (net : Net) (P : List ℕ) → IsLeast net P → P ≡ least net }
{}

/// In payments that clear a network each bank pays out all that it divides, up to all that it owes.
#[tactic(auto, using(crate::proofs::BankPays::clearing_row))]
pub fn clearing_bank_pays_out()
    ensures { (net : Net) (P : List ℕ) → IsNetwork net → Clears net P
        → (i : ℕ) → sum_by (slice_index P) (row net i)
        ≡ min (spend net i (receipts net P i)) (sum (claims_of net i)) }
{}

/// No legal order of loads and raises passes the least clearing payments.
#[tactic(auto, using(crate::proofs::Legal::never_passes_least))]
pub fn stays_below_least()
    ensures { (net : Net) → NeverPassesLeast net }
{}

/// Payments on all debts that are at or below the least clearing payments, and on which no bank
/// would pay more, are the least clearing payments: where a process that only raises legally has
/// nothing left to raise, it is done.
pub fn nothing_left_to_raise_is_least()
    ensures { (net : Net) (P : List ℕ) → length P ≡ length net.debts
        → IsAtMost P (least net) → IsAtMost (pay net P) P
        → P ≡ least net }
{}

/// Payments at or below the least that clear are in all at most what is owed.
pub fn payments_below_least_are_within_what_is_owed()
    ensures { (net : Net) (P : List ℕ) → IsAtMost P (least net) → sum P ≤ units_owed net }
{}

/// Where banks of the same debts have no less to pay from, the least payments that clear are no
/// less.
pub fn richer_banks_pay_no_less()
    ensures { (net more : Net) → IsRicher net more → IsAtMost (least net) (least more) }
{}

/// And what was lawful stays lawful.
pub fn journal_stays_lawful_where_banks_are_richer()
    ensures { (net more : Net) (rs : List Raise) → IsRicher net more
        → (Stands net rs → Stands more rs) × (IsTraced net rs → IsTraced more rs) }
{}

/// From payments at or below the least that clear, from which all banks would pay no less, rounds
/// reach the least.
pub fn rounds_go_on_to_the_least()
    ensures { (net : Net) (P : List ℕ) → length P ≡ length net.debts
        → IsAtMost P (pay net P) → IsAtMost P (least net)
        → (n : ℕ) → units_owed net ≤ sum P + n → rounds_of (pay net) P n ≡ least net }
{}

/// A journal each raise of which is lawful where it stands pays no more than the least clearing
/// payments.
#[tactic(auto, using(crate::proofs::Journals::replayed_le_least))]
pub fn standing_journal_stays_below_least()
    ensures { (net : Net) (rs : List Raise) → Stands net rs
        → IsAtMost (replayed net rs) (least net) }
{}

/// All banks would pay on it no less than it pays.
#[tactic(auto, using(crate::proofs::Lawful::pay_covers))]
pub fn standing_journal_is_covered()
    ensures { (net : Net) (rs : List Raise) → Stands net rs
        → IsAtMost (replayed net rs) (pay net (replayed net rs)) }
{}

/// With one raise more, lawful then and of no smaller stamp, it still stands.
#[tactic(auto, using(crate::proofs::Lawful::stands_more))]
pub fn journal_stands_with_a_lawful_raise_more()
    ensures { (net : Net) (rs : List Raise) (s : Raise) → Stands net rs
        → All (λ r. r.stamp ≤ s.stamp) rs
        → IsLawful net (replayed net rs) s → Stands net (rs ++ s ∷ []) }
{}

/// No raise of a journal that is traced, by its stamps alone, is above the least clearing payments.
#[tactic(auto, using(crate::proofs::Journals::traced_le_least))]
pub fn traced_raises_stay_below_least()
    ensures { (net : Net) (rs : List Raise) → IsTraced net rs
        → (i : ℕ) (r : Raise) → slice_get rs i ≡ Some r → r.to ≤ slice_index (least net) r.debt.0 }
{}

/// The raises of a legal run, each stamped with its place, are a traced journal.
#[tactic(auto, using(crate::proofs::Runs::run_is_traced))]
pub fn legal_run_is_traced()
    ensures { (net : Net) (es : List Event) → AreLegal net (opening net) es
        → IsTraced net (journal_from 0 es) }
{}

/// A history stands once its raises are in order: by stamp, then by debt, then by amount, whatever
/// the order in which they were made (Lamport 1978). It is traced then as well.
pub fn ordered_history_stands()
    ensures { (net : Net) (rs : List Raise) → IsHistory net rs
        → Stands net (ordered rs) × IsTraced net (ordered rs) }
{}

/// And it replays to the greatest amount to which each debt was raised.
pub fn ordered_history_replays()
    ensures { (net : Net) (rs : List Raise) → IsHistory net rs → (x : ℕ) → x < length net.debts
        → slice_index (replayed net (ordered rs)) x ≡ raised_to rs x }
{}

/// Raises that are in order stay as they are.
#[tactic(auto, using(crate::proofs::Ordered::ordered_again))]
pub fn order_is_kept()
    ensures { (rs : List Raise) → ordered (ordered rs) ≡ ordered rs }
{}

/// Raises all of whose stamps are above those of others stand after them.
pub fn later_raises_stand_after()
    ensures { (past raises : List Raise) → All (λ r. All (λ p. p.stamp < r.stamp) past) raises
        → ordered (past ++ raises) ≡ ordered past ++ ordered raises }
{}

/// There is only one order: raises of which each may stand before the next are the ordered ones of
/// any that they are, in whatever order these stand.
pub fn order_is_the_only_one()
    ensures { (rs qs : List Raise) → IsPermutation rs qs
        → ((k : ℕ) (d : Raise) → k + 1 < length qs
        → may_precede (slice_index_or qs k d) (slice_index_or qs (k + 1) d) ≡ true)
        → qs ≡ ordered rs }
{}
