//! What callers of a board may rely on: what it may begin with, what holds at each moment, which
//! banks a seat holds, what comes back with a seat, and what a ring and a take change. A law has
//! nothing to run; its `ensures` is proved.
ghost use Rattle.clear_core.specs.Clearing.{pay};
ghost use Rattle.clear_core.specs.History.{IsTraced, Stands, ordered, replayed};
ghost use Rattle.clear_core.specs.declared.event.Raise.{Raise};
ghost use Rattle.clr_net.specs.Amounts.{IsAtMost};
ghost use Rattle.clr_net.specs.Net.{Net, creditor_of, debtor_of};
ghost use Rattle.pay_words.specs.Belongs.{Belongs};
ghost use Rattle.pay_words.specs.Ends.{HaveLowStamps, payments_of, values};
ghost use Rattle.pay_words.specs.Events.{AreOfEvents, IsOfEvents};
ghost use Rattle.pay_words.specs.Standing.{KeepsStampsLow, MayStand, StaysBelowLeast, payments_in};
ghost use Rattle.pay_words.specs.Traces.{start_of};
ghost use Rattle.clear_core.specs.Raised.{is_marked};
ghost use Rattle.pay_words.specs.Holding.{HoldsAll, HoldsAllOf, holds, is_of_worker};
ghost use Rattle.pay_words.specs.Sound.{IsOver};
ghost use Rattle.pay_words.specs.Seating.{handed, rejoined, without};
ghost use Rattle.pay_words.specs.Ringing.{rung, took};
ghost use Rattle.pay_words.specs.Views.{BoardView};
ghost use Rattle.pay_words.specs.Words.{unpaid};
ghost use Rattle.pay_words.specs.declared.payment.Payment.{Payment};
ghost use Rattle.pay_words.specs.declared.view.Shown.{Shown};
ghost use Rattle.std.specs.Prelude.{◌≡◌, ◌≢◌, ◌<◌, ◌==◌, ◌&&◌, ◌||◌, ◌++◌, ◌∷◌, not, if◌then◌else◌};
ghost use Rattle.std.specs.Prelude.{ℕ, List, [], false, length, replicate, slice_index, slice_set};
ghost use Rattle.std.specs.Prelude.{true};

/// What a journal replays to are the values of what its raises leave on the debts.
#[tactic(auto, using(crate::proofs::Histories::replayed_is))]
pub fn replay_gives_the_values()
    ensures { (net : Net) (rs : List Raise) → replayed net rs ≡ values (start_of net rs) }
{}

/// No raise leaves nothing paid.
#[tactic(auto, using(crate::proofs::Starts::start_none))]
pub fn nothing_is_paid_at_first()
    ensures { (net : Net) → start_of net [] ≡ replicate (length net.debts) unpaid }
{}

/// One more raise is what is paid on its debt, and no other debt changes.
#[tactic(auto, using(crate::proofs::Starts::start_more))]
pub fn last_raise_is_paid()
    ensures { (net : Net) (rs : List Raise) (r : Raise)
        → start_of net (rs ++ r ∷ [])
        ≡ slice_set (start_of net rs) r.debt.0 (record { value = r.to; stamp = r.stamp }) }
{}

/// A lawful journal in order, no stamp of which is above what it pays in all, belongs to the
/// network.
#[tactic(auto, using(crate::proofs::Pasts::belongs_of))]
pub fn lawful_journal_belongs()
    ensures { (net : Net) (rs : List Raise) → Stands net rs → IsTraced net rs → ordered rs ≡ rs
        → HaveLowStamps rs (start_of net rs) → Belongs net (start_of net rs) rs }
{}

/// What a past left is at most what all banks would pay from it.
#[tactic(auto, using(crate::proofs::Pasts::covered))]
pub fn past_is_covered()
    ensures { (net : Net) (start : List Payment) (past : List Raise) → Belongs net start past
        → IsAtMost (values start) (pay net (values start)) }
{}

/// The values of the payments that a seat shows are what it shows as paid.
#[tactic(auto, using(crate::proofs::Starts::values_shown))]
pub fn values_are_what_is_paid()
    ensures { (s : Shown) → length s.paid ≡ length s.net.debts → values (payments_of s) ≡ s.paid }
{}

/// A board may begin with nothing paid: the past without a raise belongs to every network.
pub fn empty_past_belongs()
    ensures { (net : Net) → Belongs net (start_of net []) [] }
{}

/// At no moment is a payment word of a board above the least clearing payments, nor its stamp above
/// the sum of what is paid: so it is between any two atomic steps, whichever seats have come back.
#[tactic(auto, using(crate::proofs::Standing::stays_below_least, crate::proofs::Standing::keeps_stamps_low))]
pub fn no_word_is_above_the_least()
    ensures values { (board : BoardView) → StaysBelowLeast board }
    ensures stamps { (board : BoardView) → KeepsStampsLow board }
{}

/// A journal that stands is that of a list of legal events of the process, from which nothing is
/// paid at first: its raises are theirs, and so are its payments.
pub fn standing_journal_is_of_legal_events()
    ensures { (net : Net) (journal : List Raise) → Stands net journal → IsOfEvents net journal }
{}

/// At each moment between two atomic steps the payment words of a board are the state of the
/// process after a list of legal events: whatever the seats did, and in whatever order.
pub fn words_of_a_board_are_a_state_of_the_process()
    ensures { (board : BoardView) (words : List ℕ) → MayStand board words
        → AreOfEvents board.net (values (payments_in board.net words)) }
{}

/// Where the master holds all banks, it holds those of each worker.
#[tactic(auto, using(crate::proofs::Handing::holds_of_all))]
pub fn all_banks_are_those_of_each_worker()
    ensures { (workers i : ℕ) (s : Shown) → HoldsAll s → HoldsAllOf workers i s }
{}

/// The seat of a worker holds all banks of the worker.
#[tactic(auto, using(crate::proofs::Handing::holds_of_handed))]
pub fn seat_holds_the_banks_of_its_worker()
    ensures { (workers i : ℕ) (s : Shown) → HoldsAllOf workers i (handed workers i s) }
{}

/// When the banks of one worker are handed out, the master still holds those of another.
#[tactic(auto, using(crate::proofs::Handing::holds_of_others))]
pub fn banks_of_other_workers_stay()
    ensures { (workers i j : ℕ) (s : Shown) → i ≢ j → HoldsAllOf workers j s
        → HoldsAllOf workers j (without workers i s) }
{}

/// When a seat is taken back, its banks are the master's again.
#[tactic(auto, using(crate::proofs::Handing::holds_of_back))]
pub fn banks_come_back()
    ensures { (workers i : ℕ) (s t : Shown)
        → ((b : ℕ) → b < length s.net.banks → is_of_worker workers i b ≡ true → holds t b ≡ true)
        → HoldsAllOf workers i (rejoined s t) }
{}

/// And the master holds what it held before.
#[tactic(auto, using(crate::proofs::Handing::holds_of_kept))]
pub fn no_bank_is_lost()
    ensures { (workers i : ℕ) (s t : Shown) → HoldsAllOf workers i s
        → HoldsAllOf workers i (rejoined s t) }
{}

/// A seat that holds the banks of each worker holds all banks.
pub fn banks_of_all_workers_are_all_banks()
    ensures { (workers : ℕ) (s : Shown) → 0 < workers
        → ((i : ℕ) → i < workers → HoldsAllOf workers i s) → HoldsAll s }
{}

/// The seat of a worker holds the worker's banks alone.
#[tactic(auto, using(crate::proofs::Tables::tabled_at))]
pub fn seat_holds_no_other_bank()
    ensures { (workers i : ℕ) (s : Shown) (b : ℕ) → b < length s.net.banks
        → holds (handed workers i s) b ≡ is_of_worker workers i b }
{}

/// Each bank that a seat holds is one of the network.
#[tactic(auto, using(crate::proofs::Places::held_in_range))]
pub fn held_bank_is_of_the_network()
    ensures { (s : Shown) (b : ℕ) → IsOver s → holds s b ≡ true → b < length s.net.banks }
{}

/// Of the debts that the banks of a seat owe, the master shows what the seat showed. What the seat
/// paid becomes the floor.
#[tactic(auto, using(crate::proofs::Marks::chosen_at))]
pub fn payments_come_back()
    ensures paid { (s t : Shown) (x : ℕ) → x < length s.net.debts
        → slice_index (rejoined s t).paid x
        ≡ (if holds t (debtor_of s.net x) then slice_index t.paid x
        else slice_index s.paid x) }
    ensures stamps { (s t : Shown) (x : ℕ) → x < length s.net.debts
        → slice_index (rejoined s t).paid_stamps x
        ≡ (if holds t (debtor_of s.net x) then slice_index t.paid_stamps x
        else slice_index s.paid_stamps x) }
    ensures floor { (s t : Shown) (x : ℕ) → x < length s.net.debts
        → slice_index (rejoined s t).floor x
        ≡ (if holds t (debtor_of s.net x) then slice_index t.paid x
        else slice_index s.floor x) }
    ensures rings { (s t : Shown) (x : ℕ) → x < length s.net.debts
        → is_marked (rejoined s t).owes_ring x
        ≡ (if holds t (debtor_of s.net x) then is_marked t.owes_ring x
        else is_marked s.owes_ring x) }
{}

/// Of the debts to the banks of a seat, the master shows what the seat saw.
#[tactic(auto, using(crate::proofs::Marks::chosen_at))]
pub fn sights_come_back()
    ensures sights { (s t : Shown) (x : ℕ) → x < length s.net.debts
        → slice_index (rejoined s t).sights x
        ≡ (if holds t (creditor_of s.net x) then slice_index t.sights x
        else slice_index s.sights x) }
    ensures stamps { (s t : Shown) (x : ℕ) → x < length s.net.debts
        → slice_index (rejoined s t).sight_stamps x
        ≡ (if holds t (creditor_of s.net x) then slice_index t.sight_stamps x
        else slice_index s.sight_stamps x) }
    ensures looks { (s t : Shown) (x : ℕ) → x < length s.net.debts
        → slice_index (rejoined s t).looks x
        ≡ (if holds t (creditor_of s.net x) then slice_index t.looks x
        else slice_index s.looks x) }
    ensures pending { (s t : Shown) (x : ℕ) → x < length s.net.debts
        → is_marked (rejoined s t).pending x
        ≡ (if holds t (creditor_of s.net x) then is_marked t.pending x
        else is_marked s.pending x) }
{}

/// Of the banks of a seat, the master shows as fresh those that the seat showed so.
#[tactic(auto, using(crate::proofs::Marks::chosen_at))]
pub fn fresh_marks_come_back()
    ensures { (s t : Shown) (b : ℕ) → b < length s.net.banks
        → is_marked (rejoined s t).fresh b
        ≡ (if holds t b then is_marked t.fresh b else is_marked s.fresh b) }
{}

/// Once the bell of a bank was rung no debt owes it a ring, and the others owe what they owed.
#[tactic(auto, using(crate::proofs::Tables::tabled_at))]
pub fn ring_is_owed_no_more()
    ensures { (s : Shown) (b x : ℕ) → x < length s.net.debts
        → is_marked (rung s b).owes_ring x
        ≡ (is_marked s.owes_ring x && not (creditor_of s.net x == b)) }
{}

/// Once the bell of a bank was taken each debt to it is pending, and the others are as they were.
/// The bank is fresh no more.
#[tactic(auto, using(crate::proofs::Tables::tabled_at))]
pub fn taken_bell_calls()
    ensures pending { (s : Shown) (b x : ℕ) → x < length s.net.debts
        → is_marked (took s b).pending x ≡ (is_marked s.pending x || (creditor_of s.net x == b)) }
    ensures its_bank { (s : Shown) (b : ℕ) → b < length s.fresh
        → is_marked (took s b).fresh b ≡ false }
    ensures other_banks { (s : Shown) (b c : ℕ) → c ≢ b
        → is_marked (took s b).fresh c ≡ is_marked s.fresh c }
{}
