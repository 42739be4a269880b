//! Laws on events, histories and rounds of payments, at the chain.
ghost use Rattle.clr_net.specs.Amounts.{IsAtMost};
ghost use Rattle.clr_net.specs.Samples.{chain};
ghost use Rattle.clr_net.specs.Net.{row};
ghost use Rattle.clear_core.specs.Clearing.{least, pay};
ghost use Rattle.clear_core.specs.History.{IsTraced, Stands, ordered, replayed};
ghost use Rattle.clear_core.specs.Process.{IsBelowLeast, after, opening};
ghost use Rattle.clear_core.specs.Rounds.{rounds_of};
ghost use Rattle.pay_words.specs.Belongs.{Belongs};
ghost use Rattle.pay_words.specs.Traces.{start_of};
ghost use Rattle.law_tests.specs.Nets.{events, richer, two, two_ordered, raise};
ghost use Rattle.std.specs.Prelude.{◌≡◌, ◌++◌, ◌∷◌, [], ◌≤◌, slice_index, sum_by};

// Events that are legal where they stand leave payments below the least.
pub fn legal_events_stay_below()
    ensures { IsBelowLeast chain (after (opening chain) events) }
{
    clear_core::laws::stays_below_least();
}

// The raises of a legal run are traced: what each bank pays it has seen.
pub fn legal_events_are_traced()
    ensures { IsTraced chain (raise 0 0 7 ∷ raise 2 1 8 ∷ []) }
{
    clear_core::laws::legal_run_is_traced();
}

// A history stands in order too, and replays to what is paid.
pub fn history_stands_and_replays()
    ensures stands { Stands chain two_ordered }
    ensures pays { slice_index (replayed chain two_ordered) 1 ≡ 8 }
{
    clear_core::laws::ordered_history_stands();
    clear_core::laws::ordered_history_replays();
}

// Two raises stand in one order alone.
pub fn two_raises_have_one_order()
    ensures { two_ordered ≡ ordered two }
{
    clear_core::laws::order_is_the_only_one();
}

// Raises with later stamps stand after those that were in order.
pub fn later_stand_after()
    ensures { ordered (two ++ raise 4 0 9 ∷ raise 3 1 9 ∷ [])
        ≡ two_ordered ++ raise 3 1 9 ∷ raise 4 0 9 ∷ [] }
{
    clear_core::laws::later_raises_stand_after();
}

// With two units more at a bank nobody pays less.
pub fn two_more_pay_no_less()
    ensures { IsAtMost (least chain) (least richer) }
{
    clear_core::laws::richer_banks_pay_no_less();
    rescue::laws::cash_makes_no_bank_pay_less();
}

// Rounds go on to the least payments from some that are on the way.
pub fn rounds_from_seven_reach_the_least()
    ensures { rounds_of (pay chain) (7 ∷ 0 ∷ []) 12 ≡ 7 ∷ 8 ∷ [] }
{
    clear_core::laws::rounds_go_on_to_the_least();
}

// A bank that cannot pay all pays out what it has.
pub fn second_bank_pays_out()
    ensures { sum_by (slice_index (7 ∷ 8 ∷ [])) (row chain 1) ≡ 8 }
{
    net_csv::laws::reading_gives_a_network();
    clear_core::laws::clearing_bank_pays_out();
}

// Where nothing is left to raise the payments are the least.
pub fn nothing_left_is_least()
    ensures { 7 ∷ 8 ∷ [] ≡ least chain }
{
    clear_core::laws::nothing_left_to_raise_is_least();
}

// A lawful journal of two raises belongs to its network.
pub fn journal_of_two_belongs()
    ensures { Belongs chain (start_of chain two_ordered) two_ordered }
{
    clear_core::laws::ordered_history_stands();
    pay_words::laws::lawful_journal_belongs();
}
