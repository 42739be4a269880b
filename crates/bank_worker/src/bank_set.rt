//! Sets of banks, which are searched by whole words.
ghost use Rattle.bank_worker.specs.BankSets.{HaveNoneInBoth, is_in};
ghost use Rattle.bank_worker.specs.declared.bank_set.TheConstants.{WORDS};
ghost use Rattle.clr_net.specs.declared.TheConstants.{MAX_BANKS};
ghost use Rattle.std.specs.Int.{trailing_zeros, w64};
ghost use Rattle.std.specs.Prelude.{◌≡◌, ◌≢◌, ◌+◌, ◌*◌, ◌/◌, ◌<◌, ◌≤◌, ◌==◌, ◌&&◌, ◌||◌, ℕ, false};
ghost use Rattle.std.specs.Prelude.{not, true};
ghost use Rattle.std.specs.Prelude.{IfNone, IfSome, bit_or, slice_index};

use clr_net::{BankId, MAX_BANKS};
use std::marker::Model;

// As many words of 64 bits as are needed for all banks.
const WORDS: usize = MAX_BANKS as usize / 64 + 1;

/// A set of banks: a bit for each.
///
/// Contracts see the words; `is_in` says whether a bank is one of the set.
#[derive(Drop)]
pub struct BankSet {
    words: [u64; WORDS],
}

impl Model for BankSet {
    ghost use Rattle.bank_worker.specs.declared.bank_set.TheConstants.{WORDS};
    ghost use Rattle.std.specs.Prelude.{◌≡◌, ℕ, List, length};

    ghost Value = { List ℕ };

    ghost view = { λ s. s.words };

    ghost invariant = { λ s. length s.words ≡ WORDS };
}

impl BankSet {
    /// The set of no bank.
    pub fn none() -> BankSet
        ensures { (b : ℕ) → is_in result b ≡ false }
    {
        BankSet { words: [0; WORDS] }
    }

    /// The set of all banks that there may be.
    pub fn all() -> BankSet
        ensures { (b : ℕ) → b < MAX_BANKS → is_in result b ≡ true }
    {
        BankSet {
            words: [u64::MAX; WORDS],
        }
    }

    /// Adds a bank.
    pub fn add(&mut self, bank: BankId)
        requires { bank.0 < MAX_BANKS }
        ensures { (b : ℕ) → is_in self.new b ≡ (is_in self.old b || (b == bank.0)) }
    {
        let place = bank.0 as usize;
        self.words[place / 64] |= 1 << (place % 64);
    }

    // Adds the banks of another set in the words up to that of the last one.
    pub(crate) fn add_up_to(&mut self, other: &BankSet, last: BankId)
        requires { last.0 < MAX_BANKS }
        ensures added { (b : ℕ) → b / 64 ≤ last.0 / 64
            → is_in self.new b ≡ (is_in self.old b || is_in other.now b) }
        ensures others { (b : ℕ) → last.0 / 64 < b / 64 → is_in self.new b ≡ is_in self.old b }
    {
        add_words(&mut self.words, &other.words, last.0 as usize / 64 + 1);
    }

    /// Takes a bank away.
    pub fn remove(&mut self, bank: BankId)
        requires { bank.0 < MAX_BANKS }
        ensures { (b : ℕ) → is_in self.new b ≡ (is_in self.old b && not (b == bank.0)) }
    {
        let place = bank.0 as usize;
        self.words[place / 64] &= !(1 << (place % 64));
    }

    /// The first bank from this one on that is in both sets. `None` says that there is none up to
    /// the last one: the words past its word are not looked at.
    pub fn first_in_both(&self, other: &BankSet, from: u32, last: u32) -> Option<BankId>
        requires last { last < MAX_BANKS }
        ensures first { IfSome result (λ bank. (from ≤ bank.0)
            × (is_in self.now bank.0 ≡ true) × (is_in other.now bank.0 ≡ true)) }
        ensures none_before { IfSome result (λ bank.
            HaveNoneInBoth self.now other.now from bank.0) }
        ensures none { IfNone result (HaveNoneInBoth self.now other.now from (last + 1)) }
    {
        let from = from as usize;
        let first = from / 64;
        let to = last as usize / 64 + 1;
        if first >= to {
            return None;
        }
        let word = self.words[first] & other.words[first] & (u64::MAX << (from % 64));
        if word != 0 {
            return Some(lowest(first, word));
        }
        first_of_words(&self.words, &other.words, first + 1, to)
    }
}

// The lowest bank of a word that has some, by the place of the word.
fn lowest(place: usize, word: u64) -> BankId
    requires word { word ≢ 0 }
    requires place { place < WORDS }
    ensures { result.0 ≡ place * 64 + trailing_zeros w64 word }
{
    BankId(place as u32 * 64 + word.trailing_zeros())
}

// The first bank that is in both sets, of those in the words from one place on to another.
fn first_of_words(
    words: &[u64; WORDS],
    others: &[u64; WORDS],
    from: usize,
    to: usize,
) -> Option<BankId>
    requires places { (from ≤ to) × (to ≤ WORDS) }
    ensures first { IfSome result (λ bank. (from * 64 ≤ bank.0)
        × (is_in words.now bank.0 ≡ true) × (is_in others.now bank.0 ≡ true)) }
    ensures none_before { IfSome result (λ bank.
        HaveNoneInBoth words.now others.now (from * 64) bank.0) }
    ensures none { IfNone result (HaveNoneInBoth words.now others.now (from * 64) (to * 64)) }
{
    for index in past_fours(words, others, from, to)..to {
        let word = words[index] & others[index];
        if word != 0 {
            return Some(lowest(index, word));
        }
    }
    None
}

// A place from this one on, before which no word has a bank that is in both sets. It goes by four
// words at once.
fn past_fours(words: &[u64; WORDS], others: &[u64; WORDS], from: usize, to: usize) -> usize
    requires places { (from ≤ to) × (to ≤ WORDS) }
    ensures place { (from ≤ result) × (result ≤ to) }
    ensures none { HaveNoneInBoth words.now others.now (from * 64) (result * 64) }
{
    let mut place = from;
    while place + 4 <= to && are_apart(words, others, place) {
        place += 4;
    }
    place
}

// Whether no bank is in both sets, of those in the four words from this place on.
fn are_apart(words: &[u64; WORDS], others: &[u64; WORDS], place: usize) -> bool
    requires { place + 4 ≤ WORDS }
    ensures { result ≡ true
        → HaveNoneInBoth words.now others.now (place * 64) ((place + 4) * 64) }
{
    let first = words[place] & others[place];
    let second = words[place + 1] & others[place + 1];
    let third = words[place + 2] & others[place + 2];
    let fourth = words[place + 3] & others[place + 3];
    first | second | third | fourth == 0
}

// Sets in each of so many words the bits of another.
fn add_words(words: &mut [u64; WORDS], other: &[u64; WORDS], count: usize)
    requires { count ≤ WORDS }
    ensures added { (k : ℕ) → k < count → slice_index words.new k
        ≡ bit_or (slice_index words.old k) (slice_index other.now k) }
    ensures others { (k : ℕ) → count ≤ k → slice_index words.new k ≡ slice_index words.old k }
{
    for index in 0..count {
        words[index] |= other[index];
    }
}
