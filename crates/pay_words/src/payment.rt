//! A payment, and the word in which it stands.
ghost use Rattle.pay_words.specs.Words.{payment_of, word_of};
ghost use Rattle.std.specs.Prelude.{◌≡◌, ◌<◌, ◌^◌};

// What a stamp counts for in a payment word. A word has 64 bits, of which the value takes the lower
// half: so this is two to the power of 32, and every value is below it.
const STAMP: u64 = 4294967296;

/// What has been paid on a debt so far, in units, and the stamp of the debt's last raise, or 0
/// where there is none.
#[derive(Clone, Copy, Debug, PartialEq, Eq)]
pub struct Payment {
    pub value: u64,
    pub stamp: u64,
}

impl Payment {
    // The payment that stands in a word.
    pub(crate) fn of_word(word: u64) -> Payment
        ensures { result ≡ payment_of word }
    {
        Payment {
            value: word % STAMP,
            stamp: word / STAMP,
        }
    }

    // The word in which it stands.
    pub(crate) fn word(self) -> u64
        requires { word_of self < 2 ^ 64 }
        ensures { result ≡ word_of self }
    {
        self.stamp * STAMP + self.value
    }
}
