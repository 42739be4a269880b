ghost use Rattle.clear_words.specs.Options.{show_named};
ghost use Rattle.std.specs.Prelude.{◌≡◌};

/// What is shown of a clearing.
#[derive(Clone, Copy, Debug, PartialEq, Eq)]
pub enum Show {
    /// The payments.
    Payments,
    /// The journal.
    Journal,
    /// The payments and the journal.
    Both,
}

impl Show {
    // What a word asks to be shown.
    pub(crate) fn named(word: &str) -> Option<Show>
        ensures { result ≡ show_named word.now }
    {
        match word {
            "payments" => Some(Show::Payments),
            "journal" => Some(Show::Journal),
            "both" => Some(Show::Both),
            _ => None,
        }
    }
}
