ghost use Rattle.net_csv.specs.Reading.{header as header_of};
ghost use Rattle.std.specs.Prelude.{◌≡◌, map};

/// The versions of a banks file: the second says of each bank what it owes outside the network.
#[derive(Clone, Copy)]
pub(crate) enum Version {
    One,
    Two,
}

/// What the records of a file are.
#[derive(Clone, Copy)]
pub(crate) enum Layout {
    Banks(Version),
    Debts,
}

impl Layout {
    /// The words of its header.
    pub(crate) fn header(self) -> &'static [&'static str]
        ensures { map (λ w. w.now) result.now ≡ header_of self }
    {
        match self {
            Layout::Banks(Version::One) => &["name", "cash", "rule"],
            Layout::Banks(Version::Two) => &["name", "cash", "rule", "outside"],
            Layout::Debts => &["debtor", "creditor", "class", "claim"],
        }
    }
}
