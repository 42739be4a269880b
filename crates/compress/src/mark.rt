ghost use Rattle.compress.specs.declared.mark.Mark.TheVariants.{Done};
ghost use Rattle.std.specs.Prelude.{◌≡◌, ◌↔◌, IsTrue};

/// What is known of a bank while the debts of one class are gone over.
#[derive(Clone, Copy)]
pub(crate) enum Mark {
    /// It has its number: no cycle runs through it.
    Done,
    /// No walk has come to it.
    New,
    /// The walk came to it after so many debts.
    Walked(usize),
}

impl Mark {
    /// Whether the bank has its number.
    pub fn is_done(self) -> bool
        ensures { IsTrue result ↔ (self ≡ Done) }
    {
        match self {
            Mark::Done => true,
            Mark::New => false,
            Mark::Walked(_) => false,
        }
    }
}
