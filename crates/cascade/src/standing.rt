ghost use Rattle.cascade.specs.Standings.{is_default};
ghost use Rattle.std.specs.Prelude.{◌≡◌};

/// Whether a bank pays all that it owes, on its debts and outside the network, and with which label
/// where it does not.
#[derive(Clone, Copy, Debug, PartialEq, Eq)]
pub enum Health {
    /// It pays all.
    Sound,
    /// It is in default, and would be if all its debtors paid it in full.
    Fundamental,
    /// It is in default, and would have enough if all its debtors paid it in full.
    Contagion,
}

impl Health {
    /// Whether a bank that stands so does not pay all that it owes.
    pub fn is_default(self) -> bool
        ensures { result ≡ is_default self }
    {
        self != Health::Sound
    }
}

/// How a bank stands under payments that clear. All numbers are units.
#[derive(Clone, Copy, Debug)]
pub struct Standing {
    /// What it has: its cash and its receipts.
    pub estate: u64,
    /// What it owes outside the network, before all its debts.
    pub outside: u64,
    /// What it pays on this.
    pub outside_paid: u64,
    /// What it pays on its debts.
    pub paid: u64,
    /// What it owes on its debts.
    pub owed: u64,
    /// What is left of its estate.
    pub equity: u64,
    pub health: Health,
}
