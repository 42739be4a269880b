use clr_net::BankId;

/// What the ruin of a bank does to a bank that it hurts.
#[derive(Clone, Copy, Debug, PartialEq, Eq)]
pub struct Hurt {
    /// The bank that is hurt. It may be the ruined bank itself.
    pub bank: BankId,
    /// What it keeps less, in units: what is left to its owners and what it pays outside.
    pub lost: u64,
    /// Whether it is sound before, and not after.
    pub falls: bool,
}

/// What the ruin of a bank does.
#[derive(Drop)]
pub struct Impact {
    /// What the bank itself keeps less, in units.
    pub own: u64,
    /// What all other banks keep less together, in units.
    pub others: u64,
    /// How many other banks fall.
    pub falls: u32,
    /// Whom it hurts, in file order: each bank that keeps less or falls.
    pub hurts: Vec<Hurt>,
}
