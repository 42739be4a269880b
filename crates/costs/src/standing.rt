use cascade::Health;

/// How a bank stands under payments that clear with costs of default. All numbers are units.
#[derive(Clone, Copy, Debug)]
pub struct CostStanding {
    /// What it has: its cash and its receipts.
    pub estate: u64,
    /// What of it is lost by its default: nothing where it has all that it owes.
    pub lost: u64,
    /// What it pays outside the network, before all its debts.
    pub outside_paid: u64,
    /// What it pays on its debts.
    pub paid: u64,
    /// What is left of its estate.
    pub equity: u64,
    /// Whether it has all that it owes, and else its label.
    pub health: Health,
}
