use clear_core::Journal;

/// How a run is made: 1 to 64 workers, and 1 to 1,000 sweeps in each round.
#[derive(Clone, Copy, Debug)]
pub struct Plan {
    pub workers: u32,
    pub sweeps: u32,
}

/// What the rounds on a board came to: all raises in order, how many rounds there were, and how
/// many visits.
#[derive(Drop)]
pub struct Driven {
    pub journal: Journal,
    pub rounds: u64,
    pub visits: u64,
}
