//! Sums over all banks, which no number of banks and no standing makes too great.
ghost use Rattle.cascade.specs.Standings.{is_default};
ghost use Rattle.std.specs.Prelude.{◌≡◌, ◌<◌, ◌∷◌, [], ℕ, List, count_by, slice_index, sum};
ghost use Rattle.std.specs.Prelude.{sum_by};

use cascade::{Health, Standing};
use costs::CostStanding;

// How a bank stands, as the line of a bank tells it.
pub trait Stands: Copy {
    ghost use Rattle.cascade.specs.declared.standing.Health.{Health};

    // Its numbers of units, from left to right.
    ghost units: { Self → List ℕ };

    // Its state.
    ghost state: { Self → Health };

    fn numbers(self) -> [u64; 5]
        ensures { result ≡ units self };

    fn health(self) -> Health
        ensures { result ≡ state self };
}

impl Stands for Standing {
    ghost units = { λ s. s.estate ∷ s.outside_paid ∷ s.paid ∷ s.owed ∷ s.equity ∷ [] };

    ghost state = { λ s. s.health };

    fn numbers(self) -> [u64; 5] {
        let s = self;
        [s.estate, s.outside_paid, s.paid, s.owed, s.equity]
    }

    fn health(self) -> Health {
        self.health
    }
}

impl Stands for CostStanding {
    ghost units = { λ s. s.estate ∷ s.lost ∷ s.outside_paid ∷ s.paid ∷ s.equity ∷ [] };

    ghost state = { λ s. s.health };

    fn numbers(self) -> [u64; 5] {
        let s = self;
        [s.estate, s.lost, s.outside_paid, s.paid, s.equity]
    }

    fn health(self) -> Health {
        self.health
    }
}

// The totals of some standings, from left to right.
pub fn totals_of<S: Stands>(all: &[S]) -> [u128; 5]
    ensures { let total_at = λ (k : ℕ). sum_by (λ s. slice_index (S.units s) k) all.now in
        result ≡ total_at 0 ∷ total_at 1 ∷ total_at 2 ∷ total_at 3 ∷ total_at 4 ∷ [] }
{
    [
        total(all, 0),
        total(all, 1),
        total(all, 2),
        total(all, 3),
        total(all, 4),
    ]
}

// The total of one number of some standings.
pub fn total<S: Stands>(all: &[S], place: usize) -> u128
    requires { place < 5 }
    ensures { result ≡ sum_by (λ s. slice_index (S.units s) place) all.now }
{
    let mut total = 0;
    for standing in all {
        total += u128::from(standing.numbers()[place]);
    }
    total
}

// How many banks are in default.
pub fn defaults_of<S: Stands>(all: &[S]) -> u64
    ensures { result ≡ count_by (λ s. is_default (S.state s)) all.now }
{
    let mut defaults = 0;
    for standing in all {
        if standing.health().is_default() {
            defaults += 1;
        }
    }
    defaults
}

// The sum of some units.
pub fn sum_of(units: &[u64]) -> u128
    ensures { result ≡ sum units.now }
{
    let mut total = 0;
    for unit in units {
        total += u128::from(*unit);
    }
    total
}
