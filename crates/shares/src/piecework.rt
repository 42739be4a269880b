ghost use Rattle.std.specs.Prelude.{◌+◌, ◌<◌, ℕ, IfOk};

use clr_net::Mem;

/// What is made of some places: their pieces, in order, and the desk at which they were made.
#[derive(Drop)]
pub struct Made<P, D> {
    pub pieces: Vec<P>,
    pub desk: D,
}

/// What is done at each of many places, which are numbered from 0, at a desk.
pub trait Piecework<P, D> {
    /// The work can be done.
    ghost can: { Self → Type 0 };

    /// How many places there are.
    ghost size: { Self → ℕ };

    /// This is the piece of a place.
    ghost is_piece: { Self → ℕ → P → Type 0 };

    /// The desk is as it is once the places from one up to below another are done at it.
    ghost has_done: { Self → ℕ → ℕ → D → Type 0 };

    /// A new desk.
    fn desk(&self) -> Result<D, Mem>
        requires { can self.now }
        ensures { IfOk result (λ desk. (low : ℕ) → has_done self.now low low desk) };

    /// The piece of a place, and the desk after it.
    fn piece(&self, desk: D, place: usize) -> Result<(P, D), Mem>
        requires can { can self.now }
        requires place { place < size self.now }
        requires desk { (low : ℕ) × has_done self.now low place desk }
        ensures piece { IfOk result (λ r. is_piece self.now place r.0) }
        ensures desk { IfOk result (λ r. (low : ℕ) → has_done self.now low place desk
            → has_done self.now low (place + 1) r.1) };

    /// The desk of both, where one has done the places before those of the other. Takes no memory.
    fn merged(&self, front: D, back: D) -> D
        requires can { can self.now }
        requires neighbours { (low : ℕ) × (middle : ℕ) × (high : ℕ)
            × has_done self.now low middle front × has_done self.now middle high back }
        ensures { (low middle high : ℕ) → has_done self.now low middle front
            → has_done self.now middle high back → has_done self.now low high result };
}
