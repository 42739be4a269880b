//! The laws of descents, for any network. A law has nothing to run; its `ensures` is proved.
ghost use Rattle.cascade.specs.MoreCash.{GoesOn};
ghost use Rattle.clr_net.specs.Net.{Net};
ghost use Rattle.descent.specs.Cashes.{AreFloors, cash_in_row, lowest, with_cashes};
ghost use Rattle.std.specs.Prelude.{◌<◌, ◌≤◌, ℕ, List};

/// A clearing with the least cash of each bank in a share of some networks goes on for a part of
/// the share: its payments are at most those with the least cash in the part, and at most what all
/// banks then pay by them; and only the banks that have more may pay more at first.
pub fn clearing_goes_on_for_a_part()
    ensures { (net : Net) (floor : ℕ → ℕ → ℕ → ℕ) → AreFloors floor → (low high a b : ℕ)
        → low ≤ a → a < b → b ≤ high
        → GoesOn (with_cashes net (floor low high)) (with_cashes net (floor a b)) }
{}

/// The least cash in a share of the rows of a table is no more than in a part of the share.
pub fn rows_of_a_table_have_floors()
    ensures { (rows : List (List ℕ))
        → AreFloors (λ low high i. lowest (cash_in_row rows i) low high) }
{}
