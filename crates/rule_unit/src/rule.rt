ghost use Rattle.rule_unit.specs.declared.TheConstants.{MAX_CLAIM};
ghost use Rattle.rule_unit.specs.Awards.{IsWithin};
ghost use Rattle.rule_unit.specs.Choice.{IsUnitChoice};
ghost use Rattle.std.specs.Prelude.{◌≡◌, ◌≤◌, ℕ, All, List, Option};

/// Which debt of a bank gets the next unit of its estate.
///
/// A rule sees the claims of the bank's debts in file order, in whole units, and the awards: what
/// each debt has got so far. A place in either list is a debt.
pub trait UnitRule {
    /// The debt that is chosen, of claims and awards.
    ghost choice: { Self → List ℕ → List ℕ → Option ℕ };

    /// The debt that gets the next unit, or `None` where every debt is paid in full.
    fn next(&self, claims: &[u64], awards: &[u64]) -> Option<usize>
        requires within { IsWithin claims.now awards.now }
        requires limit { All (λ c. c ≤ MAX_CLAIM) claims.now }
        ensures { result ≡ choice self.now claims.now awards.now };

    /// None is chosen exactly where every award equals its claim. The debt that is chosen is not
    /// yet paid in full. A debt that is paid in full can be left out of both lists: of the other
    /// debts the same one is chosen.
    ghost laws: { (rule : Self) → IsUnitChoice (choice rule) };
}
