//! The laws of a division over classes, whichever unit rule chooses the debt that gets the next
//! unit. A law has nothing to run; its `ensures` is proved.
ghost use Rattle.clr_net.specs.Division.{AreClasses};
ghost use Rattle.clr_net.specs.declared.TheConstants.{MAX_CLASS};
ghost use Rattle.clr_net.specs.Division.{share_by};
ghost use Rattle.rule_unit.specs.Awards.{IsAtMost};
ghost use Rattle.rule_unit.specs.Choice.{IsUnitChoice};
ghost use Rattle.std.specs.Prelude.{◌≡◌, ◌≤◌, ℕ, List, Option, length, min, sum};

/// No debt gets more than its claim.
#[tactic(auto, using(clr_net::proofs::Share::share_by_within))]
pub fn share_is_within_claims()
    ensures { (choice : List ℕ → List ℕ → Option ℕ) (claims classes : List ℕ) (e : ℕ)
        → IsUnitChoice choice
        → IsAtMost (share_by choice claims classes e) claims }
{}

/// An estate is given out whole, up to all that is claimed.
#[tactic(auto, using(clr_net::proofs::Share::sum_share_by))]
pub fn share_gives_all()
    ensures { (choice : List ℕ → List ℕ → Option ℕ) (claims classes : List ℕ) (e : ℕ)
        → IsUnitChoice choice → length claims ≡ length classes
        → AreClasses classes 1 MAX_CLASS
        → sum (share_by choice claims classes e) ≡ min e (sum claims) }
{}

/// No debt gets less of a larger estate.
#[tactic(auto, using(clr_net::proofs::Share::share_by_mono))]
pub fn share_never_falls()
    ensures { (choice : List ℕ → List ℕ → Option ℕ) (claims classes : List ℕ) (d e : ℕ)
        → IsUnitChoice choice → d ≤ e
        → IsAtMost (share_by choice claims classes d) (share_by choice claims classes e) }
{}
