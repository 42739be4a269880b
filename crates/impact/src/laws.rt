//! The law of ruins, for any network within the limits. A law has nothing to run; its `ensures` is
//! proved.
ghost use Rattle.cascade.specs.MoreCash.{GoesOn};
ghost use Rattle.cascade.specs.Ruin.{kept_less};
ghost use Rattle.clr_net.specs.Limits.{IsNetwork};
ghost use Rattle.clr_net.specs.Net.{Net, cash_of};
ghost use Rattle.impact.specs.Impact.{lost_by_others};
ghost use Rattle.impact.specs.Ruined.{IsPartOf, ruined};
ghost use Rattle.std.specs.Prelude.{◌≡◌, ◌+◌, ◌<◌, ℕ, Bool, length};

/// What a bank keeps less by its own ruin, and what all others do, come to the cash that it loses.
pub fn own_loss_and_that_of_others_are_the_cash()
    ensures { (net : Net) (j : ℕ) → IsNetwork net → j < length net.banks
        → kept_less net j j + lost_by_others net j ≡ cash_of net j }
{}

/// Where banks that were ruined have their cash again, a clearing goes on: the least payments without
/// the cash of a set of banks are at most those without the cash of a part of it, and at most what
/// all banks then pay by them; and only the banks that have their cash again may pay more at first.
pub fn clearing_goes_on_where_fewer_are_ruined()
    ensures { (net : Net) (lost still : ℕ → Bool) → IsPartOf still lost
        → GoesOn (ruined net lost) (ruined net still) }
{}
