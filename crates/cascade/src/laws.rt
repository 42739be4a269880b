//! The laws of standings, for any network within the limits. A law has nothing to run; its
//! `ensures` is proved.
ghost use Rattle.cascade.specs.MoreCash.{GoesOn, HasMoreCash, NobodyLoses};
ghost use Rattle.cascade.specs.Ruin.{CostsItsCash};
ghost use Rattle.cascade.specs.Standings.{AddsUp, PaysOut, due, equity, health_of, outside_paid, worth};
ghost use Rattle.cascade.specs.declared.standing.Health.TheVariants as health;
ghost use Rattle.clear_core.specs.Clearing.{Clears, estate};
ghost use Rattle.clr_net.specs.Limits.{IsNetwork};
ghost use Rattle.clr_net.specs.Net.{Net};
ghost use Rattle.std.specs.Prelude.{◌≡◌, ◌<◌, ◌≤◌, ◌↔◌, ℕ, List, length};

/// Where payments clear, each bank pays the smaller of its debts and of what its outside claim
/// leaves of its estate. It pays nothing that it has not got, and keeps something only where it
/// pays all.
#[tactic(auto, using(crate::proofs::PayingOut::pays_out))]
pub fn outside_claim_ranks_before_debts()
    ensures { (net : Net) (P : List ℕ) → IsNetwork net → Clears net P → (i : ℕ) → PaysOut net P i }
{}

/// Where payments clear, no unit is made or lost.
pub fn clearing_adds_up()
    ensures { (net : Net) (P : List ℕ) → IsNetwork net → Clears net P → AddsUp net P }
{}

/// Where payments clear, a bank is sound exactly where its estate covers all that it owes.
pub fn sound_where_estate_covers_all()
    ensures { (net : Net) (P : List ℕ) → IsNetwork net → Clears net P
        → (i : ℕ) → (health_of net P i ≡ health.Sound) ↔ (due net i ≤ estate net P i) }
{}

/// A bank's fundamentals are at fault exactly where its cash and all its claims are below all that
/// it owes, whichever payments clear.
pub fn fundamental_where_claims_do_not_cover_all()
    ensures { (net : Net) (P : List ℕ) → IsNetwork net → Clears net P
        → (i : ℕ) → (health_of net P i ≡ health.Fundamental) ↔ (worth net i < due net i) }
{}

/// Which of the payments that clear are made changes no equity (Eisenberg and Noe 2001), and
/// nothing that is paid outside.
pub fn equities_do_not_depend_on_the_payments()
    ensures { (net : Net) (P Q : List ℕ) → IsNetwork net → Clears net P → Clears net Q
        → (i : ℕ) → i < length net.banks
        → (equity net P i ≡ equity net Q i) × (outside_paid net P i ≡ outside_paid net Q i) }
{}

/// More cash hurts nobody: where no bank of the same rule and outside claim has less, under the
/// least payments no debt is paid less, no bank has less or keeps less, and the sound stay sound.
pub fn more_cash_hurts_nobody()
    ensures { (net more : Net) → IsNetwork net → HasMoreCash net more → NobodyLoses net more }
{}

/// A clearing goes on where banks have more cash: the least payments without it are at most those
/// with it, and at most what all banks pay by them; and only banks that have more may pay more at
/// first.
pub fn clearing_goes_on_with_more_cash()
    ensures { (net more : Net) → HasMoreCash net more → GoesOn net more }
{}

/// Where a bank loses all its cash, no debt is paid more under the least payments, no bank has more
/// or keeps more, and what all banks keep less is exactly that cash: no unit of it is lost twice.
pub fn ruin_of_a_bank_costs_its_cash()
    ensures { (net : Net) (i : ℕ) → IsNetwork net → i < length net.banks → CostsItsCash net i }
{}
