//! What a desk has to do with the network that it is of. A law has nothing to run; its `ensures` is
//! proved.
ghost use Rattle.bank_desk.specs.Desks.{IsSound, desk_of, target, with_cash_in};
ghost use Rattle.clear_core.specs.Clearing.{division};
ghost use Rattle.clr_net.specs.Limits.{IsNetwork};
ghost use Rattle.clr_net.specs.Net.{Net, of_cash};
ghost use Rattle.std.specs.Prelude.{◌≡◌, ◌<◌, ℕ, length, map, slice_get};

/// What the desk of a bank would pay on given receipts is what the bank divides among its debts in
/// its network.
pub fn target_is_division()
    ensures { (net : Net) (i r : ℕ) → target (desk_of net i) r ≡ division net i r }
{}

/// The desk of each bank of a network is in the limits.
pub fn desk_of_a_bank_is_sound()
    ensures { (net : Net) (i : ℕ) → IsNetwork net → i < length net.banks → IsSound (desk_of net i) }
{}

/// A desk stays the same whatever the other banks are.
pub fn desk_knows_its_own_bank_alone()
    ensures { (net other : Net) (i : ℕ)
        → slice_get net.banks i ≡ slice_get other.banks i → net.debts ≡ other.debts
        → desk_of net i ≡ desk_of other i }
{}

/// A desk that is given the cash of its bank in another network, which differs in the cash of its
/// banks alone, is the desk of the bank there.
pub fn desk_with_other_cash_is_of_the_other_network()
    ensures { (net other : Net) (i : ℕ)
        → map (of_cash 0) other.banks ≡ map (of_cash 0) net.banks → other.debts ≡ net.debts
        → with_cash_in other (desk_of net i) ≡ desk_of other i }
{}
