//! The laws of compression, for any network within the limits. A law has nothing to run; its
//! `ensures` is proved.
ghost use Rattle.clr_net.specs.Amounts.{IsAtMost};
ghost use Rattle.clr_net.specs.Limits.{IsNetwork};
ghost use Rattle.clr_net.specs.Net.{Net, class_of, creditor_of, debtor_of};
ghost use Rattle.clr_net.specs.Claims.{all_claims, with_claims};
ghost use Rattle.compress.specs.Compression.{Compression, HasNoCycle, IsBalanceKept, Leads};
ghost use Rattle.compress.specs.Lowering.{CanLower, lowered};
ghost use Rattle.std.specs.Prelude.{◌≡◌, ◌<◌, ℕ, List, length, slice_index};

/// A compression leaves no cycle of banks with all its debts of one class above 0: the numbers
/// rise along each such debt.
pub fn compression_leaves_no_cycle()
    ensures { (net : Net) (C R : List ℕ) (n : ℕ) → IsNetwork net → Compression net C R n
        → (class : ℕ) → HasNoCycle net C class }
{}

/// Lowering all debts of a cycle of one class by the same keeps the balance of each bank in each
/// class.
pub fn cycles_cancel()
    ensures { (net : Net) (C : List ℕ) (m c d b i : ℕ) (xs : List ℕ) → length C ≡ length net.debts
        → CanLower C m xs → ((k : ℕ) → k < length xs → class_of net (slice_index xs k) ≡ d)
        → Leads (debtor_of net) (creditor_of net) i xs i
        → IsBalanceKept net C c b → IsBalanceKept net (lowered C m xs) c b }
{}

/// A network with lower claims is a network, and has these claims.
pub fn lower_claims_are_a_network()
    ensures { (net : Net) (C : List ℕ) → IsNetwork net → length C ≡ length net.debts
        → IsAtMost C (all_claims net)
        → IsNetwork (with_claims net C) × (all_claims (with_claims net C) ≡ C) }
{}
