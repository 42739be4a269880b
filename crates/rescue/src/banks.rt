ghost use Rattle.cascade.specs.MoreCash.{is_sound_at_least};
ghost use Rattle.cascade.specs.Standings.{bank_numbers, is_default, standings as standings_of};
ghost use Rattle.clear_core.specs.Clearing.{least as least_of};
ghost use Rattle.clr_net.specs.Net.{Net};
ghost use Rattle.rescue.specs.Saved.{banks_in_default};
ghost use Rattle.std.specs.Prelude.{◌≡◌, ◌<◌, ℕ, All, Bool, IfOk, filter, length, map, not};

use cascade::{Health, Standing};
use clr_net::{BankId, Mem, Network};
use std::alloc::Global;

// A test of the banks of a network.
pub(crate) trait BankTest {
    // It can be made on the network.
    ghost can: { Self → Net → Type 0 };

    // A bank passes.
    ghost passes: { Self → Net → ℕ → Bool };

    fn test(&self, net: &Network, bank: BankId) -> bool
        requires can { can self.now net.now }
        requires bank { bank.0 < length net.now.banks }
        ensures { result ≡ passes self.now net.now bank.0 };
}

// The banks that pass a test, in file order.
pub(crate) fn passing<T: BankTest>(
    alloc: Global,
    net: &Network,
    test: &T,
) -> Result<Vec<BankId>, Mem>
    requires { T.can test.now net.now }
    ensures banks { IfOk result (λ all.
        map (λ b. b.0) all.items ≡ filter (T.passes test.now net.now) (bank_numbers net.now)) }
    ensures known { IfOk result (λ all. All (λ b. b.0 < length net.now.banks) all.items) }
{
    let mut all = Vec::new(alloc);
    for number in 0..net.banks() {
        if test.test(net, BankId(number)) {
            all.push(BankId(number))?;
        }
    }
    Ok(all)
}

/// The banks in default under the least payments that clear, in file order.
///
/// `standings` is how each bank stands under these payments, in file order. `Mem` for want of
/// memory alone.
pub fn banks_in_default(
    alloc: Global,
    net: &Network,
    standings: &[Standing],
) -> Result<Vec<BankId>, Mem>
    requires { standings.now ≡ standings_of net.now (least_of net.now) }
    ensures banks { IfOk result (λ all. map (λ b. b.0) all.items ≡ banks_in_default net.now) }
    ensures known { IfOk result (λ all. All (λ b. b.0 < length net.now.banks) all.items) }
{
    passing(alloc, net, &InDefault { standings })
}

// Whether a bank that stands so under the least payments is in default.
#[derive(Drop)]
struct InDefault<'a> {
    standings: &'a [Standing],
}

impl<'a> BankTest for InDefault<'a> {
    ghost can = { λ t net. t.standings.now ≡ standings_of net (least_of net) };

    ghost passes = { λ t net i. not (is_sound_at_least net i) };

    fn test(&self, _net: &Network, bank: BankId) -> bool {
        is_default(self.standings[bank.0 as usize].health)
    }
}

// Whether a bank that stands so is in default.
pub(crate) fn is_default(health: Health) -> bool
    ensures { result ≡ is_default health }
{
    health != Health::Sound
}
