ghost use Rattle.cascade.specs.Standings.{standings as standings_of};
ghost use Rattle.clear_core.specs.Clearing.{least as least_of};
ghost use Rattle.std.specs.Prelude.{◌≡◌};

use cascade::Standing;
use clr_net::Network;

/// A network before a bank of it is saved, with what is known of it then.
#[derive(Clone, Copy)]
pub struct Before<'a> {
    pub net: &'a Network,
    /// The least payments that clear the network, a place for each debt, in file order, in units.
    pub least: &'a [u64],
    /// How each bank stands under them, in file order.
    pub standings: &'a [Standing],
    pub ghost are_least: { least.now ≡ least_of net.now },
    pub ghost stand: { standings.now ≡ standings_of net.now (least_of net.now) },
}
