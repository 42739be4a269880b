//! How banks stand under the least payments of a network, and the text of it.
ghost use Rattle.clear_core.specs.Clearing.{least};
ghost use Rattle.clear_report.specs.Least.{defaults_report, least_standings as standings_of};
ghost use Rattle.std.specs.Prelude.{◌≡◌, IfOk, length};

use crate::defaults::default_text;
use cascade::{Standing, defaults};
use clr_net::{Mem, Network};
use std::alloc::Global;

/// How the banks stand under the least payments.
pub fn least_standings(alloc: Global, net: &Network, paid: &[u64]) -> Result<Vec<Standing>, Mem>
    requires { paid.now ≡ least net.now }
    ensures standings { IfOk result (λ all. all.items ≡ standings_of net.now) }
    ensures as_many { IfOk result (λ all. length all.items ≡ length net.now.banks) }
{
    defaults(alloc, net, paid)
}

/// The text of who defaults under the least payments, and with which label.
pub fn least_default_text(alloc: Global, net: &Network, paid: &[u64]) -> Result<Vec<u8>, Mem>
    requires { paid.now ≡ least net.now }
    ensures { IfOk result (λ text. text.items ≡ defaults_report net.now) }
{
    let standings = least_standings(alloc, net, paid)?;
    default_text(alloc, net, standings.as_slice())
}
