ghost use Rattle.clear_core.specs.Buffers.{HasRoom};
ghost use Rattle.clear_core.specs.Clearing.{Clears};
ghost use Rattle.clear_core.specs.Quiet.{IsFirstUnquiet, IsQuiet, IsWithinClaims};
ghost use Rattle.std.specs.Prelude.{◌≡◌, ◌↔◌, IfSome, None, length};

use crate::receipts::receipts_of;
use crate::scratch::Scratch;
use clr_net::{BankId, Network};

/// The first bank that does not pay on each of its debts what its rule gives from its cash and from
/// what it receives, less what it owes outside the network, all by `paid`; `None` exactly where
/// there is no such bank, and so the payments clear the network.
///
/// `paid` has a place for each debt, in file order, in units. Takes no memory.
pub fn first_unquiet(net: &Network, paid: &[u64], scratch: &mut Scratch) -> Option<BankId>
    requires over { length paid.now ≡ length net.now.debts }
    requires within { IsWithinClaims net.now paid.now }
    requires room { HasRoom net.now scratch.old }
    ensures first { IfSome result (λ bank. IsFirstUnquiet net.now paid.now bank.0) }
    ensures none { (result ≡ None) ↔ IsQuiet net.now paid.now }
    ensures clears { (result ≡ None) ↔ Clears net.now paid.now }
    ensures room { scratch.new ≡ scratch.old }
{
    for number in 0..net.banks() {
        let bank = BankId(number);
        let receipts = receipts_of(net, bank, paid);
        if !scratch.gives(net, bank, receipts, paid) {
            return Some(bank);
        }
    }
    None
}
