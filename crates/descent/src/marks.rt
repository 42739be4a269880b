//! The banks that have more cash in a part of a share than in the share.
ghost use Rattle.clr_net.specs.Net.{cash_of};
ghost use Rattle.std.specs.Bool.{OnFalse};
ghost use Rattle.std.specs.Prelude.{◌≡◌, ◌<◌, ℕ, false, length, slice_index, slice_index_or};

use clr_net::{BankId, Network};

// Marks the banks that have other cash in a copy than each had before, by this list.
pub(crate) fn mark_richer(before: &[u64], laid: &Network, marks: &mut [bool])
    requires before { length before.now ≡ length laid.now.banks }
    requires marks { length marks.old ≡ length laid.now.banks }
    ensures { (i : ℕ) → i < length laid.now.banks → OnFalse (slice_index_or marks.new i false)
        (slice_index before.now i ≡ cash_of laid.now i) }
{
    for number in 0..laid.banks() {
        let place = number as usize;
        marks[place] = before[place] != laid.bank(BankId(number)).cash;
    }
}
