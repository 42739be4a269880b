ghost use Rattle.compress.specs.Walk.{AreDone, IsKept, IsSizedFor, mark_of};
ghost use Rattle.compress.specs.declared.mark.Mark.TheVariants.{Done, New};
ghost use Rattle.std.specs.Prelude.{◌≡◌, ◌<◌, ℕ, [], OnOk, length, replicate};

use crate::mark::Mark;
use crate::walk::{Walk, walk_from};
use clr_net::{BankId, Mem, Network};

/// Cancels all cycles of debts above 0 of a class, and numbers all banks.
pub(crate) fn cancel_cycles(
    net: &Network,
    class: u8,
    claims: &mut [u64],
    walk: &mut Walk,
) -> Result<(), Mem>
    requires claims { length claims.old ≡ length net.now.debts }
    requires sizes { IsSizedFor net.now walk.old }
    requires empty { walk.old.steps.items ≡ [] }
    ensures sizes { OnOk result (IsSizedFor net.now walk.new) }
    ensures empty { OnOk result (walk.new.steps.items ≡ []) }
    ensures kept { OnOk result (IsKept net.now class claims.old claims.new
        (replicate (length net.now.banks) New) walk.new.marks.items) }
    ensures done { OnOk result (AreDone net.now class claims.new walk.new.ranks.items
        walk.new.marks.items) }
    ensures all { OnOk result ((b : ℕ) → b < length net.now.banks
        → mark_of walk.new.marks.items b ≡ Done) }
{
    walk.marks.fill(Mark::New);
    walk.cursors.fill(0);
    walk.heads.fill(None);
    walk.ranks.fill(0);
    for number in 0..net.banks() {
        if walk.marks[number as usize].is_done() {
            continue;
        }
        walk_from(net, class, BankId(number), claims, walk)?;
    }
    Ok(())
}
