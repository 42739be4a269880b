//! The raises of a round, from the journals of its workers to that of the run.
ghost use Rattle.raise_journal.specs.Gathered.{HasGrownBy, HasMerged, raises_of_all};
ghost use Rattle.settle.specs.Between.{noted_in};
ghost use Rattle.settle.specs.declared.run.Way.TheVariants.{InTurn};
ghost use Rattle.std.specs.Prelude.{◌≡◌, ◌≤◌, [], OnOk, length};

use crate::run::Way;
use clear_core::Journal;
use clr_net::Mem;
use raise_journal::merge_in;
use std::alloc::Global;
use std::mem;

// Of so many workers the raises are merged.
const FEW_WORKERS: usize = 8;

// So many raises are not copied where they need not be. Fewer are, which costs little, and a worker
// keeps the room of a list that is short (`Office::keep`).
const MANY_RAISES: usize = 1_000;

/// Notes the raises of one of so many workers. Where these went one after another, none waits, and
/// they are added to those of their round, which stand in the journal from this place on. Where
/// they went beside one another they wait, so that the next round can be made meanwhile. Answers a
/// journal whose room is free.
pub(crate) fn note(
    alloc: Global,
    journal: &mut Journal,
    waiting: &mut Vec<Journal>,
    from: usize,
    made: Journal,
    workers: usize,
    way: Way,
) -> Result<Journal, Mem>
    requires none_waits { way ≡ InTurn → waiting.old.items ≡ [] }
    requires place { way ≡ InTurn → from ≤ length journal.old.raises }
    ensures noted { OnOk result (HasMerged (noted_in journal.old.raises waiting.old.items)
        (noted_in journal.new.raises waiting.new.items) from made.raises) }
    ensures none_waits { OnOk result (way ≡ InTurn → waiting.new.items ≡ []) }
{
    match way {
        Way::InTurn => add_raises(alloc, journal, from, made, workers),
        Way::Beside => {
            waiting.push(made)?;
            Ok(Journal::empty(alloc))
        }
    }
}

/// Adds the raises that wait to the journal.
pub(crate) fn add_waiting(
    alloc: Global,
    journal: &mut Journal,
    waiting: &mut Vec<Journal>,
) -> Result<(), Mem>
    ensures grown { OnOk result (HasGrownBy journal.old.raises journal.new.raises
        (raises_of_all waiting.old.items)) }
    ensures none_waits { OnOk result (waiting.new.items ≡ []) }
{
    if waiting.is_empty() {
        return Ok(());
    }
    let from = journal.as_slice().len();
    let parts = mem::replace(waiting, Vec::new(alloc));
    let workers = parts.len();
    for made in parts {
        add_raises(alloc, journal, from, made, workers)?;
    }
    Ok(())
}

// Adds the raises of one of so many workers to those of its round, which stand from this place on.
// They are merged where the workers are few. Among many each run would move most of the others, and
// the sort at the end is quicker. Where there is no raise yet a long journal is taken as it is.
// Answers a journal whose room is free.
fn add_raises(
    alloc: Global,
    journal: &mut Journal,
    from: usize,
    made: Journal,
    workers: usize,
) -> Result<Journal, Mem>
    requires { from ≤ length journal.old.raises }
    ensures { OnOk result (HasMerged journal.old.raises journal.new.raises from made.raises) }
{
    let before = journal.as_slice().len();
    if before == 0 && made.as_slice().len() >= MANY_RAISES {
        return Ok(mem::replace(journal, made));
    }
    let place = if workers <= FEW_WORKERS { from } else { before };
    let raises = made.as_slice();
    merge_in(alloc, journal, place, raises)?;
    Ok(made)
}
