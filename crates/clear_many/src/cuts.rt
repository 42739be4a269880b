//! The blocks that the cuts of all cash are parted into, and the order in which they are gone
//! through.
ghost use Rattle.clear_many.specs.Blocks.{across as across_of, edge as edge_of};
ghost use Rattle.std.specs.Prelude.{◌≡◌, ◌<◌, ◌≤◌};

use shares::THREADS;
use stress::MAX_CUT;

// How many blocks there are: as many for each thread as there are threads.
pub(crate) const BLOCKS: usize = THREADS * THREADS;

// The last block has so many cuts alone, the greatest. A clearing that leaves hardly any cash takes
// the longest by far, so the thread of this block has nothing else.
const LAST_CUTS: u32 = 3;

// The cut at which the last block begins.
const LAST_EDGE: u32 = MAX_CUT as u32 + 1 - LAST_CUTS;

// How many cuts a block of the other threads has: the least number by which these blocks have all
// cuts below the last block.
const BLOCK_CUTS: u32 = (LAST_EDGE - 1) / (BLOCKS - THREADS) as u32 + 1;

// The cut at which a block begins, and the one before it ends. Of the blocks on the thread of the
// last one all others have no cuts: each begins where the next one does.
pub(crate) fn edge(block: usize) -> u32
    requires { block ≤ BLOCKS }
    ensures { result ≡ edge_of block }
{
    let ended = (block / BLOCKS) as u32;
    let with_cuts = (block - block / THREADS) as u32;
    (BLOCK_CUTS * with_cuts).min(LAST_EDGE + LAST_CUTS * ended)
}

// The block that is gone through in a place, and the place of a block. Higher cuts break more
// banks: so a thread, whose places stand side by side, has blocks far apart.
pub(crate) fn across(place: usize) -> usize
    requires { place < BLOCKS }
    ensures { result ≡ across_of place }
{
    place % THREADS * THREADS + place / THREADS
}
