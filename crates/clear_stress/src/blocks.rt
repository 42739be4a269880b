//! The blocks of scenarios, of whose payments the lines are made when they are written.
ghost use Rattle.clear_report.specs.Blocks.{stress_text};
ghost use Rattle.clear_report.specs.Words.{empty_line};
ghost use Rattle.clear_stress.specs.Waiting.{paid_lines, waiting_text};
ghost use Rattle.clr_edge.specs.Taking.{PassesOn, TakesPart, TakesWhole, on_sink};
ghost use Rattle.clr_net.specs.Lines.{line};
ghost use Rattle.std.specs.Fmt.{decimal};
ghost use Rattle.std.specs.List.{flat_map};
ghost use Rattle.std.specs.Prelude.{◌≡◌, ◌++◌, ◌∷◌, [], OnOk, OnErr, map};

use clr_edge::line::Line;
use clr_edge::{Sink, SinkFault, pass, pass_both, put_all};

/// The block of a scenario as it waits to be written: what stands above the lines of its payments,
/// what is paid on each debt, in file order, and what stands below these lines.
#[derive(Drop)]
pub struct UnwrittenBlock {
    pub above: Vec<u8>,
    pub paid: Vec<u32>,
    pub below: Vec<u8>,
}

/// The blocks of scenarios as they wait to be written, and the beginnings of the lines of payments,
/// which they share.
#[derive(Drop)]
pub struct Blocks {
    pub heads: Vec<Vec<u8>>,
    pub all: Vec<UnwrittenBlock>,
}

impl Blocks {
    /// Writes the blocks through the room, with an empty line between each two. At a fault some
    /// bytes from their front have been written, but not all, and the count rose. It takes no
    /// memory.
    pub fn put<S: Sink>(&self, sink: &mut S, room: &mut Vec<u8>) -> Result<(), SinkFault>
        ensures written { OnOk result (TakesWhole (on_sink S.written S.faults sink.old sink.new)
            (stress_text (map (waiting_text self.now.heads.items) self.now.all.items))) }
        ensures part { OnErr result (TakesPart (on_sink S.written S.faults sink.old sink.new)
            (stress_text (map (waiting_text self.now.heads.items) self.now.all.items))) }
        ensures well { S.counts_faults_alone → OnOk result (S.faults sink.new ≡ S.faults sink.old) }
    {
        room.clear();
        pass_blocks(sink, room, self.heads.as_slice(), self.all.as_slice())?;
        put_all(sink, room.as_slice())
    }
}

// Passes the text of some blocks, with an empty line between each two.
fn pass_blocks<S: Sink>(
    sink: &mut S,
    room: &mut Vec<u8>,
    heads: &[Vec<u8>],
    blocks: &[UnwrittenBlock],
) -> Result<(), SinkFault>
    ensures { PassesOn S.counts_faults_alone (on_sink S.written S.faults sink.old sink.new)
        room.old.items room.new.items
        (stress_text (map (waiting_text heads.now) blocks.now)) result }
{
    let Some((first, others)) = blocks.split_first() else {
        return Ok(());
    };
    first.pass_block(sink, room, heads)?;
    pass_others(sink, room, heads, others)
}

// Passes the texts of some blocks, with an empty line before each.
fn pass_others<S: Sink>(
    sink: &mut S,
    room: &mut Vec<u8>,
    heads: &[Vec<u8>],
    blocks: &[UnwrittenBlock],
) -> Result<(), SinkFault>
    ensures { PassesOn S.counts_faults_alone (on_sink S.written S.faults sink.old sink.new)
        room.old.items room.new.items
        (flat_map (λ block. empty_line ++ waiting_text heads.now block) blocks.now) result }
{
    for block in blocks {
        block.pass_below(sink, room, heads)?;
    }
    Ok(())
}

impl UnwrittenBlock {
    // Passes the text of the block.
    fn pass_block<S: Sink>(
        &self,
        sink: &mut S,
        room: &mut Vec<u8>,
        heads: &[Vec<u8>],
    ) -> Result<(), SinkFault>
        ensures { PassesOn S.counts_faults_alone (on_sink S.written S.faults sink.old sink.new)
            room.old.items room.new.items (waiting_text heads.now self.now) result }
    {
        pass(sink, room, self.above.as_slice())?;
        pass_lines(sink, room, heads, self.paid.as_slice())?;
        pass(sink, room, self.below.as_slice())
    }

    // Passes the text of the block, with an empty line before it.
    fn pass_below<S: Sink>(
        &self,
        sink: &mut S,
        room: &mut Vec<u8>,
        heads: &[Vec<u8>],
    ) -> Result<(), SinkFault>
        ensures { PassesOn S.counts_faults_alone (on_sink S.written S.faults sink.old sink.new)
            room.old.items room.new.items (empty_line ++ waiting_text heads.now self.now) result }
    {
        pass(sink, room, b"\n")?;
        self.pass_block(sink, room, heads)
    }
}

// Passes the lines of debts that begin so, and on which so much is paid.
fn pass_lines<S: Sink>(
    sink: &mut S,
    room: &mut Vec<u8>,
    heads: &[Vec<u8>],
    paid: &[u32],
) -> Result<(), SinkFault>
    ensures { PassesOn S.counts_faults_alone (on_sink S.written S.faults sink.old sink.new)
        room.old.items room.new.items (paid_lines heads.now paid.now) result }
{
    let mut end = Line::empty();
    let count = heads.len().min(paid.len());
    for x in 0..count {
        pass_line(sink, room, &mut end, heads[x].as_slice(), paid[x])?;
    }
    Ok(())
}

// Passes the line of a debt that begins so, and on which so much is paid.
fn pass_line<S: Sink>(
    sink: &mut S,
    room: &mut Vec<u8>,
    end: &mut Line,
    head: &[u8],
    paid: u32,
) -> Result<(), SinkFault>
    ensures { PassesOn S.counts_faults_alone (on_sink S.written S.faults sink.old sink.new)
        room.old.items room.new.items (head.now ++ line (decimal paid ∷ [])) result }
{
    end.begin(u64::from(paid));
    pass_both(sink, room, head, end.bytes())
}
