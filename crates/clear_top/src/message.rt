//! The line that tells a person how a run ended.
ghost use Rattle.clr_edge.specs.Taking.{on_sink};
ghost use Rattle.clear_top.specs.Message.{message, name_if, TakesText};
ghost use Rattle.std.specs.List.{concat};
ghost use Rattle.std.specs.Option.{option_map};
ghost use Rattle.std.specs.Prelude.{◌≡◌, ◌∷◌, [], codes, map};

use crate::status::Status;
use clear_load::{Source, source_of};
use clear_words::Job;
use clr_edge::{Sink, put_all};
use itoa::Buffer;
use net_check::{Fault, FileKind};

/// Writes the line that tells a person of a status, and nothing where the run is done. It takes no
/// memory, and a fault of the sink changes nothing.
pub fn tell<E: Sink>(err: &mut E, status: Status, job: Option<&Job>)
    ensures told { TakesText (on_sink E.written E.faults err.old err.new)
        (message status (option_map (λ job. job.now) job.entry)) }
    ensures quiet { status ≡ Status.Done → err.new ≡ err.old }
{
    match status {
        Status::Done => {}
        Status::Usage => put_text(err, "clearing: the command line is not understood\n"),
        Status::ReadFault(kind) => tell_name(err, name_of(job, kind)),
        Status::Refused(fault) => tell_fault(err, fault),
        Status::WriteFault => put_text(err, "clearing: cannot write the output\n"),
        Status::Mem => put_text(err, "clearing: out of memory\n"),
        Status::Unlawful(_) => put_text(
            err,
            "clearing: the journal is not a lawful complete history\n",
        ),
    }
}

// Writes a text, up to a fault of the sink. Takes no memory.
fn put_text<S: Sink>(sink: &mut S, text: &str)
    ensures { TakesText (on_sink S.written S.faults sink.old sink.new) text.now }
{
    let _ = put_all(sink, text.as_bytes());
}

// The name of the job's file of a kind; none where there is no job, or it has no such file.
fn name_of<'a>(job: Option<&'a Job>, kind: FileKind) -> &'a str
    ensures { result.now ≡ name_if (option_map (λ job. job.now) job.entry) kind }
{
    let Some(job) = job else {
        return "";
    };
    match (source_of(job.task), kind) {
        (Source::Generated, _) => "",
        (_, FileKind::Banks) => job.banks.as_str(),
        (_, FileKind::Debts) => job.debts.as_str(),
        (Source::FilesAndScenarios, FileKind::Scenarios) => job.third.as_str(),
        (Source::FilesAndJournal, FileKind::Journal) => job.third.as_str(),
        _ => "",
    }
}

// Writes that the file of this name cannot be read.
fn tell_name<E: Sink>(err: &mut E, name: &str)
    ensures { TakesText (on_sink E.written E.faults err.old err.new)
        (concat (codes "clearing: cannot read " ∷ name.now ∷ codes "\n" ∷ [])) }
{
    let pieces = [
        "clearing: cannot read ".as_bytes(),
        name.as_bytes(),
        "\n".as_bytes(),
    ];
    put_pieces(err, &pieces);
}

// Writes which file has a fault, in which row, and what it is.
fn tell_fault<E: Sink>(err: &mut E, fault: Fault)
    ensures { TakesText (on_sink E.written E.faults err.old err.new)
        (message (Status.Refused fault) None) }
{
    let mut row = Buffer::new();
    let mut number = Buffer::new();
    let pieces = [
        "clearing: ".as_bytes(),
        fault.file.word().as_bytes(),
        " row ".as_bytes(),
        row.format(fault.row).as_bytes(),
        ": ".as_bytes(),
        fault.kind.word().as_bytes(),
        " (".as_bytes(),
        number.format(fault.kind.number()).as_bytes(),
        ")\n".as_bytes(),
    ];
    put_pieces(err, &pieces);
}

// Writes pieces one after another, up to a fault of the sink.
fn put_pieces<S: Sink>(sink: &mut S, pieces: &[&[u8]])
    ensures { TakesText (on_sink S.written S.faults sink.old sink.new)
        (concat (map (λ piece. piece.now) pieces.now)) }
{
    for piece in pieces {
        if put_all(sink, piece).is_err() {
            return;
        }
    }
}
