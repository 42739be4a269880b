ghost use Rattle.std.specs.Prelude.{◌<◌, length};

use clr_edge::{Sink, SinkFault};
use clr_host::StdSink;
use std::io;
use std::io::{ErrorKind, Write};
use std::test::Fail;

// What a stream answers to a write. Where it takes bytes, these are three at most. What is not
// flushed was taken, but the flush after it fails.
#[derive(Clone, Copy)]
enum Answer {
    Interrupted,
    Failed,
    Taken,
    Unflushed,
}

use Answer::{Failed, Interrupted, Taken, Unflushed};

// A stream that gives these answers in turn, and takes bytes after them. It counts its writes and
// its flushes.
#[derive(Drop)]
struct Scripted<'a> {
    answers: &'a [Answer],
    writes: usize,
    flushes: usize,
}

impl Write for Scripted<'_> {
    fn write(&mut self, buf: &[u8]) -> io::Result<usize> {
        let answer = self.answers.get(self.writes).copied().unwrap_or(Taken);
        self.writes = self.writes.saturating_add(1);
        match answer {
            Interrupted => Err(io::Error::from(ErrorKind::Interrupted)),
            Failed => Err(io::Error::from(ErrorKind::BrokenPipe)),
            Taken | Unflushed => Ok(buf.len().min(3)),
        }
    }

    fn flush(&mut self) -> io::Result<()> {
        self.flushes = self.flushes.saturating_add(1);
        match self.answers.get(self.writes.saturating_sub(1)) {
            Some(Unflushed) => Err(io::Error::from(ErrorKind::BrokenPipe)),
            _ => Ok(()),
        }
    }
}

// The answers of a stream, what a put comes to, and the writes and flushes then.
type Put<'a> = (&'a [Answer], Result<usize, SinkFault>, usize, usize);

const PUTS: [Put<'static>; 6] = [
    (&[Taken], Ok(3), 1, 1),
    (&[Interrupted, Taken], Ok(3), 2, 1),
    (&[Interrupted, Interrupted, Interrupted, Taken], Ok(3), 4, 1),
    (&[Failed, Taken], Err(SinkFault), 1, 0),
    (&[Interrupted, Failed, Taken], Err(SinkFault), 2, 0),
    (&[Unflushed, Taken], Err(SinkFault), 1, 1),
];

fn put_to(answers: &[Answer], piece: &[u8]) -> (Result<usize, SinkFault>, usize, usize)
    requires { 0 < length piece.now }
{
    let mut stream = Scripted {
        answers,
        writes: 0,
        flushes: 0,
    };
    let told = StdSink::new(&mut stream).put(piece);
    (told, stream.writes, stream.flushes)
}

#[test]
fn an_interrupted_write_is_tried_again_and_a_failed_one_is_the_last(
    rt: HostRuntime,
) -> Result<(), Fail> {
    let long = vec![in rt.alloc(); b'1'; 100_000]?;
    for (answers, told, writes, flushes) in &PUTS {
        assert_eq!(rt; put_to(answers, b"A,B,1"), (*told, *writes, *flushes));
        assert_eq!(rt;
            put_to(answers, long.as_slice()),
            (*told, *writes, *flushes)
        );
    }
    Ok(())
}

// What a stream with this room answers to two pieces.
fn put_twice(room: &mut [u8]) -> [Result<usize, SinkFault>; 2] {
    let mut sink = StdSink::new(room);
    [sink.put(b"A,B,1,10"), sink.put(b",10")]
}

#[test]
fn a_stream_takes_a_part_of_a_piece_and_fails_where_it_takes_nothing(rt: HostRuntime) {
    let mut room = [0; 5];
    let told = put_twice(&mut room);
    assert_eq!(rt; (told, room), ([Ok(5), Err(SinkFault)], *b"A,B,1"));
}
