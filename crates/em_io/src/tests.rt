use crate::{
    Failed, MemSink, MemSource, ReadEnd, Sink, SinkEnd, Source, StdSink, StdSource, SureSink,
    SureSource, read_all,
};
use std::io;
use std::io::ErrorKind;
use std::test::Fail;

/// Gives at most three bytes a call, and fails at the second call.
#[derive(Drop)]
struct Halting {
    text: &'static [u8],
    calls: u32,
}

impl io::Read for Halting {
    fn read(&mut self, buf: &mut [u8]) -> io::Result<usize> {
        self.calls = self.calls.saturating_add(1);
        if self.calls == 2 {
            return Err(io::Error::from(ErrorKind::TimedOut));
        }
        let count = self.text.len().min(buf.len()).min(3);
        buf[..count].copy_from_slice(&self.text[..count]);
        self.text = &self.text[count..];
        Ok(count)
    }
}

#[test]
fn a_reader_that_fails_makes_one_call_fail(rt: HostRuntime) -> Result<(), Fail> {
    let mut source = StdSource::new(Halting {
        text: b"event",
        calls: 0,
    });
    let mut buf = [0; 8];
    assert_eq!(rt; source.read(&mut buf), Ok(3));
    assert_eq!(rt; buf[..3], *b"eve".as_slice());
    assert_eq!(rt; source.read(&mut buf), Err(Failed));
    assert_eq!(rt; source.read(&mut buf), Ok(2));
    assert_eq!(rt; buf[..2], *b"nt".as_slice());
    assert_eq!(rt; source.read(&mut buf), Ok(0));
    Ok(())
}

/// Takes at most two bytes a call, none at `!`, and fails at `?`. A flush fails once a `#` was taken.
#[derive(Drop)]
struct Narrow {
    taken: [u8; 16],
    len: usize,
    flushes: u32,
}

impl io::Write for Narrow {
    fn write(&mut self, buf: &[u8]) -> io::Result<usize> {
        let count = buf.len().min(2);
        let len = self.len;
        if buf.starts_with(b"?") || len > 12 {
            return Err(io::Error::from(ErrorKind::BrokenPipe));
        }
        if buf.starts_with(b"!") {
            return Ok(0);
        }
        self.taken[len..len + count].copy_from_slice(&buf[..count]);
        self.len = len + count;
        Ok(count)
    }

    fn flush(&mut self) -> io::Result<()> {
        self.flushes = self.flushes.saturating_add(1);
        if self.taken.contains(&b'#') {
            return Err(io::Error::from(ErrorKind::BrokenPipe));
        }
        Ok(())
    }
}

#[test]
fn a_piece_is_written_whole_and_flushed(rt: HostRuntime) -> Result<(), Fail> {
    let mut writer = Narrow {
        taken: [0; 16],
        len: 0,
        flushes: 0,
    };
    let mut sink = StdSink::new(&mut writer);
    let pieces: [(&[u8], Result<(), SinkEnd>); 6] = [
        (b"trace 1", Ok(())),
        (b"", Ok(())),
        (b"ab!", Err(SinkEnd::Failed)),
        (b"?", Err(SinkEnd::Failed)),
        (b"c", Ok(())),
        (b"#", Err(SinkEnd::Failed)),
    ];
    for (piece, answer) in pieces {
        assert_eq!(rt; sink.write(piece), answer);
    }
    assert_eq!(rt; writer.taken[..11], *b"trace 1abc#".as_slice());
    assert_eq!(rt; writer.len, 11);
    assert_eq!(rt; writer.flushes, 4);
    Ok(())
}

#[test]
fn a_source_is_read_up_to_a_limit(rt: HostRuntime) -> Result<(), Fail> {
    let alloc = rt.alloc();
    for (len, limit, fits) in [
        (0, 0, true),
        (1, 0, false),
        (5, 5, true),
        (6, 5, false),
        (10000, 10000, true),
        (10000, 9999, false),
    ] {
        let bytes = vec![in alloc; 7; len]?;
        let mut source = SureSource::new(bytes);
        match read_all(alloc, &mut source, limit) {
            Ok(bytes) => assert!(rt; fits && bytes.len() == len),
            Err(ReadEnd::TooLong) => assert!(rt; !fits),
            Err(_) => assert!(rt; false),
        }
    }
    Ok(())
}

#[test]
fn listed_calls_fail(rt: HostRuntime) -> Result<(), Fail> {
    let alloc = rt.alloc();
    let mut source = MemSource::new(b"event".to_vec(alloc)?, vec![in alloc; 1, 3]?);
    let mut buf = [0; 2];
    for answer in [Ok(2), Err(Failed), Ok(2), Err(Failed), Ok(1), Ok(0)] {
        assert_eq!(rt; source.read(&mut buf), answer);
    }
    let mut source = MemSource::new(b"event".to_vec(alloc)?, vec![in alloc; 1]?);
    assert!(rt; matches!(read_all(alloc, &mut source, 9), Err(ReadEnd::Failed)));
    let mut sink = MemSink::new(alloc, vec![in alloc; 1]?);
    assert_eq!(rt; sink.write(b"a"), Ok(()));
    assert_eq!(rt; sink.write(b"b"), Err(SinkEnd::Failed));
    assert_eq!(rt; sink.write(b"c"), Ok(()));
    assert_eq!(rt; *sink.bytes(), *b"ac".as_slice());
    let mut sink = SureSink::new(alloc);
    assert_eq!(rt; sink.write(b"ab"), Ok(()));
    assert_eq!(rt; *sink.bytes(), *b"ab".as_slice());
    Ok(())
}
