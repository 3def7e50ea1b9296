//! A run whose sink fails at each call in turn.
ghost use Rattle.std.specs.Prelude.{Some};

use super::runs::HELD_BY_ANOTHER_CORE;
use super::{ONE_EVENT, ONE_EVENT_RUN, plain};
use em_io::{MemSink, Sink, SinkEnd, SureSource};
use std::alloc::Global;
use std::process::Abort;
use std::test::*;

/// A sink in memory that counts its calls, and knows whether each was given one whole line.
#[derive(Drop)]
struct Watched {
    sink: MemSink,
    calls: u32,
    lines: bool,
}

fn is_line(piece: &[u8]) -> bool {
    match piece.split_last() {
        Some((last, line)) => *last == b'\n' && !line.contains(&b'\n'),
        None => false,
    }
}

impl Sink for Watched {
    ghost use Rattle.em_io.specs.Memory.{sink_bytes, sink_faults};

    ghost written = { λ s. Some (sink_bytes s.sink) };

    ghost faults = { λ s. sink_faults s.sink };

    fn write(&mut self, piece: &[u8]) -> Result<(), SinkEnd> {
        self.calls = self.calls.saturating_add(1);
        self.lines = self.lines && is_line(piece);
        self.sink.write(piece)
    }
}

/// Where call `k` fails, the first `k` lines are written, one in each call, and nothing is written behind it.
fn fails_at_each_call(
    rt: &impl Abort,
    alloc: Global,
    words: &str,
    script: &str,
    trace: &str,
) -> Result<(), Fail> {
    let mut expected = String::new(alloc);
    let mut number: u32 = 0;
    for line in trace.lines() {
        let next = number.saturating_add(1);
        let mut source = SureSource::new(script.as_bytes().to_vec(alloc)?);
        let mut sink = Watched {
            sink: MemSink::new(alloc, vec![in alloc; number]?),
            calls: 0,
            lines: true,
        };
        let status = plain(alloc, words, &mut source, &mut sink)?;
        assert_eq!(rt; status, 1, "{number}");
        assert_eq!(rt; sink.sink.bytes(), expected.as_bytes(), "{number}");
        assert_eq!(rt; sink.calls, next, "{number}");
        assert!(rt; sink.lines, "{number}");
        expected.push_str(line)?;
        expected.push('\n')?;
        number = next;
    }
    assert_eq!(rt; expected.as_str(), trace);
    Ok(())
}

#[test]
fn the_sink_fails_at_each_call(rt: HostRuntime) -> Result<(), Fail> {
    let alloc = rt.alloc();
    fails_at_each_call(&rt, alloc, "solo 10 1 0", ONE_EVENT, ONE_EVENT_RUN)?;
    let (words, script, _, trace) = HELD_BY_ANOTHER_CORE;
    fails_at_each_call(&rt, alloc, words, script, trace)
}
