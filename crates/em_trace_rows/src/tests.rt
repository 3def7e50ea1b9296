ghost use Rattle.std.specs.Prelude.{None};

use em_io::{Sink, SinkEnd, SureSink};
use em_log::{
    Begun, Body, Call, Cells, CoreId, EndKind, Entry, Event, EventGroupId, Fault, GroupId, Handle,
    Note, Notes, OpId, PoolId, QueueId, Stamp, What, Words,
};
use em_trace::{TraceEnd, read_history, write_entry, write_history};
use std::test::*;

const ONE_EVENT: &str =
    "trace 1\n0 c0 enter boot\n1 c0 alloc p0 65536 kind 7 words 1 5\n2 c0 send 65536 q0\n3 c0 end lost 0\n4 c0 take q0 1\n5 c0 start q0 131072 kind 7 words 1 5\n6 c0 say 5\n7 c0 free 131072\n8 c0 end lost 0\nquiet\n";

/// Texts that are refused, each with its line and rule.
const REFUSED: [(&str, u64, u8); 23] = [
    (
        "trace 1\n0 c0 enter boot\n1 c0 alloc p0 65536 kind 7 words 1 5\n2 c0 send 65536 q0\n3 c0 end lost 0\n4 c0 take q0 1\n5 c0 start q0 131072 kind 7 words 1 5\n6 c0 say 5\n7 c0 free 131072\n8 c0 end lost 0\n",
        11,
        5,
    ),
    ("trace 1\nquiet\nquiet\n", 3, 5),
    ("trace 3\nquiet\n", 1, 1),
    ("trace 1\n0 c0 say 01\nquiet\n", 2, 3),
    ("", 1, 1),
    ("trace 1\n1 c0 say 1\nquiet\n", 2, 4),
    ("trace 1\n0 c0 jump\nquiet\n", 2, 2),
    ("trace 1", 1, 2),
    ("trace 1\n", 2, 5),
    ("trace 1\nquiet", 2, 2),
    ("trace 1\nquiet\n1 c0 say 1\n", 3, 4),
    ("trace 1\nquiet\n\n", 3, 2),
    ("trace 1\n0 c0 out q0 kind 1 words 2 5\nquiet\n", 2, 2),
    ("trace 1\n0 c0 out q0 kind 1 words 01 5\nquiet\n", 2, 3),
    (
        "trace 1\n0 c0 out q0 kind 1 words 17 1 2 3 4 5 6 7 8 9 10 11 12 13 14 15 16 17\nquiet\n",
        2,
        3,
    ),
    ("trace 1\n0 c256 say 1\nquiet\n", 2, 3),
    ("trace 1\n0 c0 say 18446744073709551616\nquiet\n", 2, 3),
    ("trace 1\n0 c0 fault free 21 0 global\nquiet\n", 2, 3),
    ("trace 1\n0 c0 fault free 6 6 o0\nquiet\n", 2, 3),
    ("trace 1\n0 c0 fault endgroup 9 1 o0\nquiet\n", 2, 3),
    ("trace 1\n0 c0 say  1\nquiet\n", 2, 2),
    ("trace 1\n0 c0 say 1 \nquiet\n", 2, 2),
    ("trace 1\n00 c0 jump\nquiet\n", 2, 2),
];

#[test]
fn refuses_the_first_line_that_fails(rt: HostRuntime) {
    for (text, line, rule) in REFUSED {
        let refusal = match read_history(rt.alloc(), text.as_bytes()) {
            Err(TraceEnd::Refused { line, rule }) => Some((line, rule)),
            _ => None,
        };
        assert_eq!(rt; refusal, Some((line, rule)), "at {text}");
    }
}

#[test]
fn one_event_is_read_and_written(rt: HostRuntime) -> Result<(), Fail> {
    let trace = read_history(rt.alloc(), ONE_EVENT.as_bytes())
        .ok()
        .ok_or("the text is a trace")?;
    let mut sink = SureSink::new(rt.alloc());
    let answer = write_history(&mut sink, trace.entries.as_slice(), trace.end);
    assert_eq!(rt; answer, Ok(()));
    assert_eq!(rt; sink.bytes(), ONE_EVENT.as_bytes());
    Ok(())
}

fn event() -> Event {
    let mut words = Words::new();
    words.push(5);
    words.push(0);
    Event {
        handle: Handle(65536),
        kind: 7,
        words,
    }
}

fn one_note() -> Notes {
    let mut notes = Notes::new();
    notes.push(Note {
        word: 131_072,
        queue: QueueId(3),
    });
    notes
}

const STAMP: Stamp = Stamp {
    group: EventGroupId(1),
    app: 4,
};

/// Each kind of entry, and its line at place 0 by core 1.
fn each_kind() -> [(What, &'static str); 27] {
    [
        (
            What::Enter(Body::LocalStart(OpId(3))),
            "0 c1 enter lstart 3\n",
        ),
        (
            What::Take {
                queue: QueueId(1),
                n: 2,
                ticket: Some(0),
            },
            "0 c1 take q1 2 ticket 0\n",
        ),
        (
            What::Start {
                queue: QueueId(2),
                event: event(),
                stamp: Some(STAMP),
            },
            "0 c1 start q2 65536 kind 7 words 2 5 0 stamp e1 4\n",
        ),
        (
            What::Untake {
                queue: QueueId(1),
                n: 2,
            },
            "0 c1 untake q1 2\n",
        ),
        (
            What::End {
                lost: 1,
                cells: Some(Cells([0, 1, 2, 3, 4, 5, 6, u64::MAX])),
            },
            "0 c1 end lost 1 cells 0 1 2 3 4 5 6 18446744073709551615\n",
        ),
        (
            What::EndAtomic {
                rest: 3,
                cells: Cells([0; 8]),
            },
            "0 c1 endatomic rest 3 cells 0 0 0 0 0 0 0 0\n",
        ),
        (What::EndOrdered, "0 c1 endordered\n"),
        (What::EndGroup, "0 c1 endgroup\n"),
        (
            What::Alloc {
                pool: PoolId(1),
                event: event(),
            },
            "0 c1 alloc p1 65536 kind 7 words 2 5 0\n",
        ),
        (What::Free(Handle(65536)), "0 c1 free 65536\n"),
        (
            What::Send {
                handle: Handle(65536),
                queue: QueueId(0),
                ticket: Some(0),
                stamp: Some(STAMP),
            },
            "0 c1 send 65536 q0 ticket 0 stamp e1 4\n",
        ),
        (What::Keep(Handle(65536)), "0 c1 keep 65536\n"),
        (What::Claim(None), "0 c1 claim none\n"),
        (
            What::Dequeue {
                queue: QueueId(4),
                event: Some(event()),
            },
            "0 c1 dequeue q4 65536 kind 7 words 2 5 0\n",
        ),
        (
            What::Out {
                queue: QueueId(5),
                kind: 7,
                words: Words::new(),
            },
            "0 c1 out q5 kind 7 words 0\n",
        ),
        (What::Say(u64::MAX), "0 c1 say 18446744073709551615\n"),
        (What::Enable(QueueId(1)), "0 c1 enable q1\n"),
        (What::Disable(QueueId(65535)), "0 c1 disable q65535\n"),
        (
            What::Begin {
                op: OpId(0),
                job: Begun::Modify(GroupId(1), 3),
                notes: one_note(),
            },
            "0 c1 begin 0 modify g1 3 notes 1 131072 q3\n",
        ),
        (
            What::GlobalDone {
                op: OpId(0),
                ok: false,
            },
            "0 c1 gdone 0 failed\n",
        ),
        (What::Ack(OpId(0)), "0 c1 ack 0\n"),
        (
            What::Done {
                op: OpId(0),
                ok: true,
            },
            "0 c1 done 0 ok\n",
        ),
        (
            What::Apply {
                group: EventGroupId(0),
                app: 1,
                count: 2,
                notes: Notes::new(),
            },
            "0 c1 apply e0 1 2 notes 0\n",
        ),
        (
            What::Increment {
                group: EventGroupId(0),
                n: 5,
            },
            "0 c1 increment e0 5\n",
        ),
        (What::Abort(EventGroupId(0)), "0 c1 abort e0\n"),
        (
            What::Notify {
                group: EventGroupId(0),
                app: 1,
            },
            "0 c1 notify e0 1\n",
        ),
        (
            What::Fault {
                call: Call::Note,
                fault: Fault::NoteLost(QueueId(3)),
                scope: None,
            },
            "0 c1 fault note 17 3 global\n",
        ),
    ]
}

fn written(sink: &mut SureSink, what: What) -> Result<(), SinkEnd> {
    let entry = Entry {
        core: CoreId(1),
        what,
    };
    write_entry(sink, 0, &entry)
}

#[test]
fn each_kind_is_written_and_read(rt: HostRuntime) -> Result<(), Fail> {
    for (what, line) in each_kind() {
        let mut sink = SureSink::new(rt.alloc());
        assert_eq!(rt; sink.write(b"trace 1\n"), Ok(()));
        assert_eq!(rt; written(&mut sink, what), Ok(()));
        assert_eq!(rt; sink.write(b"quiet\n"), Ok(()));
        let text = format!(in rt.alloc(); "trace 1\n{line}quiet\n")?;
        assert_eq!(rt; sink.bytes(), text.as_bytes(), "written: {line}");
        let trace = read_history(rt.alloc(), sink.bytes())
            .ok()
            .ok_or("a line of the table")?;
        let mut again = SureSink::new(rt.alloc());
        let answer = write_history(&mut again, trace.entries.as_slice(), trace.end);
        assert_eq!(rt; answer, Ok(()));
        assert_eq!(rt; again.bytes(), text.as_bytes(), "read back: {line}");
    }
    Ok(())
}

/// A sink whose third call fails.
#[derive(Drop)]
struct ThirdFails {
    calls: u64,
    faults: u64,
}

impl Sink for ThirdFails {
    ghost written = { λ _. None };

    ghost faults = { λ s. s.faults };

    fn write(&mut self, _piece: &[u8]) -> Result<(), SinkEnd> {
        self.calls = self.calls.saturating_add(1);
        if self.calls == 3 {
            self.faults = self.faults.saturating_add(1);
            return Err(SinkEnd::Failed);
        }
        Ok(())
    }
}

#[test]
fn nothing_is_written_after_a_failed_call(rt: HostRuntime) -> Result<(), Fail> {
    let trace = read_history(rt.alloc(), ONE_EVENT.as_bytes())
        .ok()
        .ok_or("the text is a trace")?;
    let mut sink = ThirdFails {
        calls: 0,
        faults: 0,
    };
    let answer = write_history(&mut sink, trace.entries.as_slice(), EndKind::Quiet);
    assert_eq!(rt; answer, Err(SinkEnd::Failed));
    assert_eq!(rt; sink.calls, 3);
    assert_eq!(rt; sink.faults, 1);
    Ok(())
}
