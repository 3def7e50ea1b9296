//! What a gate is told during a run.
use super::runs::HELD_BY_ANOTHER_CORE;
use super::{ONE_EVENT, plain_at};
use em_io::{SureSink, SureSource};
use em_tool::{CoreId, Gate, QueueId};
use std::alloc::Global;
use std::cell::RefCell;
use std::test::*;

/// What a gate was told: the core, queue and handle of a receive that has started, or a core with nothing to do.
#[derive(Clone, Copy, Debug, PartialEq, Eq)]
enum Told {
    Start(u8, u16, u64),
    Idle(u8),
}

/// A gate that keeps what it was told, in order.
#[derive(Drop)]
struct Recorder {
    told: RefCell<Vec<Told>>,
}

impl Recorder {
    fn keep(&self, what: Told) {
        if let Ok(mut told) = self.told.try_borrow_mut() {
            let _ = told.push(what);
        }
    }
}

impl Gate for Recorder {
    fn at_start(&self, core: CoreId, queue: QueueId, word: u64) {
        self.keep(Told::Start(core.0, queue.0, word));
    }

    fn at_idle(&self, core: CoreId) {
        self.keep(Told::Idle(core.0));
    }
}

/// What a gate is told in a run with this status.
fn run_with_recorder(
    alloc: Global,
    words: &str,
    script: &str,
    status: u8,
) -> Result<Vec<Told>, Fail> {
    let mut source = SureSource::new(script.as_bytes().to_vec(alloc)?);
    let mut sink = SureSink::new(alloc);
    let gate = Recorder {
        told: RefCell::new(Vec::new(alloc)),
    };
    let answer = plain_at(alloc, words, &mut source, &mut sink, &gate)?;
    if answer != status {
        return Err(Fail::new("another status"));
    }
    Ok(gate.told.into_inner())
}

const AGAIN: &str =
    "cores 1\npool p 4 1\neo x running\nqueue q parallel x normal all\nboot\nalloc v0 p 0\nsend v0 q\nend\nbody x receive\nsend me q\nend\ndone\n";

const SECOND_QUEUE: &str =
    "cores 1\npool p 2 0\neo x running\nqueue q parallel x normal all\nqueue r parallel x normal all\nboot\nalloc v0 p 0\nalloc v1 p 0\nsend v1 r\nfree v0\nend\nbody x receive\nfree me\nend\ndone\n";

const NO_EVENT: &str = "cores 1\nboot\nend\ndone\n";

/// Each receive once, in order, and nothing else: on one core there is always something to do, until the run is over.
#[test]
fn each_receive_is_told(rt: HostRuntime) -> Result<(), Fail> {
    let alloc = rt.alloc();
    let again = [
        Told::Start(0, 0, 131072),
        Told::Start(0, 0, 196608),
        Told::Start(0, 0, 262144),
    ];
    let rows: [(&str, &str, u8, &[Told]); 4] = [
        ("solo 10 1 0", ONE_EVENT, 0, &again[..1]),
        ("solo 3 1 0", AGAIN, 3, &again),
        ("solo 10 1 0", SECOND_QUEUE, 0, &[Told::Start(0, 1, 131073)]),
        ("solo 10 1 0", NO_EVENT, 0, &[]),
    ];
    for (words, script, status, expected) in rows {
        let found = run_with_recorder(alloc, words, script, status)?;
        assert_eq!(rt; found.as_slice(), expected, "{script}");
    }
    Ok(())
}

/// Two cores: core 1 waits in five rounds until boot has ended, and core 0 at the end for core 1.
#[test]
fn idle_cores_are_told(rt: HostRuntime) -> Result<(), Fail> {
    let alloc = rt.alloc();
    let (words, script, status, _) = HELD_BY_ANOTHER_CORE;
    let found = run_with_recorder(alloc, words, script, status)?;
    let expected = [
        Told::Idle(1),
        Told::Idle(1),
        Told::Idle(1),
        Told::Idle(1),
        Told::Idle(1),
        Told::Start(1, 0, 131072),
        Told::Start(0, 0, 131073),
        Told::Idle(0),
    ];
    assert_eq!(rt; found.as_slice(), expected.as_slice());
    Ok(())
}
