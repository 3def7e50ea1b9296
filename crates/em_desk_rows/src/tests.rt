use crate::graphs::{graph, with_queue, with_queues};
use crate::moves::{Move, run};
use em_desk::Desk;
use em_io::SureSink;
use em_log::{EndKind, EoId, GroupId, Kind, List, NoMemory, PoolShape, Priority, QueueShape};
use em_trace::write_history;
use std::alloc::Global;
use std::test::*;

const SENT_TWICE: [(u8, Move); 8] = [
    (0, Move::Take),
    (0, Move::Alloc(0)),
    (0, Move::Send(65536)),
    (0, Move::Send(65536)),
    (0, Move::End),
    (0, Move::Take),
    (0, Move::Free(131_072)),
    (0, Move::End),
];

const FREED_TWICE: [(u8, Move); 7] = [
    (0, Move::Take),
    (0, Move::Alloc(0)),
    (0, Move::Free(65536)),
    (0, Move::Alloc(0)),
    (0, Move::Free(65536)),
    (0, Move::Free(131_072)),
    (0, Move::End),
];

const POOL_EMPTY: [(u8, Move); 6] = [
    (0, Move::Take),
    (0, Move::Alloc(0)),
    (0, Move::Alloc(0)),
    (0, Move::Free(65536)),
    (0, Move::Alloc(0)),
    (0, Move::End),
];

const LIMIT_OF_THREE: [(u8, Move); 13] = [
    (0, Move::Take),
    (0, Move::Alloc(0)),
    (0, Move::Send(65536)),
    (0, Move::End),
    (0, Move::Take),
    (0, Move::Send(131_072)),
    (0, Move::End),
    (0, Move::Take),
    (0, Move::Send(196_608)),
    (0, Move::End),
    (0, Move::Take),
    (0, Move::Send(262_144)),
    (0, Move::End),
];

const HELD_BY_ANOTHER_CORE: [(u8, Move); 16] = [
    (0, Move::Take),
    (0, Move::Alloc(1)),
    (0, Move::Send(65536)),
    (0, Move::Alloc(2)),
    (0, Move::Send(65537)),
    (0, Move::End),
    (1, Move::Take),
    (0, Move::Take),
    (1, Move::Say(1)),
    (0, Move::Free(131_072)),
    (1, Move::Say(1)),
    (0, Move::Free(131_073)),
    (1, Move::Say(1)),
    (0, Move::End),
    (1, Move::Free(131_072)),
    (1, Move::End),
];

const KEEP_AND_CLAIM: [(u8, Move); 11] = [
    (0, Move::Take),
    (0, Move::Alloc(4)),
    (0, Move::Send(65536)),
    (0, Move::End),
    (0, Move::Take),
    (0, Move::Keep(131_072)),
    (0, Move::Claim),
    (0, Move::Claim),
    (0, Move::Free(131_072)),
    (0, Move::Free(196_608)),
    (0, Move::End),
];

const TWO_PRIORITIES: [(u8, Move); 14] = [
    (0, Move::Take),
    (0, Move::Alloc(1)),
    (0, Move::Alloc(2)),
    (0, Move::Send(65536)),
    (0, Move::SendTo(65537, 1)),
    (0, Move::End),
    (0, Move::Take),
    (0, Move::Say(2)),
    (0, Move::Free(131_073)),
    (0, Move::EndWith(0)),
    (0, Move::Take),
    (0, Move::Say(1)),
    (0, Move::Free(131_072)),
    (0, Move::EndWith(0)),
];

const LOCAL_QUEUE: [(u8, Move); 11] = [
    (0, Move::Take),
    (0, Move::Alloc(4)),
    (0, Move::Send(65536)),
    (0, Move::End),
    (0, Move::Take),
    (0, Move::Keep(131_072)),
    (0, Move::Claim),
    (0, Move::Dequeue(1)),
    (0, Move::Free(196_608)),
    (0, Move::Free(131_072)),
    (0, Move::End),
];

const UNSCHEDULED_AND_OUTPUT: [(u8, Move); 13] = [
    (0, Move::Take),
    (0, Move::Alloc(3)),
    (0, Move::SendTo(65536, 1)),
    (0, Move::Dequeue(1)),
    (0, Move::Dequeue(1)),
    (0, Move::Send(131_072)),
    (0, Move::End),
    (0, Move::Take),
    (0, Move::Say(7)),
    (0, Move::SendTo(196_608, 2)),
    (0, Move::EndAtomic(7)),
    (0, Move::EndAtomic(7)),
    (0, Move::End),
];

const EARLY_END: [(u8, Move); 18] = [
    (0, Move::Take),
    (0, Move::Alloc(1)),
    (0, Move::Alloc(2)),
    (0, Move::Send(65536)),
    (0, Move::Send(65537)),
    (0, Move::End),
    (1, Move::Take),
    (1, Move::EndAtomic(1)),
    (0, Move::Take),
    (1, Move::Cell),
    (0, Move::EndAtomic(2)),
    (1, Move::Say(1)),
    (0, Move::Cell),
    (1, Move::Free(131_072)),
    (0, Move::Say(2)),
    (1, Move::End),
    (0, Move::Free(131_073)),
    (0, Move::End),
];

const WRONG_KIND: [(u8, Move); 6] = [
    (0, Move::Take),
    (0, Move::Alloc(3)),
    (0, Move::Dequeue(0)),
    (0, Move::Dequeue(2)),
    (0, Move::Free(65536)),
    (0, Move::End),
];

const LOW_IN_GROUP: QueueShape = QueueShape {
    kind: Kind::Atomic,
    eo: Some(EoId(0)),
    priority: Some(Priority::Low),
    group: None,
    agroup: Some(0),
};

const HIGH_IN_GROUP: QueueShape = QueueShape {
    kind: Kind::Atomic,
    eo: Some(EoId(0)),
    priority: Some(Priority::High),
    group: None,
    agroup: Some(0),
};

const ATOMIC: QueueShape = QueueShape {
    kind: Kind::Atomic,
    eo: Some(EoId(0)),
    priority: Some(Priority::Normal),
    group: Some(GroupId(0)),
    agroup: None,
};

const LOCAL: QueueShape = QueueShape {
    kind: Kind::Local,
    eo: Some(EoId(0)),
    priority: Some(Priority::Normal),
    group: None,
    agroup: None,
};

const UNSCHEDULED: QueueShape = QueueShape {
    kind: Kind::Unscheduled,
    eo: None,
    priority: None,
    group: None,
    agroup: None,
};

const OUTPUT: QueueShape = QueueShape {
    kind: Kind::Output,
    eo: None,
    priority: None,
    group: None,
    agroup: None,
};

const SENT_TWICE_TEXT: &str =
    "trace 1\n0 c0 enter boot\n1 c0 alloc p0 65536 kind 0 words 0\n2 c0 send 65536 q0\n3 c0 fault send 2 2 global\n4 c0 end lost 0\n5 c0 take q0 1\n6 c0 start q0 131072 kind 0 words 0\n7 c0 free 131072\n8 c0 end lost 0\nquiet\n";

const FREED_TWICE_TEXT: &str =
    "trace 1\n0 c0 enter boot\n1 c0 alloc p0 65536 kind 0 words 0\n2 c0 free 65536\n3 c0 alloc p0 131072 kind 0 words 0\n4 c0 fault free 3 2 global\n5 c0 free 131072\n6 c0 end lost 0\nquiet\n";

const POOL_EMPTY_TEXT: &str =
    "trace 1\n0 c0 enter boot\n1 c0 alloc p0 65536 kind 0 words 0\n2 c0 fault alloc 15 1 global\n3 c0 free 65536\n4 c0 alloc p0 131072 kind 0 words 0\n5 c0 end lost 1\nquiet\n";

const LIMIT_OF_THREE_TEXT: &str =
    "trace 1\n0 c0 enter boot\n1 c0 alloc p0 65536 kind 0 words 0\n2 c0 send 65536 q0\n3 c0 end lost 0\n4 c0 take q0 1\n5 c0 start q0 131072 kind 0 words 0\n6 c0 send 131072 q0\n7 c0 end lost 0\n8 c0 take q0 1\n9 c0 start q0 196608 kind 0 words 0\n10 c0 send 196608 q0\n11 c0 end lost 0\n12 c0 take q0 1\n13 c0 start q0 262144 kind 0 words 0\n14 c0 send 262144 q0\n15 c0 end lost 0\nlimit\n";

const HELD_BY_ANOTHER_CORE_TEXT: &str =
    "trace 1\n0 c0 enter boot\n1 c0 alloc p0 65536 kind 1 words 0\n2 c0 send 65536 q0\n3 c0 alloc p0 65537 kind 2 words 0\n4 c0 send 65537 q0\n5 c0 end lost 0\n6 c1 take q0 1\n7 c1 start q0 131072 kind 1 words 0\n8 c0 take q0 1\n9 c0 start q0 131073 kind 2 words 0\n10 c1 say 1\n11 c0 fault free 4 1 o0\n12 c1 say 1\n13 c0 free 131073\n14 c1 say 1\n15 c0 end lost 0\n16 c1 free 131072\n17 c1 end lost 0\nquiet\n";

const KEEP_AND_CLAIM_TEXT: &str =
    "trace 1\n0 c0 enter boot\n1 c0 alloc p0 65536 kind 4 words 0\n2 c0 send 65536 q0\n3 c0 end lost 0\n4 c0 take q0 1\n5 c0 start q0 131072 kind 4 words 0\n6 c0 keep 131072\n7 c0 claim 196608 kind 4 words 0\n8 c0 claim none\n9 c0 fault free 2 6 o0\n10 c0 free 196608\n11 c0 end lost 0\nquiet\n";

const TWO_PRIORITIES_TEXT: &str =
    "trace 1\n0 c0 enter boot\n1 c0 alloc p0 65536 kind 1 words 0\n2 c0 alloc p0 65537 kind 2 words 0\n3 c0 send 65536 q0\n4 c0 send 65537 q1\n5 c0 end lost 0\n6 c0 take q1 1\n7 c0 start q1 131073 kind 2 words 0\n8 c0 say 2\n9 c0 free 131073\n10 c0 end lost 0 cells 0 0 0 0 0 0 0 0\n11 c0 take q0 1\n12 c0 start q0 131072 kind 1 words 0\n13 c0 say 1\n14 c0 free 131072\n15 c0 end lost 0 cells 0 0 0 0 0 0 0 0\nquiet\n";

const LOCAL_QUEUE_TEXT: &str =
    "trace 1\n0 c0 enter boot\n1 c0 alloc p0 65536 kind 4 words 0\n2 c0 send 65536 q0\n3 c0 end lost 0\n4 c0 take q0 1\n5 c0 start q0 131072 kind 4 words 0\n6 c0 keep 131072\n7 c0 claim 196608 kind 4 words 0\n8 c0 dequeue q1 none\n9 c0 free 196608\n10 c0 fault free 2 6 o0\n11 c0 end lost 0\nquiet\n";

const UNSCHEDULED_AND_OUTPUT_TEXT: &str =
    "trace 1\n0 c0 enter boot\n1 c0 alloc p0 65536 kind 3 words 0\n2 c0 send 65536 q1\n3 c0 dequeue q1 131072 kind 3 words 0\n4 c0 dequeue q1 none\n5 c0 send 131072 q0\n6 c0 end lost 0\n7 c0 take q0 1\n8 c0 start q0 196608 kind 3 words 0\n9 c0 say 7\n10 c0 send 196608 q2\n11 c0 out q2 kind 3 words 0\n12 c0 endatomic rest 0 cells 7 0 0 0 0 0 0 0\n13 c0 fault endatomic 7 0 o0\n14 c0 end lost 0\nquiet\n";

const EARLY_END_TEXT: &str =
    "trace 1\n0 c0 enter boot\n1 c0 alloc p0 65536 kind 1 words 0\n2 c0 alloc p0 65537 kind 2 words 0\n3 c0 send 65536 q0\n4 c0 send 65537 q0\n5 c0 end lost 0\n6 c1 take q0 1\n7 c1 start q0 131072 kind 1 words 0\n8 c1 endatomic rest 0 cells 1 0 0 0 0 0 0 0\n9 c0 take q0 1\n10 c0 start q0 131073 kind 2 words 0\n11 c1 fault cell 7 0 o0\n12 c0 endatomic rest 0 cells 2 0 0 0 0 0 0 0\n13 c1 say 1\n14 c0 fault cell 7 0 o0\n15 c1 free 131072\n16 c0 say 2\n17 c1 end lost 0\n18 c0 free 131073\n19 c0 end lost 0\nquiet\n";

const WRONG_KIND_TEXT: &str =
    "trace 1\n0 c0 enter boot\n1 c0 alloc p0 65536 kind 3 words 0\n2 c0 fault dequeue 6 0 global\n3 c0 fault dequeue 6 5 global\n4 c0 free 65536\n5 c0 end lost 0\nquiet\n";

fn sent_twice(alloc: Global) -> Result<Desk, NoMemory> {
    let pool = PoolShape {
        events: 4,
        words: 1,
    };
    let config = with_queue(alloc, 1, pool)?;
    run(alloc, &config, 10, &SENT_TWICE)
}

fn freed_twice(alloc: Global) -> Result<Desk, NoMemory> {
    let pool = PoolShape {
        events: 4,
        words: 1,
    };
    let config = with_queue(alloc, 1, pool)?;
    run(alloc, &config, 10, &FREED_TWICE)
}

fn pool_empty(alloc: Global) -> Result<Desk, NoMemory> {
    let pool = PoolShape {
        events: 1,
        words: 0,
    };
    let config = graph(
        alloc,
        1,
        pool,
        List::new(alloc),
        List::new(alloc),
        List::new(alloc),
    )?;
    run(alloc, &config, 10, &POOL_EMPTY)
}

fn limit_of_three(alloc: Global) -> Result<Desk, NoMemory> {
    let pool = PoolShape {
        events: 4,
        words: 1,
    };
    let config = with_queue(alloc, 1, pool)?;
    run(alloc, &config, 3, &LIMIT_OF_THREE)
}

fn held_by_another_core(alloc: Global) -> Result<Desk, NoMemory> {
    let pool = PoolShape {
        events: 2,
        words: 0,
    };
    let config = with_queue(alloc, 2, pool)?;
    run(alloc, &config, 10, &HELD_BY_ANOTHER_CORE)
}

fn keep_and_claim(alloc: Global) -> Result<Desk, NoMemory> {
    let pool = PoolShape {
        events: 4,
        words: 1,
    };
    let config = with_queue(alloc, 1, pool)?;
    run(alloc, &config, 10, &KEEP_AND_CLAIM)
}

fn two_priorities(alloc: Global) -> Result<Desk, NoMemory> {
    let pool = PoolShape {
        events: 2,
        words: 0,
    };
    let config = with_queues(alloc, 1, pool, 1, &[LOW_IN_GROUP, HIGH_IN_GROUP])?;
    run(alloc, &config, 10, &TWO_PRIORITIES)
}

fn local_queue(alloc: Global) -> Result<Desk, NoMemory> {
    let pool = PoolShape {
        events: 1,
        words: 0,
    };
    let config = with_queues(alloc, 1, pool, 0, &[LOCAL, UNSCHEDULED])?;
    run(alloc, &config, 10, &LOCAL_QUEUE)
}

fn unscheduled_and_output(alloc: Global) -> Result<Desk, NoMemory> {
    let pool = PoolShape {
        events: 2,
        words: 0,
    };
    let config = with_queues(alloc, 1, pool, 0, &[ATOMIC, UNSCHEDULED, OUTPUT])?;
    run(alloc, &config, 10, &UNSCHEDULED_AND_OUTPUT)
}

fn early_end(alloc: Global) -> Result<Desk, NoMemory> {
    let pool = PoolShape {
        events: 2,
        words: 0,
    };
    let config = with_queues(alloc, 2, pool, 0, &[ATOMIC])?;
    run(alloc, &config, 10, &EARLY_END)
}

fn wrong_kind(alloc: Global) -> Result<Desk, NoMemory> {
    let pool = PoolShape {
        events: 2,
        words: 0,
    };
    let config = with_queues(alloc, 1, pool, 0, &[ATOMIC, UNSCHEDULED, OUTPUT])?;
    run(alloc, &config, 10, &WRONG_KIND)
}

/// Whether the desk's run has ended so, and its history is written as this text.
fn is_written(alloc: Global, desk: &Desk, end: EndKind, text: &str) -> bool {
    let mut sink = SureSink::new(alloc);
    desk.end_kind() == Some(end)
        && write_history(&mut sink, desk.log(), end).is_ok()
        && sink.bytes() == text.as_bytes()
}

#[test]
fn sent_twice_is_written(rt: HostRuntime) -> Result<(), NoMemory> {
    let desk = sent_twice(rt.alloc())?;
    let is_row = is_written(rt.alloc(), &desk, EndKind::Quiet, SENT_TWICE_TEXT);
    assert!(rt; is_row);
    Ok(())
}

#[test]
fn freed_twice_is_written(rt: HostRuntime) -> Result<(), NoMemory> {
    let desk = freed_twice(rt.alloc())?;
    let is_row = is_written(rt.alloc(), &desk, EndKind::Quiet, FREED_TWICE_TEXT);
    assert!(rt; is_row);
    Ok(())
}

#[test]
fn pool_empty_is_written(rt: HostRuntime) -> Result<(), NoMemory> {
    let desk = pool_empty(rt.alloc())?;
    let is_row = is_written(rt.alloc(), &desk, EndKind::Quiet, POOL_EMPTY_TEXT);
    assert!(rt; is_row);
    Ok(())
}

#[test]
fn limit_of_three_is_written(rt: HostRuntime) -> Result<(), NoMemory> {
    let desk = limit_of_three(rt.alloc())?;
    let is_row = is_written(rt.alloc(), &desk, EndKind::Limit, LIMIT_OF_THREE_TEXT);
    assert!(rt; is_row);
    Ok(())
}

#[test]
fn held_by_another_core_is_written(rt: HostRuntime) -> Result<(), NoMemory> {
    let desk = held_by_another_core(rt.alloc())?;
    let is_row = is_written(rt.alloc(), &desk, EndKind::Quiet, HELD_BY_ANOTHER_CORE_TEXT);
    assert!(rt; is_row);
    Ok(())
}

#[test]
fn keep_and_claim_is_written(rt: HostRuntime) -> Result<(), NoMemory> {
    let desk = keep_and_claim(rt.alloc())?;
    let is_row = is_written(rt.alloc(), &desk, EndKind::Quiet, KEEP_AND_CLAIM_TEXT);
    assert!(rt; is_row);
    Ok(())
}

#[test]
fn two_priorities_is_written(rt: HostRuntime) -> Result<(), NoMemory> {
    let desk = two_priorities(rt.alloc())?;
    let is_row = is_written(rt.alloc(), &desk, EndKind::Quiet, TWO_PRIORITIES_TEXT);
    assert!(rt; is_row);
    Ok(())
}

#[test]
fn local_queue_is_written(rt: HostRuntime) -> Result<(), NoMemory> {
    let desk = local_queue(rt.alloc())?;
    let is_row = is_written(rt.alloc(), &desk, EndKind::Quiet, LOCAL_QUEUE_TEXT);
    assert!(rt; is_row);
    Ok(())
}

#[test]
fn unscheduled_and_output_is_written(rt: HostRuntime) -> Result<(), NoMemory> {
    let desk = unscheduled_and_output(rt.alloc())?;
    let is_row = is_written(
        rt.alloc(),
        &desk,
        EndKind::Quiet,
        UNSCHEDULED_AND_OUTPUT_TEXT,
    );
    assert!(rt; is_row);
    Ok(())
}

#[test]
fn early_end_is_written(rt: HostRuntime) -> Result<(), NoMemory> {
    let desk = early_end(rt.alloc())?;
    let is_row = is_written(rt.alloc(), &desk, EndKind::Quiet, EARLY_END_TEXT);
    assert!(rt; is_row);
    Ok(())
}

#[test]
fn wrong_kind_is_written(rt: HostRuntime) -> Result<(), NoMemory> {
    let desk = wrong_kind(rt.alloc())?;
    let is_row = is_written(rt.alloc(), &desk, EndKind::Quiet, WRONG_KIND_TEXT);
    assert!(rt; is_row);
    Ok(())
}
