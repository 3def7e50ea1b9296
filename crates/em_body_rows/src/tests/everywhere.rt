//! The event and the cells come back from an error body.
use super::*;

const SCRIPT: &str = "cores 1
pool p 12 1
eo x running
eo y running
eo z
queue a parallel x normal all
queue b atomic y normal all
queue c parallel z low all
queue u unscheduled
queue o output
boot
free 5
say ok
alloc v0 p 1 21
send v0 a
alloc v0 p 2 22
send v0 b
alloc v0 p 3 23
send v0 u
start z
say ok
end
error
say add 1000 fault
dequeue v0 u
say word 0
free v0
free 6
say ok
end
body x receive
say word 0
set v3 4
alloc v3 p 1 2 3
say v3
say ok
say word 0
say kind
free me
end
body y receive
cell 3 5
free 9
say cell 3
say cell 4
endatomic
say fault
free me
end
body y error
cell 4 detail
say me
cell 3 add cell 3 1
set v1 8
endatomic
cell 4 1
end
body z start
keep 8
fail
end
body z error
say fault
say detail
say ok
free 7
say ok
end
done
";

fn allocated(handle: u64, kind: u32) -> Reply {
    Reply::Minted(handle, kind, &[])
}

#[test]
fn boot_is_served_by_the_global_one(rt: HostRuntime) -> Result<(), Fail> {
    let alloc = rt.alloc();
    let graph = graph_of(&rt, alloc, SCRIPT);
    let mut run = BodyRun::new(&graph, CoreId(0));
    let rows = [
        ("Ask(Free(5))", never(5)),
        ("Ask(Say(1001))", Reply::Done),
        ("Ask(Dequeue(QueueId(3)))", Reply::Nothing),
        ("Ask(Say(0))", Reply::Done),
        ("Ask(Free(0))", never(0)),
        ("Ask(Free(6))", never(6)),
        ("Ask(Say(0))", Reply::Done),
        ("Ask(Say(0))", Reply::Done),
        (
            "Ask(Alloc { pool: PoolId(0), kind: 1, words: Words { items: [21] } })",
            allocated(65536, 1),
        ),
        (
            "Ask(Send { word: 65536, queue: QueueId(0), group: None })",
            Reply::Done,
        ),
        (
            "Ask(Alloc { pool: PoolId(0), kind: 2, words: Words { items: [22] } })",
            allocated(65537, 2),
        ),
        (
            "Ask(Send { word: 65537, queue: QueueId(1), group: None })",
            Reply::Done,
        ),
        (
            "Ask(Alloc { pool: PoolId(0), kind: 3, words: Words { items: [23] } })",
            allocated(65538, 3),
        ),
        (
            "Ask(Send { word: 65538, queue: QueueId(3), group: None })",
            Reply::Done,
        ),
        (
            "Ask(Start { eo: EoId(2), notes: Notes { items: [] } })",
            Reply::Done,
        ),
        ("Ask(Say(1))", Reply::Done),
    ];
    compare(&rt, alloc, &mut run, &Context::Boot, &rows, None)
}

#[test]
fn failed_start(rt: HostRuntime) -> Result<(), Fail> {
    let alloc = rt.alloc();
    let graph = graph_of(&rt, alloc, SCRIPT);
    let mut run = BodyRun::new(&graph, CoreId(0));
    let rows = [
        ("Ask(Keep(8))", never(8)),
        ("Ask(Say(1))", Reply::Done),
        ("Ask(Say(8))", Reply::Done),
        ("Ask(Say(1))", Reply::Done),
        ("Ask(Free(7))", never(7)),
        ("Ask(Say(0))", Reply::Done),
        ("Ask(Fail)", Reply::Refused(Fault::StartFailed(OpId(0)))),
        ("Ask(Say(19))", Reply::Done),
        ("Ask(Say(0))", Reply::Done),
        ("Ask(Say(1))", Reply::Done),
        ("Ask(Free(7))", never(7)),
        ("Ask(Say(0))", Reply::Done),
    ];
    let context = Context::GlobalStart(OpId(0), EoId(2));
    compare(&rt, alloc, &mut run, &context, &rows, None)
}

#[test]
fn event_comes_back(rt: HostRuntime) -> Result<(), Fail> {
    let alloc = rt.alloc();
    let graph = graph_of(&rt, alloc, SCRIPT);
    let mut run = BodyRun::new(&graph, CoreId(0));
    let rows = [
        ("Ask(Say(21))", Reply::Done),
        ("Silent", Reply::Done),
        (
            "Ask(Alloc { pool: PoolId(0), kind: 1, words: Words { items: [2, 3] } })",
            Reply::Refused(Fault::BadSize(1)),
        ),
        ("Ask(Say(1016))", Reply::Done),
        ("Ask(Dequeue(QueueId(3)))", Reply::Minted(131074, 3, &[23])),
        ("Ask(Say(23))", Reply::Done),
        ("Ask(Free(131074))", Reply::Done),
        ("Ask(Free(6))", never(6)),
        ("Ask(Say(0))", Reply::Done),
        ("Ask(Say(0))", Reply::Done),
        ("Ask(Say(1))", Reply::Done),
        ("Ask(Say(23))", Reply::Done),
        ("Ask(Say(3))", Reply::Done),
        ("Ask(Free(131072))", Reply::Done),
    ];
    let context = received(0, event(131072, 1, &[21]), None);
    compare(&rt, alloc, &mut run, &context, &rows, None)
}

#[test]
fn cells_come_back(rt: HostRuntime) -> Result<(), Fail> {
    let alloc = rt.alloc();
    let graph = graph_of(&rt, alloc, SCRIPT);
    let mut run = BodyRun::new(&graph, CoreId(0));
    let not_atomic = Reply::Refused(Fault::NotAtomic);
    let rows = [
        ("Silent", Reply::Done),
        ("Ask(Free(9))", never(9)),
        ("Silent", Reply::Done),
        ("Ask(Say(131073))", Reply::Done),
        ("Silent", Reply::Done),
        ("Silent", Reply::Done),
        (
            "Ask(EndAtomic(Cells([0, 0, 0, 6, 9, 0, 0, 0])))",
            Reply::Done,
        ),
        ("Ask(Cell)", not_atomic),
        ("Ask(Say(0))", Reply::Done),
        ("Ask(Say(0))", Reply::Done),
        (
            "Ask(EndAtomic(Cells([0, 0, 0, 0, 0, 0, 0, 0])))",
            not_atomic,
        ),
        ("Ask(Cell)", not_atomic),
        ("Ask(Say(131073))", Reply::Done),
        ("Ask(Cell)", not_atomic),
        ("Silent", Reply::Done),
        (
            "Ask(EndAtomic(Cells([0, 0, 0, 0, 0, 0, 0, 0])))",
            not_atomic,
        ),
        ("Ask(Cell)", not_atomic),
        ("Ask(Say(0))", Reply::Done),
        ("Ask(Free(131073))", Reply::Done),
    ];
    let context = received(1, event(131073, 2, &[22]), Some(ZEROS));
    compare(&rt, alloc, &mut run, &context, &rows, None)
}
