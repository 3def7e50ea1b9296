//! Error bodies in starts and stops.
use super::*;

const SCRIPT: &str = "cores 1
pool p 12 0
eo x running
eo y
eo z
queue a parallel x normal all
queue b parallel y high all
queue c parallel z low all
queue o output
boot
end
error
say add 100 fault
endordered
say ok
end
body y lstop
alloc v0 p 5
send v0 b
free v0
end
body y error
say add 200 fault
alloc v0 p 7
send v0 o
free v0
say ok
end
body z start
cell 1 2
end
body z stop
keep 6
end
done
";

#[test]
fn stop_is_served_by_the_own_one(rt: HostRuntime) -> Result<(), Fail> {
    let alloc = rt.alloc();
    let graph = graph_of(&rt, alloc, SCRIPT);
    let mut run = BodyRun::new(&graph, CoreId(0));
    let rows = [
        (
            "Ask(Alloc { pool: PoolId(0), kind: 5, words: Words { items: [] } })",
            Reply::Minted(196609, 5, &[]),
        ),
        (
            "Ask(Send { word: 196609, queue: QueueId(1), group: None })",
            Reply::Refused(Fault::QueueClosed(3)),
        ),
        ("Ask(Say(205))", Reply::Done),
        (
            "Ask(Alloc { pool: PoolId(0), kind: 7, words: Words { items: [] } })",
            Reply::Minted(65538, 7, &[]),
        ),
        (
            "Ask(Send { word: 65538, queue: QueueId(3), group: None })",
            Reply::Done,
        ),
        ("Ask(Free(65538))", Reply::Refused(Fault::SpentBySend(53))),
        ("Ask(Say(0))", Reply::Done),
        ("Ask(Free(196609))", Reply::Done),
    ];
    let context = Context::LocalStop(OpId(2), EoId(1));
    compare(&rt, alloc, &mut run, &context, &rows, None)
}

#[test]
fn others_are_served_by_the_global_one(rt: HostRuntime) -> Result<(), Fail> {
    let alloc = rt.alloc();
    let graph = graph_of(&rt, alloc, SCRIPT);
    let mut run = BodyRun::new(&graph, CoreId(0));
    let not_ordered = Reply::Refused(Fault::NotOrdered);
    let start = [
        ("Ask(Cell)", Reply::Refused(Fault::NotAtomic)),
        ("Ask(Say(107))", Reply::Done),
        ("Ask(EndOrdered)", not_ordered),
        ("Ask(Say(0))", Reply::Done),
    ];
    let context = Context::GlobalStart(OpId(1), EoId(2));
    compare(&rt, alloc, &mut run, &context, &start, None)?;
    let stop = [
        ("Ask(Keep(6))", never(6)),
        ("Ask(Say(101))", Reply::Done),
        ("Ask(EndOrdered)", not_ordered),
        ("Ask(Say(0))", Reply::Done),
    ];
    let context = Context::GlobalStop(OpId(3), EoId(2));
    compare(&rt, alloc, &mut run, &context, &stop, None)
}
