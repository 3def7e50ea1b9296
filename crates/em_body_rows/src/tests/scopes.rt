//! The error body of the object serves before the global one.
use super::*;

const SCRIPT: &str = "cores 1
pool p 4 1
eo x running
queue q parallel x normal all
boot
free 5
alloc v0 p 0
send v0 q
end
error
say add 100 fault
end
body x error
say add 200 fault
free 6
end
body x receive
free 7
free me
end
done
";

#[test]
fn error_bodies_of_both_scopes(rt: HostRuntime) -> Result<(), Fail> {
    let alloc = rt.alloc();
    let graph = graph_of(&rt, alloc, SCRIPT);
    let mut run = BodyRun::new(&graph, CoreId(0));
    let boot = [
        ("Ask(Free(5))", never(5)),
        ("Ask(Say(101))", Reply::Done),
        (
            "Ask(Alloc { pool: PoolId(0), kind: 0, words: Words { items: [] } })",
            Reply::Minted(65536, 0, &[]),
        ),
        (
            "Ask(Send { word: 65536, queue: QueueId(0), group: None })",
            Reply::Done,
        ),
    ];
    compare(&rt, alloc, &mut run, &Context::Boot, &boot, None)?;
    let receive = [
        ("Ask(Free(7))", never(7)),
        ("Ask(Say(201))", Reply::Done),
        ("Ask(Free(6))", never(6)),
        ("Ask(Free(131072))", Reply::Done),
    ];
    let context = received(0, event(131072, 0, &[]), None);
    compare(&rt, alloc, &mut run, &context, &receive, None)
}

/// An object's empty error body serves its faults by doing nothing.
const EMPTY: &str = "cores 1
pool p 4 1
eo x running
queue q parallel x normal all
boot
end
error
say add 100 fault
end
body x error
end
body x receive
set v0 9
alloc v0 p 0 1 2
say ok
say v0
end
done
";

#[test]
fn empty_error_body(rt: HostRuntime) -> Result<(), Fail> {
    let alloc = rt.alloc();
    let graph = graph_of(&rt, alloc, EMPTY);
    let mut run = BodyRun::new(&graph, CoreId(0));
    let receive = [
        ("Silent", Reply::Done),
        (
            "Ask(Alloc { pool: PoolId(0), kind: 0, words: Words { items: [1, 2] } })",
            Reply::Refused(Fault::BadSize(1)),
        ),
        ("Ask(Say(0))", Reply::Done),
        ("Ask(Say(0))", Reply::Done),
    ];
    let context = received(0, event(131072, 0, &[]), None);
    compare(&rt, alloc, &mut run, &context, &receive, None)
}
