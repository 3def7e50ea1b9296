//! An error body has variables of its own, and the outer ones come back.
use super::*;

/// Each round of the outer body makes a fault, in the midst of its blocks; the error body has blocks too, and a fault of its
/// own that runs none.
const SCRIPT: &str = "cores 1
pool p 4 1
eo x running
queue q parallel x normal all
boot
set v0 9
set v1 7
repeat 2
alloc v1 p v0 1 2
say ok
say v0
say v1
say fault
set v1 6
end
end
error
say ok
say v0
say fault
say detail
set v0 5
repeat 2
set v2 add v2 1
if eq v2 2
free 3
say ok
end
end
say v2
end
done
";

/// What comes before the first fault.
const OPENING: [Row; 3] = [
    ("Silent", Reply::Done),
    ("Silent", Reply::Done),
    ("Silent", Reply::Done),
];

const REFUSED: [Row; 1] = [(
    "Ask(Alloc { pool: PoolId(0), kind: 9, words: Words { items: [1, 2] } })",
    Reply::Refused(Fault::BadSize(1)),
)];

/// The asks of the error body: its variables begin at 0, its `ok` at 1, and it has the fault.
const SERVED: [Row; 14] = [
    ("Ask(Say(1))", Reply::Done),
    ("Ask(Say(0))", Reply::Done),
    ("Ask(Say(16))", Reply::Done),
    ("Ask(Say(1))", Reply::Done),
    ("Silent", Reply::Done),
    ("Silent", Reply::Done),
    ("Silent", Reply::Done),
    ("Silent", Reply::Done),
    ("Silent", Reply::Done),
    ("Silent", Reply::Done),
    ("Ask(Free(3))", Reply::Refused(Fault::NeverMinted(3))),
    ("Ask(Say(0))", Reply::Done),
    ("Ask(Say(2))", Reply::Done),
    ("Ask(Say(0))", Reply::Done),
];

/// What the outer body shows after it: its variables but the refused statement's, and no fault.
const SHOWN: [Row; 4] = [
    ("Ask(Say(9))", Reply::Done),
    ("Ask(Say(0))", Reply::Done),
    ("Ask(Say(0))", Reply::Done),
    ("Silent", Reply::Done),
];

#[test]
fn variables_of_their_own(rt: HostRuntime) -> Result<(), Fail> {
    let alloc = rt.alloc();
    let graph = graph_of(&rt, alloc, SCRIPT);
    let mut run = BodyRun::new(&graph, CoreId(0));
    run.begin(&Context::Boot);
    follow_all(&rt, alloc, &mut run, OPENING.as_slice())?;
    follow_all(&rt, alloc, &mut run, REFUSED.as_slice())?;
    follow_all(&rt, alloc, &mut run, SERVED.as_slice())?;
    follow_all(&rt, alloc, &mut run, SHOWN.as_slice())?;
    follow_all(&rt, alloc, &mut run, REFUSED.as_slice())?;
    follow_all(&rt, alloc, &mut run, SERVED.as_slice())?;
    follow_all(&rt, alloc, &mut run, SHOWN.as_slice())?;
    follow(&rt, alloc, &mut run, "End", Reply::Done)
}
