ghost use Rattle.std.specs.Prelude.{◌≡◌, ◌<◌, ◌≤◌};
ghost use Rattle.em_log.specs.Bounds.{core_limit};
ghost use Rattle.em_acks.specs.State.{core_count};

use super::Acks;
use crate::job::{Job, Left, Phase, Target};
use em_log::{Config, CoreId, EoId, Fault, GroupId, List, MAX_OPERATIONS, NoMemory, OpId};
use std::alloc::Global;
use std::process::Abort;

/// A graph of some cores and nothing else.
fn graph(alloc: Global, cores: u8) -> Config
    ensures { result.cores ≡ cores }
{
    Config {
        cores,
        order: List::new(alloc),
        pools: List::new(alloc),
        groups: List::new(alloc),
        eos: List::new(alloc),
        agroups: List::new(alloc),
        queues: List::new(alloc),
        egroups: List::new(alloc),
        boot: List::new(alloc),
        error: None,
    }
}

/// A call, and what it has to answer.
#[derive(Drop)]
enum Call {
    Pending(Target, Option<u16>),
    CanBegin(Target, Result<(), Fault>),
    /// A begin by this core.
    Begin(u8, Job, Target, Result<u16, Fault>),
    Owed(u8, Option<(u16, Phase)>),
    /// The end of this core's global step.
    Global(u8, u16, bool),
    Ack(u8, u16, Left),
}

fn begins(
    rt: &impl Abort,
    acks: &mut Acks,
    core: CoreId,
    job: Job,
    target: Target,
    expected: Result<u16, Fault>,
)
    requires { core.0 < core_count acks.old }
    ensures { core_count acks.new ≡ core_count acks.old }
{
    assert_eq!(rt; acks.begin(core, job, target).map(|op| op.0), expected);
}

fn owes(rt: &impl Abort, acks: &Acks, core: CoreId, expected: Option<(u16, Phase)>)
    requires { core.0 < core_count acks.now }
{
    assert_eq!(rt; acks.owed(core).map(|(op, phase)| (op.0, phase)), expected);
}

fn ends(rt: &impl Abort, acks: &mut Acks, core: CoreId, op: OpId, ok: bool)
    requires { core.0 < core_count acks.old }
    ensures { core_count acks.new ≡ core_count acks.old }
{
    match acks.owed_to(core, op) {
        Some(Phase::Global) => acks.global(core, op, ok),
        _ => assert!(rt; false),
    }
}

fn acknowledges(rt: &impl Abort, acks: &mut Acks, core: CoreId, op: OpId, left: Left)
    requires { core.0 < core_count acks.old }
    ensures { core_count acks.new ≡ core_count acks.old }
{
    match acks.owed_to(core, op) {
        Some(Phase::Local) => assert_eq!(rt; acks.ack(core, op), left),
        _ => assert!(rt; false),
    }
}

fn answers(rt: &impl Abort, acks: &mut Acks, cores: u8, call: &Call)
    requires { core_count acks.old ≡ cores }
    ensures { core_count acks.new ≡ core_count acks.old }
{
    match call {
        Call::Pending(target, expected) => {
            assert_eq!(rt; acks.pending(*target).map(|op| op.0), *expected);
        }
        Call::CanBegin(target, expected) => {
            assert_eq!(rt; acks.can_begin(*target), *expected);
        }
        Call::Begin(core, job, target, expected) => {
            assert!(rt; *core < cores);
            begins(rt, acks, CoreId(*core), *job, *target, *expected);
        }
        Call::Owed(core, expected) => {
            assert!(rt; *core < cores);
            owes(rt, acks, CoreId(*core), *expected);
        }
        Call::Global(core, op, ok) => {
            assert!(rt; *core < cores);
            ends(rt, acks, CoreId(*core), OpId(*op), *ok);
        }
        Call::Ack(core, op, left) => {
            assert!(rt; *core < cores);
            acknowledges(rt, acks, CoreId(*core), OpId(*op), *left);
        }
    }
}

fn all_answer(rt: &impl Abort, alloc: Global, cores: u8, calls: &[Call]) -> Result<(), NoMemory>
    requires { cores ≤ core_limit }
{
    let mut acks = Acks::build(alloc, &graph(alloc, cores))?;
    for call in calls {
        answers(rt, &mut acks, cores, call);
    }
    Ok(())
}

#[test]
fn a_whole_life(rt: HostRuntime) -> Result<(), NoMemory> {
    let eo = Target::Eo(EoId(0));
    let group = Target::Group(GroupId(1));
    let calls = [
        // A change of mask, begun by core 0, and a start, begun by core 2, on three cores.
        Call::Owed(0, None),
        Call::Pending(group, None),
        Call::Begin(0, Job::Modify, group, Ok(0)),
        Call::Begin(2, Job::Start, eo, Ok(1)),
        Call::Begin(1, Job::Modify, group, Err(Fault::OpPending(OpId(0)))),
        Call::Pending(group, Some(0)),
        Call::Pending(eo, Some(1)),
        Call::Owed(2, Some((0, Phase::Local))),
        Call::Ack(2, 0, Left::More(2)),
        Call::Owed(2, Some((1, Phase::Global))),
        Call::Owed(1, Some((0, Phase::Local))),
        Call::Global(2, 1, true),
        Call::Owed(2, Some((1, Phase::Local))),
        Call::Ack(2, 1, Left::More(2)),
        Call::Owed(2, None),
        Call::Ack(0, 0, Left::More(1)),
        Call::Ack(0, 1, Left::More(1)),
        Call::Ack(1, 0, Left::Last),
        Call::Pending(group, None),
        Call::Owed(1, Some((1, Phase::Local))),
        Call::Ack(1, 1, Left::Last),
        Call::Pending(eo, None),
        // A stop: the core of the last acknowledgement owes the global step.
        Call::Begin(0, Job::Stop, eo, Ok(2)),
        Call::Ack(0, 2, Left::More(2)),
        Call::Ack(2, 2, Left::More(1)),
        Call::Ack(1, 2, Left::Last),
        Call::Owed(0, None),
        Call::Owed(1, Some((2, Phase::Global))),
        Call::CanBegin(eo, Err(Fault::OpPending(OpId(2)))),
        Call::Global(1, 2, true),
        Call::CanBegin(eo, Ok(())),
        // A start that fails.
        Call::Begin(1, Job::Start, eo, Ok(3)),
        Call::Owed(1, Some((3, Phase::Global))),
        Call::Global(1, 3, false),
        Call::Owed(1, None),
        Call::Pending(eo, None),
    ];
    all_answer(&rt, rt.alloc(), 3, calls.as_slice())
}

/// The number of the last operation that may begin in a run.
const LAST: u16 = MAX_OPERATIONS - 1;

#[test]
fn no_operation_past_the_limit(rt: HostRuntime) -> Result<(), NoMemory> {
    let first = Target::Group(GroupId(0));
    let second = Target::Group(GroupId(1));
    let core = CoreId(0);
    let mut acks = Acks::build(rt.alloc(), &graph(rt.alloc(), 1))?;
    for op in 0..LAST {
        begins(&rt, &mut acks, core, Job::Modify, first, Ok(op));
        acknowledges(&rt, &mut acks, core, OpId(op), Left::Last);
    }
    begins(&rt, &mut acks, core, Job::Modify, first, Ok(LAST));
    begins(
        &rt,
        &mut acks,
        core,
        Job::Modify,
        first,
        Err(Fault::OpPending(OpId(LAST))),
    );
    begins(
        &rt,
        &mut acks,
        core,
        Job::Modify,
        second,
        Err(Fault::OpsSpent(MAX_OPERATIONS)),
    );
    acknowledges(&rt, &mut acks, core, OpId(LAST), Left::Last);
    assert_eq!(&rt; acks.can_begin(first), Err(Fault::OpsSpent(MAX_OPERATIONS)));
    Ok(())
}
