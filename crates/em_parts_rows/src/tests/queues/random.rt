//! Calls of the queues at random, each beside the model.
ghost use Rattle.std.specs.Prelude.{◌≡◌, ◌<◌};
ghost use Rattle.em_queues.specs.State.{shape};

use super::life::{KINDS, built};
use super::model::Model;
use crate::tests::generator::Generator;
use em_log::{CoreId, Fault, Kind, NoMemory, QueueId};
use em_queues::{Allowed, Queues};
use std::alloc::Global;
use std::process::Abort;

const EVENTS: u16 = 12;

/// What a call is made of, all at random.
#[derive(Drop)]
struct Call {
    queue: u16,
    core: u8,
    index: u16,
    n: u8,
}

fn random_call(generator: &mut Generator) -> Call
    ensures queue { result.queue < 5 }
    ensures core { result.core < 2 }
    ensures index { result.index < 12 }
{
    Call {
        queue: generator.below(5),
        core: generator.below(2) as u8,
        index: generator.below(EVENTS),
        n: generator.below(4) as u8,
    }
}

/// An event that is in no list arrives.
fn arrive(
    rt: &impl Abort,
    queues: &mut Queues,
    model: &mut Model,
    call: &Call,
) -> Result<(), NoMemory>
    requires shape { shape queues.old ≡ record { cores = 2; queues = 5; events = 12 } }
    requires queue { call.now.queue < 5 }
    requires core { call.now.core < 2 }
    requires index { call.now.index < 12 }
    ensures { shape queues.new ≡ shape queues.old }
{
    let is_listed = queues.is_listed(call.index);
    assert_eq!(rt; is_listed, model.is_listed(call.index));
    if !is_listed {
        queues.arrive(QueueId(call.queue), CoreId(call.core), call.index);
        model.arrive(call.queue, call.core, call.index)?;
    }
    Ok(())
}

/// A core that has taken nothing takes at most as many as wait.
fn take(
    rt: &impl Abort,
    alloc: Global,
    queues: &mut Queues,
    model: &mut Model,
    call: &Call,
) -> Result<(), NoMemory>
    requires shape { shape queues.old ≡ record { cores = 2; queues = 5; events = 12 } }
    requires queue { call.now.queue < 5 }
    requires core { call.now.core < 2 }
    ensures { shape queues.new ≡ shape queues.old }
{
    let (queue, core) = (QueueId(call.queue), CoreId(call.core));
    let count = queues.waiting(queue, core);
    assert_eq!(rt; count, model.count(call.queue, call.core));
    if queues.taken_at(core, 0).is_none() && u32::from(call.n) <= count {
        queues.take(queue, core, call.n);
        model.take(alloc, call.queue, call.core, call.n)?;
    }
    Ok(())
}

/// What the queue refuses to have dequeued, by its kind.
fn dequeue(
    rt: &impl Abort,
    alloc: Global,
    queues: &mut Queues,
    model: &mut Model,
    call: &Call,
) -> Result<(), NoMemory>
    requires shape { shape queues.old ≡ record { cores = 2; queues = 5; events = 12 } }
    requires queue { call.now.queue < 5 }
    ensures { shape queues.new ≡ shape queues.old }
{
    let (kind, _) = KINDS[usize::from(call.queue)];
    let expected = match kind {
        Kind::Unscheduled => Ok(model.dequeue(alloc, call.queue)?),
        other => Err(Fault::WrongKind(other)),
    };
    assert_eq!(rt; queues.dequeue(QueueId(call.queue)), expected);
    Ok(())
}

/// One call of either kind.
fn step(
    rt: &impl Abort,
    alloc: Global,
    queues: &mut Queues,
    model: &mut Model,
    which: u16,
    call: &Call,
) -> Result<(), NoMemory>
    requires shape { shape queues.old ≡ record { cores = 2; queues = 5; events = 12 } }
    requires queue { call.now.queue < 5 }
    requires core { call.now.core < 2 }
    requires index { call.now.index < 12 }
    ensures { shape queues.new ≡ shape queues.old }
{
    let core = CoreId(call.core);
    match which {
        0..=2 => arrive(rt, queues, model, call)?,
        3 => take(rt, alloc, queues, model, call)?,
        4 => assert_eq!(rt;
            queues.next_taken(core),
            model.next_taken(alloc, call.core)?
        ),
        5 => assert_eq!(rt;
            usize::from(queues.untake(core)),
            model.untake(alloc, call.core)?
        ),
        6 => dequeue(rt, alloc, queues, model, call)?,
        7 => assert_eq!(rt;
            queues.taken_at(core, call.n),
            model.taken_at(call.core, call.n)
        ),
        _ => assert_eq!(rt;
            queues.best(core, &all()).map(|best| best.0),
            model.best(call.core)
        ),
    }
    Ok(())
}

fn all() -> Allowed {
    let mut allowed = Allowed::none();
    for queue in 0..5_u16 {
        allowed.add(QueueId(queue));
    }
    allowed
}

#[test]
fn four_thousand_calls_answer_as_plain_lists(rt: HostRuntime) -> Result<(), NoMemory> {
    let alloc = rt.alloc();
    let mut queues = built(alloc, EVENTS)?;
    let mut model = Model::new(alloc);
    let mut generator = Generator::new(7);
    for _ in 0..4_000 {
        let which = generator.below(10);
        let call = random_call(&mut generator);
        step(&rt, alloc, &mut queues, &mut model, which, &call)?;
    }
    Ok(())
}
