//! Calls of the ordered queues at random, each beside the model.
ghost use Rattle.std.specs.Prelude.{◌≡◌, ◌<◌};
ghost use Rattle.em_order.specs.State.{shape};

use super::life::{built, item};
use super::model::Model;
use crate::tests::generator::Generator;
use em_log::{CoreId, Fault, NoMemory, QueueId};
use em_order::{Orders, Way};
use std::alloc::Global;
use std::process::Abort;

const EVENTS: u16 = 12;

/// A core with no open ticket draws one.
fn draw(
    rt: &impl Abort,
    orders: &mut Orders,
    model: &mut Model,
    queue: u16,
    core: u8,
) -> Result<(), NoMemory>
    requires shape { shape orders.old ≡ record { cores = 4; queues = 2; events = 12 } }
    requires queue { queue < 2 }
    requires core { core < 4 }
    ensures { shape orders.new ≡ shape orders.old }
{
    let open = orders.open_ticket(CoreId(core));
    assert_eq!(rt;
        open.map(|ticket| (ticket.queue.0, ticket.number)),
        model.open(core)
    );
    assert_eq!(rt; orders.drawn(QueueId(queue)), model.drawn(queue));
    if open.is_none() && orders.drawn(QueueId(queue)) < u32::MAX {
        assert_eq!(rt;
            orders.draw(QueueId(queue), CoreId(core)),
            model.draw(queue, core)?
        );
    }
    Ok(())
}

/// An event that is not held back is sent.
fn send(
    rt: &impl Abort,
    orders: &mut Orders,
    model: &mut Model,
    core: u8,
    index: u16,
) -> Result<(), NoMemory>
    requires shape { shape orders.old ≡ record { cores = 4; queues = 2; events = 12 } }
    requires index { index < 12 }
    ensures { shape orders.new ≡ shape orders.old }
{
    let is_held = orders.is_held_back(index);
    assert_eq!(rt; is_held, model.is_held_back(index));
    if !is_held {
        let way = match model.send(core, index)? {
            None => Way::Enter,
            Some(least) => Way::Held(least),
        };
        assert_eq!(rt; orders.send(CoreId(core), item(core, index)), way);
    }
    Ok(())
}

/// One call of either kind.
fn step(
    rt: &impl Abort,
    alloc: Global,
    orders: &mut Orders,
    model: &mut Model,
    generator: &mut Generator,
) -> Result<(), NoMemory>
    requires { shape orders.old ≡ record { cores = 4; queues = 2; events = 12 } }
    ensures { shape orders.new ≡ shape orders.old }
{
    let (queue, core) = (generator.below(2), generator.below(4) as u8);
    match generator.below(8) {
        0..=1 => draw(rt, orders, model, queue, core)?,
        2..=4 => send(rt, orders, model, core, generator.below(EVENTS))?,
        5 => {
            let expected = if model.finish(alloc, core)? {
                Ok(())
            } else {
                Err(Fault::NotOrdered)
            };
            assert_eq!(rt; orders.finish(CoreId(core)), expected);
        }
        _ => {
            let item = orders.released();
            assert_eq!(rt; item.map(|item| item.index), model.released(alloc)?);
        }
    }
    Ok(())
}

#[test]
fn four_thousand_calls_answer_as_plain_lists(rt: HostRuntime) -> Result<(), NoMemory> {
    let alloc = rt.alloc();
    let mut orders = built(alloc, EVENTS)?;
    let mut model = Model::new(alloc);
    let mut generator = Generator::new(7);
    for _ in 0..4_000 {
        step(&rt, alloc, &mut orders, &mut model, &mut generator)?;
    }
    Ok(())
}
