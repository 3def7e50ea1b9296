//! The calls of the operations, each by itself, and rounds of them.
ghost use Rattle.std.specs.Prelude.{◌≡◌, ◌<◌, ◌≤◌, Some, IfSome};
ghost use Rattle.em_acks.specs.declared.job.Phase.{Phase};
ghost use Rattle.em_acks.specs.State.{core_count, owed_at};
ghost use Rattle.parts_bench.specs.Standing.{AreKnown};

use em_acks::{Acks, Job, Left, Phase, Target};
use em_log::{CoreId, EoId, OpId};

/// How often each call is made in a round.
pub fn calls(count: u32) -> [(&'static str, u32); 6]
    requires { count ≤ 256 }
{
    [
        ("can_begin", count),
        ("begin", count),
        ("pending", count),
        ("owed", 3 * count),
        ("global", count),
        ("ack", 2 * count),
    ]
}

#[inline(never)]
fn pending(acks: &Acks, target: Target) -> Option<OpId> {
    acks.pending(target)
}

#[inline(never)]
fn can_begin(acks: &Acks, target: Target) -> bool {
    acks.can_begin(target).is_ok()
}

#[inline(never)]
fn begin(acks: &mut Acks, target: Target) -> bool
    requires core { 0 < core_count acks.old }
    requires known { AreKnown acks.old }
    ensures known { AreKnown acks.new }
    ensures same_shape { core_count acks.new ≡ core_count acks.old }
{
    acks.begin(CoreId(0), Job::Start, target).is_ok()
}

#[inline(never)]
fn owed(acks: &Acks, core: CoreId) -> Option<(OpId, Phase)>
    requires core { core.0 < core_count acks.now }
    requires known { AreKnown acks.now }
    ensures { IfSome result (λ r. owed_at acks.now core.0 r.0.0 ≡ Some r.1) }
{
    acks.owed(core)
}

#[inline(never)]
fn global(acks: &mut Acks, core: CoreId, op: OpId)
    requires core { core.0 < core_count acks.old }
    requires owed { owed_at acks.old core.0 op.0 ≡ Some Phase.Global }
    requires known { AreKnown acks.old }
    ensures known { AreKnown acks.new }
    ensures same_shape { core_count acks.new ≡ core_count acks.old }
{
    acks.global(core, op, true);
}

#[inline(never)]
fn ack(acks: &mut Acks, core: CoreId, op: OpId) -> Left
    requires core { core.0 < core_count acks.old }
    requires owed { owed_at acks.old core.0 op.0 ≡ Some Phase.Local }
    requires known { AreKnown acks.old }
    ensures known { AreKnown acks.new }
    ensures same_shape { core_count acks.new ≡ core_count acks.old }
{
    acks.ack(core, op)
}

/// The start of an object begins, by core 0, if none is pending. Whether one is then.
fn begun(acks: &mut Acks, target: Target) -> bool
    requires core { 0 < core_count acks.old }
    requires known { AreKnown acks.old }
    ensures known { AreKnown acks.new }
    ensures same_shape { core_count acks.new ≡ core_count acks.old }
{
    let began = can_begin(acks, target) && begin(acks, target);
    pending(acks, target).is_some() && began
}

/// The core ends the step that it owes next. Whether it owes one.
fn ended(acks: &mut Acks, core: CoreId) -> bool
    requires core { core.0 < core_count acks.old }
    requires known { AreKnown acks.old }
    ensures known { AreKnown acks.new }
    ensures same_shape { core_count acks.new ≡ core_count acks.old }
{
    match owed(acks, core) {
        None => false,
        Some((op, Phase::Global)) => {
            global(acks, core, op);
            true
        }
        Some((op, Phase::Local)) => ack(acks, core, op) != Left::Last || core.0 > 0,
    }
}

/// Starts of so many objects begin, and cores 0 and 1 end them. How many calls had something to do.
pub fn round(acks: &mut Acks, count: u8) -> u64
    requires cores { core_count acks.old ≡ 2 }
    requires known { AreKnown acks.old }
    ensures known { AreKnown acks.new }
    ensures same_shape { core_count acks.new ≡ core_count acks.old }
{
    let mut done = 0_u64;
    for eo in 0..count {
        let began = begun(acks, Target::Eo(EoId(eo)));
        done = done.saturating_add(u64::from(began));
    }
    for step in 0..3 * u16::from(count) {
        let core = CoreId(u8::from(step >= 2 * u16::from(count)));
        let ended = ended(acks, core);
        done = done.saturating_add(u64::from(ended));
    }
    done
}
