//! The calls of the atomic contexts, each by itself, and rounds of them.
ghost use Rattle.std.specs.Prelude.{◌≡◌, ◌<◌, None};
ghost use Rattle.em_atomic.specs.State.{shape, holder_at, held_at, core_number, atomic_number};

use em_atomic::Atomics;
use em_log::{AtomicId, Cells, CoreId};

/// The core that makes all calls.
const CORE: CoreId = CoreId(0);

/// How often each call is made in a round.
pub const CALLS: [(&str, u32); 4] = [("holder", 1), ("held", 1), ("grab", 1), ("give", 1)];

#[inline(never)]
fn holder(atomics: &Atomics, atomic: AtomicId) -> Option<CoreId>
    requires { atomic.0 < (shape atomics.now).contexts }
    ensures { core_number result ≡ holder_at atomics.now atomic.0 }
{
    atomics.holder(atomic)
}

#[inline(never)]
fn held(atomics: &Atomics) -> Option<AtomicId>
    requires { 0 < (shape atomics.now).cores }
    ensures { atomic_number result ≡ held_at atomics.now 0 }
{
    atomics.held(CORE)
}

#[inline(never)]
fn grab(atomics: &mut Atomics, atomic: AtomicId) -> Cells
    requires atomic { atomic.0 < (shape atomics.old).contexts }
    requires core { 0 < (shape atomics.old).cores }
    requires free { holder_at atomics.old atomic.0 ≡ None }
    requires idle { held_at atomics.old 0 ≡ None }
    ensures { shape atomics.new ≡ shape atomics.old }
{
    atomics.grab(atomic, CORE)
}

#[inline(never)]
fn give(atomics: &mut Atomics, cells: Cells) -> bool
    requires { 0 < (shape atomics.old).cores }
    ensures { shape atomics.new ≡ shape atomics.old }
{
    atomics.give(CORE, cells).is_ok()
}

/// The core grabs the context, where both are free, and gives it back.
pub fn round(atomics: &mut Atomics, atomic: AtomicId) -> bool
    requires atomic { atomic.0 < (shape atomics.old).contexts }
    requires core { 0 < (shape atomics.old).cores }
    ensures { shape atomics.new ≡ shape atomics.old }
{
    let is_free = holder(atomics, atomic).is_none() && held(atomics).is_none();
    if is_free {
        let cells = grab(atomics, atomic);
        return give(atomics, cells);
    }
    false
}
