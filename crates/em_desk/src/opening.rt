//! What the desk keeps of each core's open context.
ghost use Rattle.std.specs.Prelude.{◌≡◌, replicate, IfOk};
ghost use Rattle.std.specs.List.{list_all};
ghost use Rattle.em_desk.specs.Openings.{opening_at, is_closed, is_boot, object_in as object_of_opening, receiver_in};
ghost use Rattle.em_desk.specs.declared.opening.Opening.{Opening as TheOpening};

use em_log::{CoreId, EoId, NoMemory};
use std::alloc::Global;

/// No context, boot, or another body, of an object.
#[derive(Clone, Copy, Debug, PartialEq, Eq)]
pub enum Opening {
    Closed,
    Boot,
    Body(Option<EoId>),
}

/// No open context on any of these cores.
pub fn closed(alloc: Global, cores: u8) -> Result<Vec<Opening>, NoMemory>
    ensures { IfOk result (λ v. v.items ≡ replicate cores TheOpening.Closed) }
{
    let mut contexts = Vec::new(alloc);
    for _ in 0..cores {
        if contexts.push(Opening::Closed).is_err() {
            return Err(NoMemory);
        }
    }
    Ok(contexts)
}

/// Whether boot is under way: it is core 0's.
pub fn is_booting(contexts: &[Opening]) -> bool
    ensures { result ≡ is_boot (opening_at contexts.now 0) }
{
    match contexts.first() {
        Some(Opening::Boot) => true,
        _ => false,
    }
}

/// Whether no context is open.
pub fn are_closed(contexts: &[Opening]) -> bool
    ensures { result ≡ list_all is_closed contexts.now }
{
    contexts
        .iter()
        .all(|context| matches!(context, Opening::Closed))
}

/// The object whose body is the core's open context, if it has one.
pub fn object_in(contexts: &[Opening], core: CoreId) -> Option<EoId>
    ensures { result ≡ object_of_opening (opening_at contexts.now core.0) }
{
    match contexts.get(usize::from(core.0)) {
        Some(Opening::Body(object)) => *object,
        _ => None,
    }
}

/// The object whose body is the core's open context; where it has none, object 0.
pub fn receiver(contexts: &[Opening], core: CoreId) -> EoId
    ensures { result ≡ receiver_in (opening_at contexts.now core.0) }
{
    match object_in(contexts, core) {
        Some(object) => object,
        None => EoId(0),
    }
}
