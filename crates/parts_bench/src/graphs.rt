//! Graphs of many declarations of one kind.
ghost use Rattle.std.specs.Prelude.{◌≡◌, ◌≤◌, length, IfOk};
ghost use Rattle.em_log.specs.Declarations.{declarations_of, lone_count};

use em_log::{
    Config, EoDecl, EoId, Given, GroupDecl, Kind, List, Name, NoMemory, Priority, QueueDecl,
    mask_of,
};
use em_parts_rows::graph;
use std::alloc::Global;

/// How many cores each graph has.
pub const CORES: u8 = 4;

/// A graph of so many queue groups beside that of all cores.
pub fn with_groups(alloc: Global, count: u8) -> Result<Config, NoMemory>
    ensures cores { IfOk result (λ g. g.cores ≡ CORES) }
    ensures groups { IfOk result (λ g. length g.groups ≡ count) }
{
    let mut config = graph(alloc, CORES, 1, &[])?;
    let mut groups = List::new(alloc);
    for _ in 0..count {
        groups.push(GroupDecl {
            name: Name::new("g").ok_or(NoMemory)?,
            mask: mask_of(3, CORES).ok_or(NoMemory)?,
        })?;
    }
    config.groups = groups;
    Ok(config)
}

/// A graph of so many atomic queues, each an atomic context of its own.
pub fn with_atomic_queues(alloc: Global, count: u16) -> Result<Config, NoMemory>
    ensures cores { IfOk result (λ g. g.cores ≡ CORES) }
    ensures contexts { IfOk result (λ g. lone_count (declarations_of g).queues ≡ count) }
{
    let mut config = graph(alloc, CORES, 1, &[])?;
    let mut queues = List::new(alloc);
    for _ in 0..count {
        queues.push(QueueDecl {
            name: Name::new("q").ok_or(NoMemory)?,
            kind: Kind::Atomic,
            eo: None,
            priority: Some(Priority::Normal),
            group: None,
            agroup: None,
        })?;
    }
    config.queues = queues;
    Ok(config)
}

/// A graph of so many event groups.
pub fn with_event_groups(alloc: Global, count: u8) -> Result<Config, NoMemory>
    ensures { IfOk result (λ g. length g.egroups ≡ count) }
{
    let mut config = graph(alloc, CORES, 1, &[])?;
    let mut groups = List::new(alloc);
    for _ in 0..count {
        groups.push(Name::new("e").ok_or(NoMemory)?)?;
    }
    config.egroups = groups;
    Ok(config)
}

/// A graph of so many objects that run, each with a parallel queue.
pub fn with_objects(alloc: Global, count: u8) -> Result<Config, NoMemory>
    ensures objects { IfOk result (λ g. length g.eos ≡ count) }
    ensures queues { IfOk result (λ g. length g.queues ≡ count) }
{
    let mut config = graph(alloc, CORES, 1, &[])?;
    let mut objects = List::new(alloc);
    let mut queues = List::new(alloc);
    for eo in 0..count {
        objects.push(object(alloc)?)?;
        queues.push(QueueDecl {
            name: Name::new("q").ok_or(NoMemory)?,
            kind: Kind::Parallel,
            eo: Some(EoId(eo)),
            priority: Some(Priority::Normal),
            group: None,
            agroup: None,
        })?;
    }
    config.eos = objects;
    config.queues = queues;
    Ok(config)
}

/// An object that runs, with no bodies.
fn object(alloc: Global) -> Result<EoDecl, NoMemory> {
    Ok(EoDecl {
        name: Name::new("x").ok_or(NoMemory)?,
        running: true,
        receive: List::new(alloc),
        start: List::new(alloc),
        stop: List::new(alloc),
        lstart: List::new(alloc),
        lstop: List::new(alloc),
        error: None,
        given: Given {
            receive: false,
            start: false,
            stop: false,
            lstart: false,
            lstop: false,
        },
    })
}
