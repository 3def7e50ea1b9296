//! Graphs of one pool, and of at most one object.
ghost use Rattle.std.specs.Prelude.{◌≡◌, ◌∷◌, [], map, replicate, true, IfOk};
ghost use Rattle.em_log.specs.Declarations.{declarations_of, eo_shape, queue_shape, agroup_shape};
ghost use Rattle.em_desk_rows.specs.Graphs.{graph_of, one_queue, all_cores_groups};

use em_log::{
    AgroupDecl, Config, EoDecl, EoId, Given, GroupId, Kind, List, Name, NoMemory, PoolDecl,
    PoolShape, Priority, QueueDecl, QueueShape,
};
use std::alloc::Global;

/// The graph of these objects, atomic groups and queues, and of one pool.
pub fn graph(
    alloc: Global,
    cores: u8,
    pool: PoolShape,
    eos: List<EoDecl>,
    agroups: List<AgroupDecl>,
    queues: List<QueueDecl>,
) -> Result<Config, NoMemory>
    ensures { IfOk result (λ g. declarations_of g ≡ graph_of cores pool (map eo_shape eos) (map agroup_shape agroups) (map queue_shape queues)) }
{
    let mut pools = List::new(alloc);
    pools.push(PoolDecl {
        name: Name::new("p").ok_or(NoMemory)?,
        events: pool.events,
        words: pool.words,
    })?;
    Ok(Config {
        cores,
        order: List::new(alloc),
        pools,
        groups: List::new(alloc),
        eos,
        agroups,
        queues,
        egroups: List::new(alloc),
        boot: List::new(alloc),
        error: None,
    })
}

/// One object that runs.
fn one_object(alloc: Global) -> Result<List<EoDecl>, NoMemory>
    ensures { IfOk result (λ eos. map eo_shape eos ≡ true ∷ []) }
{
    let mut eos = List::new(alloc);
    eos.push(EoDecl {
        name: Name::new("x").ok_or(NoMemory)?,
        running: true,
        receive: List::new(alloc),
        start: List::new(alloc),
        stop: List::new(alloc),
        lstart: List::new(alloc),
        lstop: List::new(alloc),
        error: None,
        given: Given {
            receive: true,
            start: false,
            stop: false,
            lstart: false,
            lstop: false,
        },
    })?;
    Ok(eos)
}

/// So many atomic groups, each of all cores.
fn groups(alloc: Global, count: u8) -> Result<List<AgroupDecl>, NoMemory>
    ensures { IfOk result (λ ds. map agroup_shape ds ≡ all_cores_groups count) }
{
    let mut agroups = List::new(alloc);
    for _ in 0..count {
        agroups.push(AgroupDecl {
            name: Name::new("a").ok_or(NoMemory)?,
            group: GroupId(0),
        })?;
    }
    Ok(agroups)
}

/// A queue of this shape.
fn queue(shape: QueueShape) -> Result<QueueDecl, NoMemory>
    ensures { IfOk result (λ d. queue_shape d ≡ shape) }
{
    Ok(QueueDecl {
        name: Name::new("q").ok_or(NoMemory)?,
        kind: shape.kind,
        eo: shape.eo,
        priority: shape.priority,
        group: shape.group,
        agroup: shape.agroup,
    })
}

/// Queues of these shapes.
fn queues(alloc: Global, shapes: &[QueueShape]) -> Result<List<QueueDecl>, NoMemory>
    ensures { IfOk result (λ ds. map queue_shape ds ≡ shapes.now) }
{
    let mut queues = List::new(alloc);
    for shape in shapes {
        queues.push(queue(*shape)?)?;
    }
    Ok(queues)
}

/// One pool, one object that runs, so many atomic groups, and these queues.
pub fn with_queues(
    alloc: Global,
    cores: u8,
    pool: PoolShape,
    agroups: u8,
    shapes: &[QueueShape],
) -> Result<Config, NoMemory>
    ensures { IfOk result (λ g. declarations_of g ≡ graph_of cores pool (true ∷ []) (all_cores_groups agroups) shapes.now) }
{
    graph(
        alloc,
        cores,
        pool,
        one_object(alloc)?,
        groups(alloc, agroups)?,
        queues(alloc, shapes)?,
    )
}

/// One pool, one object that runs, and its parallel queue.
pub fn with_queue(alloc: Global, cores: u8, pool: PoolShape) -> Result<Config, NoMemory>
    ensures { IfOk result (λ g. declarations_of g ≡ one_queue cores pool) }
{
    let shape = QueueShape {
        kind: Kind::Parallel,
        eo: Some(EoId(0)),
        priority: Some(Priority::Normal),
        group: Some(GroupId(0)),
        agroup: None,
    };
    with_queues(alloc, cores, pool, 0, &[shape])
}
