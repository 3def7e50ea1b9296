//! The declarations of a graph.
ghost use Rattle.std.specs.Prelude.{◌≡◌, IfOk, map};
ghost use Rattle.em_log.specs.Declarations.{pool_shape, group_shape, eo_shape, agroup_shape, queue_shape, declarations_of};

use crate::declarations::{Declarations, PoolShape, QueueShape};
use crate::graph::Config;
use crate::ids::{GroupId, NoMemory};
use crate::list::List;
use crate::mask::CoreMask;
use std::alloc::Global;

fn pools_of(alloc: Global, config: &Config) -> Result<List<PoolShape>, NoMemory>
    ensures { IfOk result (λ shapes. shapes ≡ map pool_shape config.now.pools) }
{
    let mut shapes = List::new(alloc);
    for pool in config.pools.as_slice() {
        shapes.push(PoolShape {
            events: pool.events,
            words: pool.words,
        })?;
    }
    Ok(shapes)
}

fn groups_of(alloc: Global, config: &Config) -> Result<List<CoreMask>, NoMemory>
    ensures { IfOk result (λ masks. masks ≡ map group_shape config.now.groups) }
{
    let mut masks = List::new(alloc);
    for group in config.groups.as_slice() {
        masks.push(group.mask)?;
    }
    Ok(masks)
}

fn running_of(alloc: Global, config: &Config) -> Result<List<bool>, NoMemory>
    ensures { IfOk result (λ running. running ≡ map eo_shape config.now.eos) }
{
    let mut running = List::new(alloc);
    for eo in config.eos.as_slice() {
        running.push(eo.running)?;
    }
    Ok(running)
}

fn agroups_of(alloc: Global, config: &Config) -> Result<List<GroupId>, NoMemory>
    ensures { IfOk result (λ groups. groups ≡ map agroup_shape config.now.agroups) }
{
    let mut groups = List::new(alloc);
    for agroup in config.agroups.as_slice() {
        groups.push(agroup.group)?;
    }
    Ok(groups)
}

fn queues_of(alloc: Global, config: &Config) -> Result<List<QueueShape>, NoMemory>
    ensures { IfOk result (λ shapes. shapes ≡ map queue_shape config.now.queues) }
{
    let mut shapes = List::new(alloc);
    for queue in config.queues.as_slice() {
        shapes.push(QueueShape {
            kind: queue.kind,
            eo: queue.eo,
            priority: queue.priority,
            group: queue.group,
            agroup: queue.agroup,
        })?;
    }
    Ok(shapes)
}

/// The declarations of a graph.
pub fn declare(alloc: Global, config: &Config) -> Result<Declarations, NoMemory>
    ensures { IfOk result (λ k. k ≡ declarations_of config.now) }
{
    Ok(Declarations {
        cores: config.cores,
        pools: pools_of(alloc, config)?,
        groups: groups_of(alloc, config)?,
        running: running_of(alloc, config)?,
        agroups: agroups_of(alloc, config)?,
        queues: queues_of(alloc, config)?,
        egroups: config.egroups.as_slice().len(),
    })
}
