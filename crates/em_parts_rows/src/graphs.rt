//! Small graphs for the parts.
ghost use Rattle.std.specs.Prelude.{◌≡◌, ◌∷◌, [], length, IfOk};
ghost use Rattle.em_log.specs.Declarations.{declarations_of};

use em_log::{Config, Decl, Kind, List, Name, NoMemory, PoolDecl, Priority, QueueDecl};
use std::alloc::Global;

/// A graph of so many cores, one pool of so many events, and queues of these kinds and priorities.
pub fn graph(
    alloc: Global,
    cores: u8,
    events: u16,
    queues: &[(Kind, Option<Priority>)],
) -> Result<Config, NoMemory>
    ensures cores { IfOk result (λ g. g.cores ≡ cores) }
    ensures pools { IfOk result (λ g. (declarations_of g).pools ≡ record { events = events; words = 0 } ∷ []) }
    ensures queues { IfOk result (λ g. length g.queues ≡ length queues.now) }
{
    let mut pools = List::new(alloc);
    pools.push(PoolDecl {
        name: Name::new("p").ok_or(NoMemory)?,
        events,
        words: 0,
    })?;
    let mut order = List::new(alloc);
    order.push(Decl::Pool(0))?;
    Ok(Config {
        cores,
        order,
        pools,
        groups: List::new(alloc),
        eos: List::new(alloc),
        agroups: List::new(alloc),
        queues: declared(alloc, queues)?,
        egroups: List::new(alloc),
        boot: List::new(alloc),
        error: None,
    })
}

/// Queues of these kinds and priorities.
fn declared(alloc: Global, queues: &[(Kind, Option<Priority>)]) -> Result<List<QueueDecl>, NoMemory>
    ensures { IfOk result (λ list. length list ≡ length queues.now) }
{
    let mut list = List::new(alloc);
    for (kind, priority) in queues {
        list.push(QueueDecl {
            name: Name::new("q").ok_or(NoMemory)?,
            kind: *kind,
            eo: None,
            priority: *priority,
            group: None,
            agroup: None,
        })?;
    }
    Ok(list)
}
