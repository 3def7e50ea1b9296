//! Graphs whose boot body makes faults, each of which the error body handles.
ghost use Rattle.std.specs.Prelude.{IfOk};
ghost use Rattle.em_log.specs.WellFormed.{IsWellFormed};

use em_log::{Config, NoMemory};
use em_script::parse;
use std::alloc::Global;

/// A graph whose boot body makes so many faults. Err is want of memory, or a number that is 0 or above 100.
pub fn faulting_graph(alloc: Global, faults: u16) -> Result<Config, NoMemory>
    ensures { IfOk result IsWellFormed }
{
    let script = format!(in alloc;
        "cores 1\nboot\nrepeat {faults}\nfree 0\nend\nend\nerror\nsay fault\nend\ndone\n"
    ).map_err(|_| NoMemory)?;
    match parse(alloc, script.as_bytes()) {
        Ok(graph) => Ok(graph),
        Err(_) => Err(NoMemory),
    }
}
