//! Declarations, and bytes that may not stand.
use super::{HEAD, Row, judge};
use std::test::*;

const THE_FIRST_LINE_TELLS_THE_CORES: [Row; 18] = [
    ("", "pool p 1 0", 2),
    ("", "boot", 2),
    ("", "done", 2),
    ("", "end", 2),
    ("", "say 1", 2),
    ("", "cores", 2),
    ("", "cores 1 1", 2),
    ("", "cores x", 2),
    ("", "cores v0", 2),
    ("", "cores 0", 6),
    ("", "cores 9", 6),
    ("", "cores 01", 6),
    ("", "cores 18446744073709551617", 6),
    ("", "cores 1", 0),
    ("", "cores 8", 0),
    ("", "# cores", 0),
    ("", "", 0),
    ("", "  cores  8  ", 0),
];

#[test]
fn the_first_line_tells_the_cores(rt: HostRuntime) -> Result<(), Fail> {
    judge(&rt, rt.alloc(), "", &THE_FIRST_LINE_TELLS_THE_CORES)
}

const POOLS_AND_GROUPS: [Row; 40] = [
    ("", "pool", 2),
    ("", "pool z 1", 2),
    ("", "pool z 1 0 0", 2),
    ("", "pool z x 0", 2),
    ("", "pool z 1 v0", 2),
    ("", "pool 9z 1 0", 3),
    ("", "pool pool 1 0", 3),
    ("", "pool all 1 0", 3),
    ("", "pool v15 1 0", 3),
    ("", "pool Z 1 0", 3),
    ("", "pool _z 1 0", 3),
    ("", "pool z-z 1 0", 3),
    ("", "pool abcdefghijklmnopq 1 0", 3),
    ("", "pool abcdefghijklmnop 1 0", 0),
    ("", "pool v16 1 0", 0),
    ("", "pool z_9 1 0", 0),
    ("", "pool p 1 0", 4),
    ("", "pool x 1 0", 4),
    ("", "pool z 0 0", 6),
    ("", "pool z 4097 0", 6),
    ("", "pool z 1 17", 6),
    ("", "pool z 01 0", 6),
    ("", "pool z 1 00", 6),
    ("", "pool z 4093 0", 10),
    ("", "pool z 4092 16", 0),
    ("", "pool end 0 99", 3),
    ("", "pool p 0 0", 4),
    ("", "pool p x 0", 2),
    ("", "pool z 4096 17", 6),
    ("", "group h", 2),
    ("", "group h x", 2),
    ("", "group h 1 1", 2),
    ("", "group in 1", 3),
    ("", "group all 1", 3),
    ("", "group g 1", 4),
    ("", "group h 0", 6),
    ("", "group h 4", 6),
    ("", "group h 03", 6),
    ("", "group h 3", 0),
    ("", "group e 4", 4),
];

#[test]
fn pools_and_groups(rt: HostRuntime) -> Result<(), Fail> {
    judge(&rt, rt.alloc(), HEAD, &POOLS_AND_GROUPS)
}

const OBJECTS_AND_GROUPS_OF_TWO_KINDS: [Row; 24] = [
    ("", "eo", 2),
    ("", "eo z stopped", 2),
    ("", "eo z running running", 2),
    ("", "eo running", 3),
    ("", "eo running running", 3),
    ("", "eo x", 4),
    ("", "eo z", 0),
    ("", "eo z running", 0),
    ("", "agroup b", 2),
    ("", "agroup b g g", 2),
    ("", "agroup end g", 3),
    ("", "agroup a g", 4),
    ("", "agroup b h", 5),
    ("", "agroup b x", 5),
    ("", "agroup b 1", 5),
    ("", "agroup b cores", 5),
    ("", "agroup b all", 0),
    ("", "agroup b g", 0),
    ("", "agroup a h", 4),
    ("", "egroup", 2),
    ("", "egroup f f", 2),
    ("", "egroup fault", 3),
    ("", "egroup e", 4),
    ("", "egroup f", 0),
];

#[test]
fn objects_and_groups_of_two_kinds(rt: HostRuntime) -> Result<(), Fail> {
    judge(&rt, rt.alloc(), HEAD, &OBJECTS_AND_GROUPS_OF_TWO_KINDS)
}

const QUEUES: [Row; 49] = [
    ("", "queue", 2),
    ("", "queue z", 2),
    ("", "queue z other", 2),
    ("", "queue z atomic", 2),
    ("", "queue z atomic x", 2),
    ("", "queue z atomic x normal", 2),
    ("", "queue z atomic x middle all", 2),
    ("", "queue z atomic x normal in a a", 2),
    ("", "queue z atomic x normal all all", 2),
    ("", "queue lt atomic x normal all", 3),
    ("", "queue q atomic x normal all", 4),
    ("", "queue z atomic w normal all", 5),
    ("", "queue z atomic p normal all", 5),
    ("", "queue z atomic x normal h", 5),
    ("", "queue z atomic x normal in", 5),
    ("", "queue z atomic x normal in g", 5),
    ("", "queue z atomic x normal in all", 5),
    ("", "queue z atomic x normal a", 5),
    ("", "queue z atomic x normal in a", 0),
    ("", "queue z atomic y lowest g", 0),
    ("", "queue z parallel x normal", 2),
    ("", "queue z parallel x normal in a", 2),
    ("", "queue send parallel x normal all", 3),
    ("", "queue u parallel x normal all", 4),
    ("", "queue z parallel x normal a", 5),
    ("", "queue z parallel q normal all", 5),
    ("", "queue z parallel y highest g", 0),
    ("", "queue z ordered x normal", 2),
    ("", "queue z ordered x normal in a", 2),
    ("", "queue z ordered x Normal all", 2),
    ("", "queue shr ordered x normal all", 3),
    ("", "queue e ordered x normal all", 4),
    ("", "queue z ordered x normal 0", 5),
    ("", "queue z ordered u normal all", 5),
    ("", "queue z ordered x low all", 0),
    ("", "queue z local x", 2),
    ("", "queue z local x normal all", 2),
    ("", "queue local local x normal", 3),
    ("", "queue q local x normal", 4),
    ("", "queue z local q normal", 5),
    ("", "queue z local x high", 0),
    ("", "queue z unscheduled x", 2),
    ("", "queue v0 unscheduled", 3),
    ("", "queue a unscheduled", 4),
    ("", "queue z unscheduled", 0),
    ("", "queue z output x", 2),
    ("", "queue output output", 3),
    ("", "queue g output", 4),
    ("", "queue z output", 0),
];

#[test]
fn queues(rt: HostRuntime) -> Result<(), Fail> {
    judge(&rt, rt.alloc(), HEAD, &QUEUES)
}

const BYTES_THAT_MAY_NOT_STAND: [Row; 7] = [
    ("", "# \t", 1),
    ("", "\t", 1),
    ("", "pool z 1 0\r", 1),
    ("", "# \x7f", 1),
    ("", "# ~", 0),
    ("", "end\x0b", 1),
    ("boot\nend\ndone\n", "# \t", 1),
];

#[test]
fn bytes_that_may_not_stand(rt: HostRuntime) -> Result<(), Fail> {
    judge(&rt, rt.alloc(), HEAD, &BYTES_THAT_MAY_NOT_STAND)
}
