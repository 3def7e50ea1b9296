//! Bodies, their blocks and their limits.
use super::{HEAD, Row, judge};
use std::test::*;

const BODIES_BEGIN: [Row; 49] = [
    ("", "boot x", 2),
    ("", "error 1", 2),
    ("", "body x", 2),
    ("", "body x run", 2),
    ("", "body x boot", 2),
    ("", "body w receive", 5),
    ("", "body receive receive", 5),
    ("", "body q start", 5),
    ("", "body x receive now", 2),
    ("", "done now", 2),
    ("", "done", 11),
    ("", "cores 2", 2),
    ("", "say 1", 2),
    ("", "end", 2),
    ("", "else", 2),
    ("", "boot", 0),
    ("", "error", 0),
    ("", "body x receive", 0),
    ("", "body y start", 0),
    ("", "body x stop", 0),
    ("", "body x lstart", 0),
    ("", "body x lstop", 0),
    ("", "body x error", 0),
    ("boot\nend\n", "boot", 8),
    ("boot\nend\n", "error", 0),
    ("boot\nend\n", "pool z 1 0", 2),
    ("boot\nend\n", "eo x", 2),
    ("boot\nend\n", "egroup f", 2),
    ("boot\nend\n", "cores 2", 2),
    ("boot\nend\n", "end", 2),
    ("boot\nend\n", "done", 0),
    ("error\nend\n", "error", 8),
    ("error\nend\n", "boot", 0),
    ("body x error\nend\n", "error", 0),
    ("body x receive\nend\n", "body x receive", 8),
    ("body x start\nend\n", "body x start", 8),
    ("body x stop\nend\n", "body x stop", 8),
    ("body x lstart\nend\n", "body x lstart", 8),
    ("body x lstop\nend\n", "body x lstop", 8),
    ("body x error\nend\n", "body x error", 8),
    ("body x receive\nend\n", "body y receive", 0),
    ("body x receive\nend\n", "body x start", 0),
    ("body x receive\nend\nboot\nend\n", "body x receive", 8),
    ("body x receive\nend\n", "body w receive", 5),
    ("boot\nend\ndone\n", "done", 2),
    ("boot\nend\ndone\n", "pool z 1 0", 2),
    ("boot\nend\ndone\n", "# more", 0),
    ("boot\nend\ndone\n", "", 0),
    ("boot\nend\ndone\n", "   ", 0),
];

#[test]
fn bodies_begin(rt: HostRuntime) -> Result<(), Fail> {
    judge(&rt, rt.alloc(), HEAD, &BODIES_BEGIN)
}

const BLOCKS: [Row; 38] = [
    ("boot\n", "set v0", 2),
    ("boot\n", "set v16 1", 2),
    ("boot\n", "set x 1", 2),
    ("boot\n", "set v01 1", 2),
    ("boot\n", "set v0 1 1", 2),
    ("boot\n", "set v0 v16", 2),
    ("boot\n", "set v0 foo", 2),
    ("boot\n", "set v0 01", 6),
    ("boot\n", "set v0 18446744073709551616", 6),
    ("boot\n", "set v0 v15", 0),
    ("boot\n", "if", 2),
    ("boot\n", "if 1 1", 2),
    ("boot\n", "if 01", 6),
    ("boot\n", "if lt kind 3", 0),
    ("boot\n", "else", 2),
    ("boot\n", "end 1", 2),
    ("boot\n", "end", 0),
    ("boot\n", "repeat", 2),
    ("boot\n", "repeat v0", 2),
    ("boot\n", "repeat 1 1", 2),
    ("boot\n", "repeat 0", 6),
    ("boot\n", "repeat 257", 6),
    ("boot\n", "repeat 01", 6),
    ("boot\n", "repeat 256", 0),
    ("boot\n", "boot", 2),
    ("boot\n", "done", 2),
    ("boot\n", "note 1 q", 2),
    ("boot\n", "pool z 1 0", 2),
    ("boot\n", "frob", 2),
    ("boot\n", "all", 2),
    ("boot\nif 1\n", "else", 0),
    ("boot\nif 1\n", "else 1", 2),
    ("boot\nif 1\nelse\n", "else", 2),
    ("boot\nrepeat 2\n", "else", 2),
    ("boot\nif 1\nend\n", "else", 2),
    ("boot\nif 1\nrepeat 2\n", "else", 2),
    ("boot\nif 1\nrepeat 2\nend\n", "else", 0),
    ("boot\nif 1\nelse\nif 2\n", "else", 0),
];

#[test]
fn blocks(rt: HostRuntime) -> Result<(), Fail> {
    judge(&rt, rt.alloc(), HEAD, &BLOCKS)
}

const BODIES_ARE_LIMITED: [Row; 39] = [
    ("boot\nrepeat 256\nsay 1\nend\nend\n", "done", 0),
    ("boot\nrepeat 256\nsay 1\nend\nsay 1\nend\n", "done", 9),
    ("boot\nrepeat 128\nsend 1 q\nend\nend\n", "done", 0),
    ("boot\nrepeat 129\nsend 1 q\nend\nend\n", "done", 9),
    ("boot\nrepeat 129\nsendg 1 q e\nend\nend\n", "done", 9),
    ("boot\nrepeat 128\napply e 1\nend\nend\n", "done", 0),
    ("boot\nrepeat 129\napply e 1\nend\nend\n", "done", 9),
    ("boot\nrepeat 86\napply e 1 note 1 q\nend\nend\n", "done", 9),
    ("boot\nrepeat 85\nstart x\nend\nend\n", "done", 0),
    ("boot\nrepeat 86\nstart x\nend\nend\n", "done", 9),
    ("boot\nrepeat 65\nstop x note 1 q\nend\nend\n", "done", 9),
    (
        "boot\nrepeat 64\nmodify g 1 note 1 q\nend\nend\n",
        "done",
        0,
    ),
    ("boot\nrepeat 256\nset v0 1\nend\nend\n", "done", 0),
    (
        "boot\nrepeat 256\nif 1\nsay 1\nelse\nend\nend\nend\n",
        "done",
        0,
    ),
    (
        "boot\nrepeat 256\nif 1\nelse\nsay 1\nsay 1\nend\nend\nend\n",
        "done",
        9,
    ),
    (
        "boot\nrepeat 256\nif 1\nsay 1\nsay 1\nelse\nend\nend\nend\n",
        "done",
        9,
    ),
    (
        "boot\nrepeat 256\nif 1\nsay 1\nelse\nsay 2\nend\nend\nend\n",
        "done",
        0,
    ),
    (
        "error\nsay 1\nend\nboot\nrepeat 128\nsay 1\nend\nend\n",
        "done",
        0,
    ),
    (
        "error\nsay 1\nend\nboot\nrepeat 129\nsay 1\nend\nend\n",
        "done",
        9,
    ),
    (
        "error\nsay 1\nend\nboot\nrepeat 256\nset v0 1\nend\nend\n",
        "done",
        0,
    ),
    ("error\nend\nboot\nrepeat 256\nsay 1\nend\nend\n", "done", 0),
    ("boot\nend\nerror\nrepeat 256\nsay 1\nend\nend\n", "done", 0),
    (
        "boot\nend\nerror\nrepeat 256\nsay 1\nend\nsay 1\nend\n",
        "done",
        9,
    ),
    (
        "boot\nend\nbody x receive\nrepeat 256\nfree me\nend\nend\n",
        "done",
        0,
    ),
    (
        "boot\nend\nbody x receive\nrepeat 256\nfree me\nend\nfree me\nend\n",
        "done",
        9,
    ),
    (
        "error\nrepeat 200\nsay 1\nend\nend\nboot\nend\nbody x error\nend\nbody x receive\nrepeat 256\nfree me\nend\nend\n",
        "done",
        0,
    ),
    (
        "error\nend\nboot\nend\nbody x error\nsay 1\nend\nbody x receive\nrepeat 129\nfree me\nend\nend\n",
        "done",
        9,
    ),
    (
        "error\nsay 1\nend\nboot\nend\nbody x error\nsay 1\nend\nbody y receive\nrepeat 128\nfree me\nend\nend\n",
        "done",
        0,
    ),
    (
        "error\nsay 1\nend\nboot\nend\nbody x start\nrepeat 129\nfree 1\nend\nend\n",
        "done",
        9,
    ),
    (
        "error\nsay 1\nend\nboot\nend\nbody x stop\nrepeat 129\nfree 1\nend\nend\n",
        "done",
        9,
    ),
    (
        "error\nsay 1\nend\nboot\nend\nbody y lstart\nrepeat 129\nfree 1\nend\nend\n",
        "done",
        9,
    ),
    (
        "error\nsay 1\nend\nboot\nend\nbody y lstop\nrepeat 129\nfree 1\nend\nend\n",
        "done",
        9,
    ),
    (
        "boot\nend\nbody y error\nrepeat 256\nsay 1\nend\nsay 1\nend\n",
        "done",
        9,
    ),
    (
        "boot\nrepeat 255\nrepeat 256\nset v0 1\nend\nend\nend\n",
        "done",
        0,
    ),
    (
        "boot\nrepeat 255\nrepeat 256\nset v0 1\nend\nend\nset v0 1\nend\n",
        "done",
        9,
    ),
    (
        "error\nrepeat 256\nset v0 1\nend\nend\nboot\nrepeat 254\nsay 1\nend\nend\n",
        "done",
        0,
    ),
    (
        "error\nrepeat 256\nset v0 1\nend\nend\nboot\nrepeat 255\nsay 1\nend\nend\n",
        "done",
        9,
    ),
    ("error\nrepeat 256\nsay 1\nend\nsay 1\nend\n", "done", 11),
    ("", "done", 11),
];

#[test]
fn bodies_are_limited(rt: HostRuntime) -> Result<(), Fail> {
    judge(&rt, rt.alloc(), HEAD, &BODIES_ARE_LIMITED)
}

const BLOCKS_NEST_SIXTEEN_DEEP: [Row; 8] = [
    (
        "boot\nif 1\nif 1\nif 1\nif 1\nif 1\nif 1\nif 1\nif 1\nif 1\nif 1\nif 1\nif 1\nif 1\nif 1\nif 1\n",
        "if 1",
        0,
    ),
    (
        "boot\nif 1\nif 1\nif 1\nif 1\nif 1\nif 1\nif 1\nif 1\nif 1\nif 1\nif 1\nif 1\nif 1\nif 1\nif 1\nif 1\n",
        "if 1",
        10,
    ),
    (
        "boot\nrepeat 1\nrepeat 1\nrepeat 1\nrepeat 1\nrepeat 1\nrepeat 1\nrepeat 1\nrepeat 1\nrepeat 1\nrepeat 1\nrepeat 1\nrepeat 1\nrepeat 1\nrepeat 1\nrepeat 1\nrepeat 1\n",
        "repeat 1",
        10,
    ),
    (
        "boot\nrepeat 1\nrepeat 1\nrepeat 1\nrepeat 1\nrepeat 1\nrepeat 1\nrepeat 1\nrepeat 1\nrepeat 1\nrepeat 1\nrepeat 1\nrepeat 1\nrepeat 1\nrepeat 1\nrepeat 1\nrepeat 1\n",
        "if 01",
        6,
    ),
    (
        "boot\nrepeat 1\nrepeat 1\nrepeat 1\nrepeat 1\nrepeat 1\nrepeat 1\nrepeat 1\nrepeat 1\nrepeat 1\nrepeat 1\nrepeat 1\nrepeat 1\nrepeat 1\nrepeat 1\nrepeat 1\n",
        "repeat 1",
        0,
    ),
    (
        "boot\nif 1\nif 1\nif 1\nif 1\nif 1\nif 1\nif 1\nif 1\nif 1\nif 1\nif 1\nif 1\nif 1\nif 1\nif 1\nif 1\nend\n",
        "repeat 1",
        0,
    ),
    (
        "boot\nif 1\nif 1\nif 1\nif 1\nif 1\nif 1\nif 1\nif 1\nif 1\nif 1\nif 1\nif 1\nif 1\nif 1\nif 1\nif 1\nelse\n",
        "repeat 1",
        10,
    ),
    (
        "boot\nif 1\nif 1\nif 1\nif 1\nif 1\nif 1\nif 1\nif 1\nif 1\nif 1\nif 1\nif 1\nif 1\nif 1\nif 1\nif 1\n",
        "say 1",
        0,
    ),
];

#[test]
fn blocks_nest_sixteen_deep(rt: HostRuntime) -> Result<(), Fail> {
    judge(&rt, rt.alloc(), HEAD, &BLOCKS_NEST_SIXTEEN_DEEP)
}
