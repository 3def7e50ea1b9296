//! Whole scripts: read, refused, and written in their canonical spelling.
ghost use Rattle.std.specs.Prelude.{None};

use super::refusal;
use em_script::{parse, print};
use std::alloc::Global;
use std::test::*;

/// The canonical spelling of a script.
fn canonical(alloc: Global, bytes: &[u8]) -> Option<Vec<u8>> {
    let Ok(graph) = parse(alloc, bytes) else {
        return None;
    };
    print(alloc, &graph).ok()
}

/// Scripts that are read, each with its canonical spelling.
const READ: [(&str, &str); 2] = [
    (
        "# one\ncores 1\n\nboot\n  end\ndone\n",
        "cores 1\nboot\nend\ndone\n",
    ),
    (
        "cores 1\nboot\nrepeat 256\nsay 1\nend\nend\ndone\n",
        "cores 1\nboot\nrepeat 256\nsay 1\nend\nend\ndone\n",
    ),
];

/// Texts that are refused, each with its line and rule.
const REFUSED: [(&str, u64, u8); 17] = [
    ("cores\t1\nboot\nend\ndone\n", 1, 1),
    ("cores 1\nboot\nend\nboot\n", 4, 8),
    ("cores 1\nboot\nclaim v0\n", 3, 7),
    ("cores 9\n", 1, 6),
    ("cores 1\npool p 1 0\neo p\n", 3, 4),
    ("cores 1\nboot\nalloc v0 p 0\n", 3, 5),
    (
        "cores 1\npool p0 1 0\npool p1 1 0\npool p2 1 0\npool p3 1 0\npool p4 1 0\npool p5 1 0\npool p6 1 0\npool p7 1 0\npool p8 1 0\n",
        10,
        10,
    ),
    ("cores 1\ndone\n", 2, 11),
    ("cores 1\nboot\nsay 18446744073709551616\n", 3, 6),
    ("cores 1\npool end 1 0\n", 2, 3),
    (
        "cores 1\nboot\nrepeat 256\nrepeat 256\nset v0 1\nend\nend\nend\ndone\n",
        9,
        9,
    ),
    ("cores 1\nboot\nfrob\nend\ndone\n", 3, 2),
    (
        "cores 1\nboot\nrepeat 256\nsay 1\nsay 1\nend\nend\ndone\n",
        8,
        9,
    ),
    ("cores 1\npool p 1 0\nbo", 3, 2),
    ("", 1, 11),
    ("cores 1\nboot\nend\n", 4, 11),
    ("cores 1\nboot\nend\ndone\nend\n", 5, 2),
];

#[test]
fn scripts_have_one_canonical_spelling(rt: HostRuntime) -> Result<(), Fail> {
    for (script, spelling) in READ {
        let text = canonical(rt.alloc(), script.as_bytes()).ok_or("a script")?;
        assert_eq!(rt; text.as_slice(), spelling.as_bytes(), "at {script}");
    }
    Ok(())
}

#[test]
fn the_first_line_that_fails_is_refused(rt: HostRuntime) {
    for (script, line, rule) in REFUSED {
        assert_eq!(rt;
            refusal(rt.alloc(), script.as_bytes()),
            Some((line, rule)),
            "at {script}"
        );
    }
}

#[test]
fn the_longest_input_has_no_end(rt: HostRuntime) -> Result<(), Fail> {
    let bytes = vec![in rt.alloc(); b'#'; 65_536]?;
    assert_eq!(rt; refusal(rt.alloc(), bytes.as_slice()), Some((2, 11)));
    Ok(())
}

/// A script of every form, in its canonical spelling.
const EVERY_FORM: &str = "\
cores 8
pool p 4096 16
group g 255
eo x
eo y running
agroup a all
agroup b g
queue qa atomic x lowest all
queue qb atomic y low in a
queue qc parallel x normal g
queue qd ordered y high all
queue qe local x highest
queue qf unscheduled
queue qg output
egroup e
boot
set v0 0
set v15 18446744073709551615
cell add kind size sub word 3 me
say mul queue core
alloc v0 p cell 7
alloc v1 p and ok fault or detail 1 2 3 4 5 6 7 8 9 10 11 12 13 14 15 16
free xor 1 2
send shr v0 1 qc
sendg lt v0 1 qa e
dequeue v2 qf
enable qa
disable qb
endatomic
endordered
endgroup
apply e 2
apply e 3 note v0 qg note eq v1 2 qf
increment 1
abort e
start x
start x note v0 qg
stop y note 1 qa note 2 qb note 3 qc note 4 qd note 5 qe note 6 qf note 7 qg note 8 qa
modify all 255
modify g 1 note v0 qg
if 1
say 1
else
say 2
end
if 0
end
if 0
else
end
repeat 3
repeat 1
end
if 1
say 3
end
end
end
error
say detail
end
body x receive
keep me
claim v0
start y
end
body x start
fail
end
body x stop
end
body x lstart
end
body x lstop
end
body x error
say 9
end
body y receive
end
body y error
end
done
";

/// The same script with the bodies in another order, comments, empty lines and further spaces.
const EVERY_FORM_DISORDERED: &str = "# first\n\n  cores   8 \n\
pool p 4096 16
group g 255
eo x
eo y running
agroup a all
agroup b g
queue qa atomic x lowest all
queue qb atomic y low in a
queue qc parallel x normal g
queue qd ordered y high all
queue qe local x highest
queue qf unscheduled
queue qg output
egroup e
body y error
end
body x error
say 9
end
body x lstop
  end
body x lstart
end
body x stop
end
body x start
# fails
fail
end
error
say detail
end
body y receive
end
boot
set v0 0
set v15 18446744073709551615
cell add kind size sub word 3 me
say mul queue core
alloc v0 p cell 7
alloc v1 p and ok fault or detail 1 2 3 4 5 6 7 8 9 10 11 12 13 14 15 16
free xor 1 2
send shr v0 1 qc
sendg lt v0 1 qa e
dequeue v2 qf
enable qa
disable qb
endatomic
endordered
endgroup
apply e 2
apply e 3 note v0 qg note eq v1 2 qf
increment 1
abort e
start x
start x note v0 qg
stop y note 1 qa note 2 qb note 3 qc note 4 qd note 5 qe note 6 qf note 7 qg note 8 qa
modify all 255
modify g 1 note v0 qg
if 1
say 1
else
say 2
end
if 0
end
if 0
else
end
repeat 3
repeat 1
end
if 1
say 3
end
end
end
body x receive
keep me
claim v0
start y
end
done
# last";

#[test]
fn every_form_is_written_and_read_again(rt: HostRuntime) -> Result<(), Fail> {
    for script in [EVERY_FORM, EVERY_FORM_DISORDERED] {
        let text = canonical(rt.alloc(), script.as_bytes()).ok_or("a script")?;
        assert_eq!(rt; text.as_slice(), EVERY_FORM.as_bytes());
    }
    Ok(())
}
