//! Scripts of generated graphs.
use crate::generated;
use std::test::*;

const ONE: &str = "\
cores 4
pool p 64 1
eo x0
queue q0 atomic x0 normal all
queue o output
boot
start x0
repeat 40
alloc v0 p 0 6
send v0 q0
end
end
body x0 receive
if eq word 0 0
send me o
else
alloc v0 p 0 sub word 0 1
free me
send v0 q0
end
end
done
";

const THREE: &str = "\
cores 4
pool p 64 1
eo x0
eo x1
eo x2
queue q0 atomic x0 normal all
queue q1 parallel x1 normal all
queue q2 ordered x2 normal all
queue o output
boot
start x0
start x1
start x2
repeat 40
alloc v0 p 0 6
send v0 q0
end
end
body x0 receive
if eq word 0 0
send me o
else
alloc v0 p 0 sub word 0 1
free me
send v0 q1
end
end
body x1 receive
send me q2
end
body x2 receive
send me q0
end
done
";

#[test]
fn one_object_sends_to_itself(rt: HostRuntime) -> Result<(), Fail> {
    let text = generated(rt.alloc(), 1)?;
    assert_eq!(rt; text.as_slice(), ONE.as_bytes());
    Ok(())
}

#[test]
fn three_objects_have_queues_of_three_kinds(rt: HostRuntime) -> Result<(), Fail> {
    let text = generated(rt.alloc(), 3)?;
    assert_eq!(rt; text.as_slice(), THREE.as_bytes());
    Ok(())
}

#[test]
fn the_last_of_forty_objects_closes_the_ring(rt: HostRuntime) -> Result<(), Fail> {
    let text = generated(rt.alloc(), 40)?;
    assert!(rt;
        text.as_slice()
            .ends_with(b"body x39 receive\nsend me q0\nend\ndone\n")
    );
    Ok(())
}
