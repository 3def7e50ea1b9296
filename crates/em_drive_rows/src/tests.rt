use crate::meeting::Meeting;
use em_desk::Desk;
use em_drive::{in_turns, is_runnable, threads};
use em_log::{EndKind, Gate, Limits, NoGate, NoMemory, What};
use em_script::{ScriptEnd, parse};
use std::alloc::Global;
use std::sync::Wait;
use std::test::*;
use std::thread::Threads;

const ONE_EVENT: &[u8] = b"cores 1
pool p 1 1
eo x running
queue q parallel x normal all
boot
alloc v0 p 7 5
send v0 q
end
body x receive
say word 0
free me
end
done
";

/// The receive of kind 2 frees the handle of the other one.
const HELD_BY_ANOTHER_CORE: &[u8] = b"cores 2
pool p 2 0
eo x running
queue q parallel x normal all
boot
alloc v0 p 1
send v0 q
alloc v0 p 2
send v0 q
end
body x receive
if eq kind 2
free 131072
free me
else
say 1
say 1
say 1
free me
end
end
done
";

const FOUR_CORES: &[u8] = b"cores 4
pool p 4 0
eo x running
queue q parallel x normal all
boot
repeat 4
alloc v0 p 1
send v0 q
end
end
body x receive
free me
end
done
";

/// Each of the three events is sent on once.
const THREE_CORES: &[u8] = b"cores 3
pool p 3 0
eo x running
queue q parallel x normal all
queue r atomic x normal all
boot
repeat 3
alloc v0 p 1
send v0 q
end
end
body x receive
if eq queue 0
send me r
else
free me
end
end
done
";

const LIMITS: Limits = Limits {
    receives: 10,
    burst: 1,
};

/// With a thread for each core, or in turns on one thread.
#[derive(Clone, Copy)]
enum Form {
    Threads,
    Turns,
}

/// Runs the script, which is one that runs. None where it is no such script. Err is want of memory.
fn run<R: Threads + Wait + Sync, G: Gate + Sync>(
    rt: &R,
    alloc: Global,
    script: &[u8],
    form: Form,
    gate: &G,
) -> Result<Option<(Desk, EndKind)>, NoMemory> {
    let graph = match parse(alloc, script) {
        Ok(graph) => graph,
        Err(ScriptEnd::NoMemory) => return Err(NoMemory),
        Err(_) => return Ok(None),
    };
    if !is_runnable(&graph) {
        return Ok(None);
    }
    let ran = match form {
        Form::Threads => threads(rt, alloc, &graph, LIMITS, gate)?,
        Form::Turns => in_turns(rt, alloc, &graph, LIMITS, gate)?,
    };
    Ok(Some(ran))
}

/// How many receives have started, and how many asks were refused.
fn starts_and_faults(desk: &Desk) -> (usize, usize) {
    let log = desk.log();
    let starts = log
        .iter()
        .filter(|entry| matches!(&entry.what, What::Start { .. }))
        .count();
    let faults = log
        .iter()
        .filter(|entry| matches!(&entry.what, What::Fault { .. }))
        .count();
    (starts, faults)
}

#[test]
fn one_core_runs_its_script(rt: HostRuntime) -> Result<(), NoMemory> {
    let Some((desk, EndKind::Quiet)) = run(&rt, rt.alloc(), ONE_EVENT, Form::Threads, &NoGate)?
    else {
        panic!(rt; "it is not quiet")
    };
    let (starts, faults) = starts_and_faults(&desk);
    assert!(rt; starts == 1 && faults == 0);
    Ok(())
}

// Whichever of the two comes first, one refusal follows.
#[test]
fn a_handle_of_another_core_is_refused_in_every_run(rt: HostRuntime) -> Result<(), NoMemory> {
    for _ in 0..20 {
        let Some((desk, EndKind::Quiet)) = run(
            &rt,
            rt.alloc(),
            HELD_BY_ANOTHER_CORE,
            Form::Threads,
            &NoGate,
        )?
        else {
            panic!(rt; "it is not quiet")
        };
        let (starts, faults) = starts_and_faults(&desk);
        assert!(rt; starts == 2 && faults == 1);
    }
    Ok(())
}

#[test]
fn two_receives_of_two_cores_run_at_the_same_time(rt: HostRuntime) -> Result<(), NoMemory> {
    let gate = Meeting::new(2);
    let Some((desk, EndKind::Quiet)) = run(
        &rt,
        rt.alloc(),
        HELD_BY_ANOTHER_CORE,
        Form::Threads,
        &gate,
    )?
    else {
        panic!(rt; "it is not quiet")
    };
    let (starts, faults) = starts_and_faults(&desk);
    let met = gate.was_of(0b11);
    assert!(rt; starts == 2 && faults == 1 && met);
    Ok(())
}

#[test]
fn four_receives_of_four_cores_run_at_the_same_time(rt: HostRuntime) -> Result<(), NoMemory> {
    let gate = Meeting::new(4);
    let Some((desk, EndKind::Quiet)) = run(&rt, rt.alloc(), FOUR_CORES, Form::Threads, &gate)?
    else {
        panic!(rt; "it is not quiet")
    };
    let (starts, faults) = starts_and_faults(&desk);
    let met = gate.was_of(0b1111);
    assert!(rt; starts == 4 && faults == 0 && met);
    Ok(())
}

#[test]
fn three_cores_run_in_turns_on_one_thread(rt: HostRuntime) -> Result<(), NoMemory> {
    let Some((desk, EndKind::Quiet)) = run(&rt, rt.alloc(), THREE_CORES, Form::Turns, &NoGate)?
    else {
        panic!(rt; "it is not quiet")
    };
    let (starts, faults) = starts_and_faults(&desk);
    assert!(rt; starts == 6 && faults == 0);
    Ok(())
}
