use crate::boot::{build_boot, close_alone, end_alone, halt_alone, take_alone};
use crate::laws::{keeps_laws, receives};
use crate::runs::{build, run};
use crate::threads::Plan;
use em_log::{Answer, Context, NoMemory};
use std::test::*;

const TURNS: Plan = Plan::Takes(1000);

#[test]
fn boot_alone_is_done_and_quiet(rt: HostRuntime) -> Result<(), NoMemory> {
    let (board, mut pass, passes) = build_boot(rt.alloc())?;
    let Answer::Context(Context::Boot) = take_alone(&rt, &board, &mut pass)? else {
        panic!(rt; "boot does not begin")
    };
    let done = end_alone(&rt, &board, &mut pass);
    assert!(rt; matches!(done, Answer::Done));
    let Answer::Quiet = take_alone(&rt, &board, &mut pass)? else {
        panic!(rt; "it is not quiet")
    };
    halt_alone(&rt, &board, &mut pass);
    let Answer::Halted = take_alone(&rt, &board, &mut pass)? else {
        panic!(rt; "it is not halted")
    };
    let entries = close_alone(board, pass, passes);
    assert_eq!(rt; entries, 2);
    Ok(())
}

#[test]
fn a_board_has_a_pass_for_each_core(rt: HostRuntime) -> Result<(), NoMemory> {
    let (_, mut passes) = build(rt.alloc(), 4)?;
    for _ in 0..4 {
        let pass = passes.pop();
        assert!(rt; pass.is_some());
    }
    let pass = passes.pop();
    assert!(rt; pass.is_none());
    Ok(())
}

#[test]
fn two_threads_keep_the_laws(rt: HostRuntime) -> Result<(), NoMemory> {
    let (desk, halted) = run(&rt, rt.alloc(), 2, TURNS, TURNS)?;
    let lawful = keeps_laws(rt.alloc(), desk.log())?;
    assert!(rt; lawful && !halted);
    let received = receives(desk.log());
    assert!(rt; received >= 999);
    Ok(())
}

#[test]
fn four_threads_keep_the_laws(rt: HostRuntime) -> Result<(), NoMemory> {
    let (desk, halted) = run(&rt, rt.alloc(), 4, TURNS, TURNS)?;
    let lawful = keeps_laws(rt.alloc(), desk.log())?;
    assert!(rt; lawful && !halted);
    let received = receives(desk.log());
    assert!(rt; received >= 999);
    Ok(())
}

// The other cores go on until they are told.
#[test]
fn a_halt_ends_every_core(rt: HostRuntime) -> Result<(), NoMemory> {
    let last = Plan::TakesAndHalts(100);
    let (desk, halted) = run(&rt, rt.alloc(), 4, last, Plan::UntilHalted)?;
    let lawful = keeps_laws(rt.alloc(), desk.log())?;
    assert!(rt; lawful && halted);
    Ok(())
}
