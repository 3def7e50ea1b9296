ghost use Rattle.std.specs.Prelude.{◌≡◌, ◌+◌, ◌<◌, ◌≤◌, ◌∷◌, [], length, IfOk};
ghost use Rattle.em_log.specs.Declarations.{event_total, declarations_of};

use crate::{Place, Pools, Spend};
use em_log::{
    Config, CoreId, Decl, EoId, Fault, Handle, List, Name, NoMemory, PoolDecl, PoolId, QueueId,
    Words,
};
use std::alloc::Global;
use std::process::Abort;

/// A graph of one pool.
fn graph(alloc: Global, events: u16, words: u8) -> Result<Config, NoMemory>
    ensures { IfOk result (λ g. (declarations_of g).pools ≡ record { events = events; words = words } ∷ []) }
{
    let mut pools = List::new(alloc);
    pools.push(PoolDecl {
        name: Name::new("p").ok_or(NoMemory)?,
        events,
        words,
    })?;
    let mut order = List::new(alloc);
    order.push(Decl::Pool(0))?;
    Ok(Config {
        cores: 2,
        order,
        pools,
        groups: List::new(alloc),
        eos: List::new(alloc),
        agroups: List::new(alloc),
        queues: List::new(alloc),
        egroups: List::new(alloc),
        boot: List::new(alloc),
        error: None,
    })
}

/// A call, and what it has to answer.
#[derive(Drop)]
enum Call {
    /// An alloc of this kind with this many words.
    Alloc(u8, u32, u8, Result<Handle, Fault>),
    Rule(u8, u64, Result<(), Fault>),
    Spend(u8, u64, Spend, u64),
    Shift(u16, Place),
    /// A minting of this index, and the handle and the kind of its event.
    Mint(u8, u16, u64, u32),
    Lose(u8, u64, u32),
    Place(u16, Place),
}

fn numbered(count: u8) -> Words
    requires { count ≤ 16 }
{
    let mut words = Words::new();
    for i in 0..count {
        words.push(u64::from(i));
    }
    words
}

fn alloc_answers(
    rt: &impl Abort,
    pools: &mut Pools,
    core: u8,
    kind: u32,
    words: Words,
    expected: Result<Handle, Fault>,
) -> Result<(), NoMemory>
    requires some { 0 < length pools.old.pools }
    requires few { pools.old.mintings < 1000 }
    ensures pools { pools.new.pools ≡ pools.old.pools }
    ensures mintings { pools.new.mintings ≤ pools.old.mintings + 1 }
{
    pools.reserve(1)?;
    assert_eq!(rt; pools.alloc(CoreId(core), PoolId(0), kind, words), expected);
    Ok(())
}

fn mint_answers(
    rt: &impl Abort,
    pools: &mut Pools,
    core: u8,
    index: u16,
    handle: u64,
    kind: u32,
) -> Result<(), NoMemory>
    requires index { index < event_total pools.old.pools }
    requires few { pools.old.mintings < 1000 }
    ensures pools { pools.new.pools ≡ pools.old.pools }
    ensures mintings { pools.new.mintings ≤ pools.old.mintings + 1 }
{
    pools.reserve(1)?;
    let place = pools.place(index);
    assert!(rt; matches!(place, Place::Kept(_) | Place::Waiting(_) | Place::Taken(_)));
    let event = pools.mint(CoreId(core), index);
    assert_eq!(rt; event.handle, Handle(handle));
    assert_eq!(rt; event.kind, kind);
    Ok(())
}

fn shifts(rt: &impl Abort, pools: &mut Pools, index: u16, to: Place)
    requires index { index < event_total pools.old.pools }
    ensures pools { pools.new.pools ≡ pools.old.pools }
    ensures mintings { pools.new.mintings ≡ pools.old.mintings }
{
    let place = pools.place(index);
    assert!(rt; !matches!(place, Place::Free | Place::Held(_)));
    assert!(rt;
        matches!(
            to,
            Place::Free | Place::Waiting(_) | Place::Taken(_) | Place::Lost
        )
    );
    pools.shift(index, to);
    assert_eq!(rt; pools.place(index), to);
}

fn spends(rt: &impl Abort, pools: &mut Pools, core: u8, word: u64, how: Spend, place: u64)
    ensures pools { pools.new.pools ≡ pools.old.pools }
    ensures mintings { pools.new.mintings ≡ pools.old.mintings }
{
    assert_eq!(rt; pools.rule(CoreId(core), word), Ok(()));
    pools.spend(CoreId(core), word, how, place);
}

fn answers(rt: &impl Abort, pools: &mut Pools, events: u16, call: &Call) -> Result<(), NoMemory>
    requires some { 0 < length pools.old.pools }
    requires events { events ≡ event_total pools.old.pools }
    requires few { pools.old.mintings < 1000 }
    ensures pools { pools.new.pools ≡ pools.old.pools }
    ensures mintings { pools.new.mintings ≤ pools.old.mintings + 1 }
{
    match call {
        Call::Alloc(core, kind, words, expected) => {
            assert!(rt; *words <= 16);
            alloc_answers(rt, pools, *core, *kind, numbered(*words), *expected)?;
        }
        Call::Rule(core, word, expected) => {
            assert_eq!(rt; pools.rule(CoreId(*core), *word), *expected);
        }
        Call::Spend(core, word, how, place) => spends(rt, pools, *core, *word, *how, *place),
        Call::Shift(index, to) => {
            assert!(rt; *index < events);
            shifts(rt, pools, *index, *to);
        }
        Call::Mint(core, index, handle, kind) => {
            assert!(rt; *index < events);
            mint_answers(rt, pools, *core, *index, *handle, *kind)?;
        }
        Call::Lose(core, place, count) => {
            assert_eq!(rt; pools.lose(CoreId(*core), *place), *count);
        }
        Call::Place(index, place) => {
            assert!(rt; *index < events);
            assert_eq!(rt; pools.place(*index), *place);
        }
    }
    Ok(())
}

fn all_answer(
    rt: &impl Abort,
    alloc: Global,
    events: u16,
    words: u8,
    calls: &[Call],
) -> Result<(), NoMemory>
    requires few { events ≤ 4096 }
    requires short { length calls.now < 100 }
{
    let mut pools = Pools::build(alloc, &graph(alloc, events, words)?)?;
    for call in calls {
        answers(rt, &mut pools, events, call)?;
    }
    Ok(())
}

#[test]
fn words_that_were_never_minted(rt: HostRuntime) -> Result<(), NoMemory> {
    let pools = Pools::build(rt.alloc(), &graph(rt.alloc(), 4096, 0)?)?;
    for word in [0, 1, 65535, 65536, 0x1_0000_0000, u64::MAX] {
        assert_eq!(rt; pools.rule(CoreId(0), word), Err(Fault::NeverMinted(word)));
    }
    Ok(())
}

#[test]
fn an_event_that_another_core_holds(rt: HostRuntime) -> Result<(), NoMemory> {
    let calls = [
        Call::Alloc(0, 1, 0, Ok(Handle(65536))),
        Call::Spend(0, 65536, Spend::Sent(QueueId(0)), 2),
        Call::Alloc(0, 2, 0, Ok(Handle(65537))),
        Call::Spend(0, 65537, Spend::Sent(QueueId(0)), 4),
        Call::Lose(0, 5, 0),
        Call::Shift(0, Place::Taken(CoreId(1))),
        Call::Mint(1, 0, 131072, 1),
        Call::Shift(1, Place::Taken(CoreId(0))),
        Call::Mint(0, 1, 131073, 2),
        Call::Rule(0, 131072, Err(Fault::HeldElsewhere(CoreId(1)))),
        Call::Spend(0, 131073, Spend::Freed, 13),
        Call::Lose(0, 15, 0),
        Call::Spend(1, 131072, Spend::Freed, 16),
        Call::Lose(1, 17, 0),
    ];
    all_answer(&rt, rt.alloc(), 2, 0, calls.as_slice())
}

#[test]
fn an_event_kept_and_claimed(rt: HostRuntime) -> Result<(), NoMemory> {
    let calls = [
        Call::Alloc(0, 4, 0, Ok(Handle(65536))),
        Call::Spend(0, 65536, Spend::Sent(QueueId(0)), 2),
        Call::Lose(0, 3, 0),
        Call::Shift(0, Place::Taken(CoreId(0))),
        Call::Mint(0, 0, 131072, 4),
        Call::Spend(0, 131072, Spend::Kept(EoId(0)), 6),
        Call::Place(0, Place::Kept(EoId(0))),
        Call::Mint(0, 0, 196608, 4),
        Call::Rule(0, 131072, Err(Fault::SpentBySend(6))),
        Call::Spend(0, 196608, Spend::Freed, 10),
        Call::Lose(0, 11, 0),
    ];
    all_answer(&rt, rt.alloc(), 4, 1, calls.as_slice())
}

#[test]
fn an_event_sent_twice(rt: HostRuntime) -> Result<(), NoMemory> {
    let calls = [
        Call::Alloc(0, 0, 0, Ok(Handle(65536))),
        Call::Spend(0, 65536, Spend::Sent(QueueId(0)), 2),
        Call::Rule(0, 65536, Err(Fault::SpentBySend(2))),
        Call::Lose(0, 4, 0),
        Call::Shift(0, Place::Taken(CoreId(0))),
        Call::Mint(0, 0, 131072, 0),
        Call::Spend(0, 131072, Spend::Freed, 7),
        Call::Lose(0, 8, 0),
    ];
    all_answer(&rt, rt.alloc(), 4, 1, calls.as_slice())
}

#[test]
fn an_event_freed_twice(rt: HostRuntime) -> Result<(), NoMemory> {
    let calls = [
        Call::Alloc(0, 0, 0, Ok(Handle(65536))),
        Call::Spend(0, 65536, Spend::Freed, 2),
        Call::Alloc(0, 0, 0, Ok(Handle(131072))),
        Call::Rule(0, 65536, Err(Fault::SpentByFree(2))),
        Call::Spend(0, 131072, Spend::Freed, 5),
        Call::Lose(0, 6, 0),
    ];
    all_answer(&rt, rt.alloc(), 4, 1, calls.as_slice())
}

#[test]
fn a_pool_that_is_empty(rt: HostRuntime) -> Result<(), NoMemory> {
    let calls = [
        Call::Alloc(0, 0, 0, Ok(Handle(65536))),
        Call::Alloc(0, 0, 0, Err(Fault::PoolEmpty(1))),
        Call::Spend(0, 65536, Spend::Freed, 3),
        Call::Alloc(0, 0, 0, Ok(Handle(131072))),
        Call::Lose(0, 5, 1),
    ];
    all_answer(&rt, rt.alloc(), 1, 0, calls.as_slice())
}

#[test]
fn what_an_end_loses(rt: HostRuntime) -> Result<(), NoMemory> {
    let calls = [
        Call::Alloc(0, 0, 0, Ok(Handle(65536))),
        Call::Alloc(0, 0, 0, Ok(Handle(65537))),
        Call::Alloc(1, 0, 0, Ok(Handle(65538))),
        Call::Alloc(0, 0, 0, Ok(Handle(65539))),
        Call::Spend(0, 65537, Spend::Freed, 5),
        Call::Lose(0, 6, 2),
        Call::Place(0, Place::Lost),
        Call::Place(1, Place::Free),
        Call::Place(2, Place::Held(CoreId(1))),
        Call::Place(3, Place::Lost),
        Call::Lose(0, 7, 0),
        Call::Rule(0, 65539, Err(Fault::SpentByFree(6))),
        Call::Lose(1, 8, 1),
        Call::Place(2, Place::Lost),
    ];
    all_answer(&rt, rt.alloc(), 4, 0, calls.as_slice())
}

/// A core that the graph does not have.
#[test]
fn an_end_of_another_core(rt: HostRuntime) -> Result<(), NoMemory> {
    let calls = [
        Call::Alloc(0, 0, 0, Ok(Handle(65536))),
        Call::Alloc(2, 0, 0, Ok(Handle(65537))),
        Call::Alloc(2, 0, 0, Ok(Handle(65538))),
        Call::Spend(2, 65537, Spend::Sent(QueueId(0)), 4),
        Call::Lose(2, 5, 1),
        Call::Place(0, Place::Held(CoreId(0))),
        Call::Place(1, Place::Waiting(QueueId(0))),
        Call::Place(2, Place::Lost),
    ];
    all_answer(&rt, rt.alloc(), 4, 0, calls.as_slice())
}

#[test]
fn an_event_of_too_many_words(rt: HostRuntime) -> Result<(), NoMemory> {
    let calls = [
        Call::Alloc(0, 0, 2, Err(Fault::BadSize(1))),
        Call::Alloc(0, 0, 0, Ok(Handle(65536))),
    ];
    all_answer(&rt, rt.alloc(), 2, 1, calls.as_slice())
}

#[test]
fn room_is_made(rt: HostRuntime) -> Result<(), NoMemory> {
    let mut pools = Pools::build(rt.alloc(), &graph(rt.alloc(), 4, 1)?)?;
    assert_eq!(rt; pools.spare(), 0);
    pools.reserve(1000)?;
    assert!(rt; pools.spare() >= 1000);
    Ok(())
}
