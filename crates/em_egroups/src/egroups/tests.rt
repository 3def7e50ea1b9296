ghost use Rattle.std.specs.Prelude.{◌≡◌, ◌<◌, true, length, IfOk};
ghost use Rattle.em_egroups.specs.State.{group_at, has_current};

use super::EventGroups;
use crate::group::Counted;
use em_log::{
    Config, Decl, EventGroupId, Fault, List, Name, NoMemory, Note, Notes, QueueId, Stamp,
};
use std::alloc::Global;
use std::process::Abort;

/// A graph of one core and two event groups.
fn graph(alloc: Global) -> Result<Config, NoMemory>
    ensures { IfOk result (λ g. length g.egroups ≡ 2) }
{
    let mut egroups = List::new(alloc);
    egroups.push(Name::new("e").ok_or(NoMemory)?)?;
    egroups.push(Name::new("f").ok_or(NoMemory)?)?;
    let mut order = List::new(alloc);
    order.push(Decl::Egroup(0))?;
    order.push(Decl::Egroup(1))?;
    Ok(Config {
        cores: 1,
        order,
        pools: List::new(alloc),
        groups: List::new(alloc),
        eos: List::new(alloc),
        agroups: List::new(alloc),
        queues: List::new(alloc),
        egroups,
        boot: List::new(alloc),
        error: None,
    })
}

/// What counting down answers, with the word of the first note.
#[derive(Clone, Copy, Debug, PartialEq, Eq)]
enum Told {
    Stale,
    Still(u32),
    Zero(u64),
}

/// A call, and what it has to answer.
#[derive(Drop)]
enum Call {
    Check(u8, u64, Result<(), Fault>),
    /// An apply with this count and one note of this word, and its application.
    Apply(u8, u64, u64, u32),
    CanStamp(u8, Result<(), Fault>),
    Stamp(u8, Result<Stamp, Fault>),
    IsCurrent(Stamp, bool),
    Increment(Stamp, u64, Result<(), Fault>),
    CountDown(Stamp, Told),
    /// The word of the first note that comes back.
    Abort(u8, Result<u64, Fault>),
}

fn stamp(group: u8, app: u32) -> Stamp {
    Stamp {
        group: EventGroupId(group),
        app,
    }
}

fn idle(group: u8) -> Fault {
    Fault::GroupIdle(EventGroupId(group))
}

fn one_note(word: u64) -> Notes {
    let mut notes = Notes::new();
    notes.push(Note {
        word,
        queue: QueueId(0),
    });
    notes
}

fn first_word(notes: &Notes) -> u64 {
    match notes.as_slice().first() {
        Some(note) => note.word,
        None => 0,
    }
}

fn told_by(counted: Counted) -> Told {
    match counted {
        Counted::Stale => Told::Stale,
        Counted::Still(count) => Told::Still(count),
        Counted::Zero(notes) => Told::Zero(first_word(&notes)),
    }
}

fn applies(rt: &impl Abort, groups: &mut EventGroups, group: u8, count: u64, word: u64, app: u32)
    requires { group < length groups.old }
    ensures { length groups.new ≡ length groups.old }
{
    assert!(rt; groups.check_apply(EventGroupId(group), count).is_ok());
    assert!(rt; groups.groups[usize::from(group)].applications < 1000);
    assert_eq!(rt;
        groups.apply(EventGroupId(group), count, one_note(word)),
        app
    );
}

fn counts_down(rt: &impl Abort, groups: &mut EventGroups, stamp: Stamp, expected: Told)
    requires { stamp.group.0 < length groups.old }
    ensures { length groups.new ≡ length groups.old }
{
    let group = &groups.groups[usize::from(stamp.group.0)];
    assert!(rt; group.left < group.members || !group.has_current(stamp.app));
    assert_eq!(rt; told_by(groups.count_down(stamp)), expected);
}

fn answers(rt: &impl Abort, groups: &mut EventGroups, call: &Call)
    requires { length groups.old ≡ 2 }
    ensures { length groups.new ≡ length groups.old }
{
    match call {
        Call::Check(group, count, expected) => {
            assert!(rt; *group < 2);
            assert_eq!(rt; groups.check_apply(EventGroupId(*group), *count), *expected);
        }
        Call::Apply(group, count, word, app) => {
            assert!(rt; *group < 2);
            applies(rt, groups, *group, *count, *word, *app);
        }
        Call::CanStamp(group, expected) => {
            assert!(rt; *group < 2);
            assert_eq!(rt; groups.can_stamp(EventGroupId(*group)), *expected);
        }
        Call::Stamp(group, expected) => {
            assert!(rt; *group < 2);
            assert_eq!(rt; groups.stamp(EventGroupId(*group)), *expected);
        }
        Call::IsCurrent(stamp, expected) => {
            assert!(rt; stamp.group.0 < 2);
            assert_eq!(rt; groups.is_current(*stamp), *expected);
        }
        Call::Increment(stamp, n, expected) => {
            assert!(rt; stamp.group.0 < 2);
            assert_eq!(rt; groups.increment(*stamp, *n), *expected);
        }
        Call::CountDown(stamp, expected) => {
            assert!(rt; stamp.group.0 < 2);
            counts_down(rt, groups, *stamp, *expected);
        }
        Call::Abort(group, expected) => {
            assert!(rt; *group < 2);
            let word = groups
                .abort(EventGroupId(*group))
                .map(|notes| first_word(&notes));
            assert_eq!(rt; word, *expected);
        }
    }
}

fn all_answer(rt: &impl Abort, alloc: Global, calls: &[Call]) -> Result<(), NoMemory> {
    let mut groups = EventGroups::build(alloc, &graph(alloc)?)?;
    for call in calls {
        answers(rt, &mut groups, call);
    }
    Ok(())
}

#[test]
fn the_life_of_a_group(rt: HostRuntime) -> Result<(), NoMemory> {
    let calls = [
        Call::Check(0, 0, Err(Fault::BadCount(0))),
        Call::Check(0, 4294967296, Err(Fault::BadCount(0))),
        Call::CanStamp(0, Err(idle(0))),
        Call::Stamp(0, Err(idle(0))),
        Call::Abort(0, Err(idle(0))),
        Call::Apply(0, 2, 70, 1),
        Call::CanStamp(0, Ok(())),
        Call::Stamp(0, Ok(stamp(0, 1))),
        Call::Stamp(0, Ok(stamp(0, 1))),
        Call::CanStamp(0, Err(Fault::BadCount(2))),
        Call::Stamp(0, Err(Fault::BadCount(2))),
        Call::CountDown(stamp(0, 1), Told::Still(1)),
        Call::Check(0, 1, Err(Fault::GroupBusy(1))),
        Call::Increment(stamp(0, 1), 0, Err(Fault::BadCount(2))),
        Call::Increment(stamp(0, 1), 4294967294, Err(Fault::BadCount(2))),
        Call::Increment(stamp(0, 1), 4294967293, Ok(())),
        Call::Check(0, 1, Err(Fault::GroupBusy(4294967294))),
        Call::Stamp(0, Ok(stamp(0, 1))),
        Call::CanStamp(1, Err(idle(1))),
        // The application is given up, and its members count nothing for the next one.
        Call::Abort(0, Ok(70)),
        Call::Abort(0, Err(idle(0))),
        Call::IsCurrent(stamp(0, 1), false),
        Call::Increment(stamp(0, 1), 1, Err(idle(0))),
        Call::Apply(0, 1, 80, 2),
        Call::Stamp(0, Ok(stamp(0, 2))),
        Call::CountDown(stamp(0, 1), Told::Stale),
        Call::Check(0, 1, Err(Fault::GroupBusy(1))),
        Call::IsCurrent(stamp(0, 2), true),
        Call::CountDown(stamp(0, 2), Told::Zero(80)),
        Call::IsCurrent(stamp(0, 2), false),
        Call::CountDown(stamp(0, 2), Told::Stale),
        Call::Abort(0, Err(idle(0))),
        Call::Check(0, 4294967295, Ok(())),
        // What leaves before its application has come counts nothing, then and later.
        Call::CountDown(stamp(0, 3), Told::Stale),
        Call::Apply(0, 1, 90, 3),
        Call::Check(0, 1, Err(Fault::GroupBusy(1))),
        // A total of one lets a second member in once one is added.
        Call::Apply(1, 1, 60, 1),
        Call::Stamp(1, Ok(stamp(1, 1))),
        Call::Stamp(1, Err(Fault::BadCount(1))),
        Call::Increment(stamp(1, 1), 1, Ok(())),
        Call::Stamp(1, Ok(stamp(1, 1))),
        Call::CountDown(stamp(1, 1), Told::Still(1)),
        Call::CountDown(stamp(1, 1), Told::Zero(60)),
        Call::CountDown(stamp(1, 1), Told::Stale),
    ];
    all_answer(&rt, rt.alloc(), calls.as_slice())
}
