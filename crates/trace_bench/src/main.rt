//! Writes a history of so many entries into memory and reads it back: the sizes as a table, or, with a number, the nanoseconds
//! for traces of so many entries. A second number is how many entries the history has of which they are parts.
#![tactic(auto)]

use em_io::SureSink;
use em_log::{CoreId, EndKind, Entry, Event, Handle, List, NoMemory, PoolId, QueueId, What, Words};
use em_trace::{read_history, write_history};
use std::alloc::Global;
use std::env;
use std::time::Instant;

/// Four entries in turn: an event is made, started and freed, and a context ends. All numbers but the place are equally
/// long, so that lines of a long history are no longer than those of a short one but for it.
fn entry(turn: u64) -> Entry {
    let mut words = Words::new();
    words.push(1_000 + turn % 1_000);
    let handle = 65_536 + turn % 4_096;
    let event = Event {
        handle: Handle(handle),
        kind: 7,
        words,
    };
    let what = match turn % 4 {
        0 => What::Alloc {
            pool: PoolId(0),
            event,
        },
        1 => What::Start {
            queue: QueueId(1),
            event,
            stamp: None,
        },
        2 => What::Free(Handle(handle)),
        _ => What::End {
            lost: 0,
            cells: None,
        },
    };
    Entry {
        core: CoreId(0),
        what,
    }
}

fn history(alloc: Global, count: u64) -> Result<List<Entry>, NoMemory> {
    let mut entries = List::new(alloc);
    for turn in 0..count {
        entries.push(entry(turn))?;
    }
    Ok(entries)
}

fn size(alloc: Global, count: u64) -> Option<(usize, usize)> {
    let entries = history(alloc, count).ok()?;
    let mut sink = SureSink::new(alloc);
    write_history(&mut sink, entries.as_slice(), EndKind::Quiet).ok()?;
    let trace = read_history(alloc, sink.bytes()).ok()?;
    Some((sink.bytes().len(), trace.entries.as_slice().len()))
}

/// How many entries are written and read in each measurement, as traces of the size that is asked for.
const ENTRIES: u64 = 100_000;

/// How often a size is measured; the best counts.
const RUNS: u32 = 7;

/// The nanoseconds that it takes to write this history and to read it back, if there is memory.
fn round(rt: &HostRuntime, entries: &[Entry]) -> anyhow::Result<Option<(u128, u128)>> {
    let alloc = rt.alloc();
    let mut sink = SureSink::new(alloc);
    let start = Instant::now(rt)?;
    let is_written = write_history(&mut sink, entries, EndKind::Quiet).is_ok();
    let writing = start.elapsed(rt)?.as_nanos();
    let start = Instant::now(rt)?;
    let is_read = read_history(alloc, sink.bytes()).is_ok();
    let reading = start.elapsed(rt)?.as_nanos();
    Ok(if is_written && is_read {
        Some((writing, reading))
    } else {
        None
    })
}

/// Prints the nanoseconds for traces of `count` entries: parts of one history of `held` entries, over and over.
fn timed(rt: &HostRuntime, count: u64, held: u64) -> anyhow::Result<()> {
    let Ok(entries) = history(rt.alloc(), held) else {
        return Ok(());
    };
    let (mut writing, mut reading) = (u128::MAX, u128::MAX);
    for _ in 0..RUNS {
        let (mut writes, mut reads) = (0_u128, 0_u128);
        for _ in 0..ENTRIES / held.max(1) {
            for part in entries.as_slice().chunks((count as usize).max(1)) {
                let Some((write, read)) = round(rt, part)? else {
                    return Ok(());
                };
                writes = writes.saturating_add(write);
                reads = reads.saturating_add(read);
            }
        }
        writing = writing.min(writes);
        reading = reading.min(reads);
    }
    println!(rt; "{count} {writing} {reading}")?;
    Ok(())
}

fn main(rt: HostRuntime) -> anyhow::Result<()> {
    let mut words = env::args(&rt)?.skip(1);
    if let Some(word) = words.next() {
        if let Ok(count) = word.as_str().parse::<u64>() {
            let held = words
                .next()
                .and_then(|word| word.as_str().parse::<u64>().ok());
            timed(&rt, count, held.unwrap_or(ENTRIES))?;
        }
        return Ok(());
    }
    for count in [1_000, 10_000, 100_000] {
        match size(rt.alloc(), count) {
            Some((bytes, read)) => println!(rt; "{count} entries, {bytes} bytes, {read} read")?,
            None => println!(rt; "{count} entries: out of memory")?,
        }
    }
    Ok(())
}
