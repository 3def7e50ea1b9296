//! Reads scripts of so many bytes: their sizes as a table, or, with a number of bytes, the nanoseconds that readings took.
#![tactic(auto)]

use em_script::parse;
use std::alloc::Global;
use std::env;
use std::time::Instant;

const LEAST: usize = 1_024;

const MOST: usize = 65_536;

/// About how many nanoseconds are timed together.
const NANOSECONDS: u128 = 200_000_000;

/// How often they are timed; the best counts.
const RUNS: u32 = 7;

const HEAD: &str = "cores 1\n# a pool\npool p 8 4\n";

const TAIL: &str = "done\n";

/// The bodies of an object.
const PLACES: [&str; 6] = ["receive", "start", "stop", "lstart", "lstop", "error"];

/// The lines of a body, without its first.
const STATEMENTS: &str =
    "# what it does\nset v0 add word 0 mul v1 3\nif lt v0 1000\nsay xor v0 kind\nelse\nrepeat 4\nset v2 add v2 size\nend\nend\nalloc v3 p 7 v0 12\nsend v3 q0\nend\n";

/// The lines of the boot body that fill a script up.
const FILLER: &str = "set v0 add v0 1\n";

/// The declarations that come before one body of an object: none but before its first.
fn declared(alloc: Global, number: usize) -> Option<String> {
    if number % 6 != 0 {
        return Some(String::new(alloc));
    }
    let object = number / 6;
    format!(in alloc; "eo x{object}\nqueue q{object} parallel x{object} normal all\n").ok()
}

/// One body of an object.
fn body(alloc: Global, number: usize) -> Option<String> {
    let object = number / 6;
    let place = PLACES[number % 6];
    format!(in alloc; "body x{object} {place}\n{STATEMENTS}").ok()
}

fn add(bytes: &mut Vec<u8>, text: &str) -> Option<()> {
    bytes.extend_from_slice(text.as_bytes()).ok()
}

/// Declarations of objects and their queues, and then their bodies, in at most so many bytes.
fn objects(alloc: Global, room: usize) -> Option<Vec<u8>> {
    let mut bytes = Vec::new(alloc);
    let mut bodies = Vec::new(alloc);
    add(&mut bytes, HEAD)?;
    for number in 0..384 {
        let declared = declared(alloc, number)?;
        let body = body(alloc, number)?;
        let more = declared.as_str().len().saturating_add(body.as_str().len());
        if bytes
            .len()
            .saturating_add(bodies.len())
            .saturating_add(more)
            > room
        {
            break;
        }
        add(&mut bytes, declared.as_str())?;
        add(&mut bodies, body.as_str())?;
    }
    bytes.extend_from_slice(bodies.as_slice()).ok()?;
    Some(bytes)
}

/// A script of exactly this many bytes: bodies of objects, then the boot body of whole lines, and a comment for the rest.
fn script(alloc: Global, size: usize) -> Option<Vec<u8>> {
    // what stands behind the bodies of objects is at least `boot`, `end`, a comment and the last line
    let room = size.checked_sub(64)?;
    let mut bytes = objects(alloc, room)?;
    add(&mut bytes, "boot\n")?;
    for _ in 0..MOST {
        if bytes.len().saturating_add(FILLER.len()) > room {
            break;
        }
        add(&mut bytes, FILLER)?;
    }
    add(&mut bytes, "end\n#")?;
    let comment_end = size.saturating_sub(TAIL.len()).saturating_sub(1);
    for _ in 0..MOST {
        if bytes.len() >= comment_end {
            break;
        }
        add(&mut bytes, "#")?;
    }
    add(&mut bytes, "\n")?;
    add(&mut bytes, TAIL)?;
    Some(bytes)
}

/// The nanoseconds of the fastest run, and how many bytes it read.
fn timed(rt: &HostRuntime, bytes: &[u8]) -> anyhow::Result<(u128, u128)> {
    let alloc = rt.alloc();
    let mut best = (u128::MAX, 1);
    for _ in 0..RUNS {
        let mut read = 0_u128;
        let mut nanoseconds = 0;
        let start = Instant::now(rt)?;
        for _ in 0..1_000_000 {
            if parse(alloc, bytes).is_err() {
                return Ok((0, 1));
            }
            read = read.saturating_add(bytes.len() as u128);
            nanoseconds = start.elapsed(rt)?.as_nanos();
            if nanoseconds >= NANOSECONDS {
                break;
            }
        }
        if nanoseconds.saturating_mul(best.1) < best.0.saturating_mul(read) {
            best = (nanoseconds, read);
        }
    }
    Ok(best)
}

fn main(rt: HostRuntime) -> anyhow::Result<()> {
    let alloc = rt.alloc();
    if let Some(word) = env::args(&rt)?.nth(1) {
        let size = word.as_str().parse::<usize>().unwrap_or(0);
        if size < LEAST || size > MOST {
            println!(rt; "usage: script_bench [{LEAST} to {MOST}]")?;
            return Ok(());
        }
        if let Some(bytes) = script(alloc, size) {
            let (nanoseconds, read) = timed(&rt, bytes.as_slice())?;
            println!(rt; "{size} {nanoseconds} {read}")?;
        }
        return Ok(());
    }
    for size in [1_024, 4_096, 16_384, 65_536] {
        match script(alloc, size) {
            Some(bytes) => match parse(alloc, bytes.as_slice()) {
                Ok(_) => println!(rt; "{} bytes are a script", bytes.len())?,
                Err(end) => println!(rt; "{} bytes: {end}", bytes.len())?,
            },
            None => println!(rt; "{size} bytes: out of memory")?,
        }
    }
    Ok(())
}
