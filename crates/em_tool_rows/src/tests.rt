mod devices;
mod forms;
mod gates;
mod runs;
mod writes;

use em_io::{Sink, Source, SureSink, SureSource};
use em_tool::{Gate, NoGate, em_plain};
use std::alloc::Global;
use std::process::Abort;
use std::test::*;

/// The words, the script, the status, and the whole text that is written.
type Row = (&'static str, &'static str, u8, &'static str);

/// What `em_plain` answers to these words.
fn plain_at<S: Source, K: Sink, G: Gate>(
    alloc: Global,
    words: &str,
    source: &mut S,
    sink: &mut K,
    gate: &G,
) -> Result<u8, Fail> {
    let mut list = Vec::new(alloc);
    for word in words.split_whitespace() {
        list.push(word.to_string(alloc)?)?;
    }
    Ok(em_plain(alloc, list.as_slice(), source, sink, gate))
}

/// What it answers without a gate.
fn plain<S: Source, K: Sink>(
    alloc: Global,
    words: &str,
    source: &mut S,
    sink: &mut K,
) -> Result<u8, Fail> {
    plain_at(alloc, words, source, sink, &NoGate)
}

/// The status of a call, and what it writes.
fn call(alloc: Global, words: &str, script: Vec<u8>) -> Result<(u8, Vec<u8>), Fail> {
    let mut source = SureSource::new(script);
    let mut sink = SureSink::new(alloc);
    let status = plain(alloc, words, &mut source, &mut sink)?;
    Ok((status, sink.bytes().to_vec(alloc)?))
}

/// Calls with these words and this script, and looks at the status and at the whole text.
fn judge(
    rt: &impl Abort,
    alloc: Global,
    words: &str,
    script: Vec<u8>,
    status: u8,
    text: &str,
) -> Result<(), Fail> {
    let (found, written) = call(alloc, words, script)?;
    assert_eq!(rt; found, status, "{words}, {text}");
    assert_eq!(rt; written.as_slice(), text.as_bytes(), "{words}, {text}");
    Ok(())
}

fn judge_rows(rt: &impl Abort, alloc: Global, rows: &[Row]) -> Result<(), Fail> {
    for (words, script, status, text) in rows {
        let bytes = script.as_bytes().to_vec(alloc)?;
        judge(rt, alloc, words, bytes, *status, text)?;
    }
    Ok(())
}

const ONE_EVENT: &str =
    "cores 1\npool p 1 1\neo x running\nqueue q parallel x normal all\nboot\nalloc v0 p 7 5\nsend v0 q\nend\nbody x receive\nsay word 0\nfree me\nend\ndone\n";

const ONE_EVENT_RUN: &str =
    "trace 1\n0 c0 enter boot\n1 c0 alloc p0 65536 kind 7 words 1 5\n2 c0 send 65536 q0\n3 c0 end lost 0\n4 c0 take q0 1\n5 c0 start q0 131072 kind 7 words 1 5\n6 c0 say 5\n7 c0 free 131072\n8 c0 end lost 0\nquiet\n";

const WORDS_NOT_KNOWN: [Row; 18] = [
    ("solo 10 1", ONE_EVENT, 2, "words not known\n"),
    ("solo 0 1 0", ONE_EVENT, 2, "words not known\n"),
    ("solo 10 1 0,0", ONE_EVENT, 2, "words not known\n"),
    ("solo 010 1 0", ONE_EVENT, 2, "words not known\n"),
    ("-h", ONE_EVENT, 2, "words not known\n"),
    ("", ONE_EVENT, 2, "words not known\n"),
    ("check check", "", 2, "words not known\n"),
    ("help", ONE_EVENT, 2, "words not known\n"),
    ("check x", ONE_EVENT, 2, "words not known\n"),
    ("solo help 1 0", ONE_EVENT, 2, "words not known\n"),
    ("solo 10 1 0 0", ONE_EVENT, 2, "words not known\n"),
    ("--help", ONE_EVENT, 2, "words not known\n"),
    ("solo 10 1 -0", ONE_EVENT, 2, "words not known\n"),
    ("run 10", ONE_EVENT, 2, "words not known\n"),
    ("run 10 1 0", ONE_EVENT, 2, "words not known\n"),
    ("gen 0", ONE_EVENT, 2, "words not known\n"),
    ("gen 41", ONE_EVENT, 2, "words not known\n"),
    ("gen 01", ONE_EVENT, 2, "words not known\n"),
];

const RUNS: [Row; 8] = [
    ("solo 10 1 0", ONE_EVENT, 0, ONE_EVENT_RUN),
    ("solo 1 1 0", ONE_EVENT, 0, ONE_EVENT_RUN),
    (
        "solo 10 1 0",
        "cores 1\npool p 4 1\neo x running\nqueue q parallel x normal all\nboot\nalloc v0 p 0\nfree v0\nalloc v1 p 0\nfree v0\nfree v1\nend\nbody x receive\nfree me\nend\ndone\n",
        0,
        "trace 1\n0 c0 enter boot\n1 c0 alloc p0 65536 kind 0 words 0\n2 c0 free 65536\n3 c0 alloc p0 131072 kind 0 words 0\n4 c0 fault free 3 2 global\n5 c0 free 131072\n6 c0 end lost 0\nquiet\n",
    ),
    (
        "solo 10 1 0",
        "cores 1\npool p 4 1\neo x running\nqueue q parallel x normal all\nboot\nalloc v0 p 4\nsend v0 q\nend\nbody x receive\nkeep me\nclaim v0\nclaim v1\nfree me\nfree v0\nend\ndone\n",
        0,
        "trace 1\n0 c0 enter boot\n1 c0 alloc p0 65536 kind 4 words 0\n2 c0 send 65536 q0\n3 c0 end lost 0\n4 c0 take q0 1\n5 c0 start q0 131072 kind 4 words 0\n6 c0 keep 131072\n7 c0 claim 196608 kind 4 words 0\n8 c0 claim none\n9 c0 fault free 2 6 o0\n10 c0 free 196608\n11 c0 end lost 0\nquiet\n",
    ),
    (
        "solo 3 1 0",
        "cores 1\npool p 4 1\neo x running\nqueue q parallel x normal all\nboot\nalloc v0 p 0\nsend v0 q\nend\nbody x receive\nsend me q\nend\ndone\n",
        3,
        "trace 1\n0 c0 enter boot\n1 c0 alloc p0 65536 kind 0 words 0\n2 c0 send 65536 q0\n3 c0 end lost 0\n4 c0 take q0 1\n5 c0 start q0 131072 kind 0 words 0\n6 c0 send 131072 q0\n7 c0 end lost 0\n8 c0 take q0 1\n9 c0 start q0 196608 kind 0 words 0\n10 c0 send 196608 q0\n11 c0 end lost 0\n12 c0 take q0 1\n13 c0 start q0 262144 kind 0 words 0\n14 c0 send 262144 q0\n15 c0 end lost 0\nlimit\n",
    ),
    (
        "solo 10 1 0",
        "cores 1\nboot\nend\ndone\n",
        0,
        "trace 1\n0 c0 enter boot\n1 c0 end lost 0\nquiet\n",
    ),
    (
        "solo 10 1 0",
        "cores 1\npool p 1 0\nboot\nalloc v0 p 0\nalloc v1 p 0\nfree v0\nalloc v1 p 0\nend\ndone\n",
        0,
        "trace 1\n0 c0 enter boot\n1 c0 alloc p0 65536 kind 0 words 0\n2 c0 fault alloc 15 1 global\n3 c0 free 65536\n4 c0 alloc p0 131072 kind 0 words 0\n5 c0 end lost 1\nquiet\n",
    ),
    (
        "solo 10 1 0",
        "cores 1\npool p 4 1\neo x running\nqueue q parallel x normal all\nboot\nalloc v0 p 0\nsend v0 q\nsend v0 q\nend\nbody x receive\nfree me\nend\ndone\n",
        0,
        "trace 1\n0 c0 enter boot\n1 c0 alloc p0 65536 kind 0 words 0\n2 c0 send 65536 q0\n3 c0 fault send 2 2 global\n4 c0 end lost 0\n5 c0 take q0 1\n6 c0 start q0 131072 kind 0 words 0\n7 c0 free 131072\n8 c0 end lost 0\nquiet\n",
    ),
];

const CHECKS: [Row; 2] = [
    (
        "check",
        "# one\ncores 1\n\nboot\n  end\ndone\n",
        0,
        "cores 1\nboot\nend\ndone\n",
    ),
    (
        "check",
        "cores 1\nboot\nrepeat 256\nsay 1\nend\nend\ndone\n",
        0,
        "cores 1\nboot\nrepeat 256\nsay 1\nend\nend\ndone\n",
    ),
];

const REFUSALS: [Row; 16] = [
    (
        "solo 10 1 0",
        "cores 1\npool p 1 0\nbo",
        4,
        "refused line 3 rule 2\n",
    ),
    ("solo 10 1 0", "", 4, "refused line 1 rule 11\n"),
    ("check", "", 4, "refused line 1 rule 11\n"),
    (
        "check",
        "cores\t1\nboot\nend\ndone\n",
        4,
        "refused line 1 rule 1\n",
    ),
    (
        "check",
        "cores 1\nboot\nend\nboot\n",
        4,
        "refused line 4 rule 8\n",
    ),
    (
        "check",
        "cores 1\nboot\nclaim v0\n",
        4,
        "refused line 3 rule 7\n",
    ),
    ("check", "cores 9\n", 4, "refused line 1 rule 6\n"),
    (
        "check",
        "cores 1\npool p 1 0\neo p\n",
        4,
        "refused line 3 rule 4\n",
    ),
    (
        "check",
        "cores 1\nboot\nalloc v0 p 0\n",
        4,
        "refused line 3 rule 5\n",
    ),
    (
        "check",
        "cores 1\npool p0 1 0\npool p1 1 0\npool p2 1 0\npool p3 1 0\npool p4 1 0\npool p5 1 0\npool p6 1 0\npool p7 1 0\npool p8 1 0\n",
        4,
        "refused line 10 rule 10\n",
    ),
    ("check", "cores 1\ndone\n", 4, "refused line 2 rule 11\n"),
    (
        "check",
        "cores 1\nboot\nsay 18446744073709551616\n",
        4,
        "refused line 3 rule 6\n",
    ),
    (
        "check",
        "cores 1\npool end 1 0\n",
        4,
        "refused line 2 rule 3\n",
    ),
    (
        "check",
        "cores 1\nboot\nrepeat 256\nrepeat 256\nset v0 1\nend\nend\nend\ndone\n",
        4,
        "refused line 9 rule 9\n",
    ),
    (
        "check",
        "cores 1\nboot\nfrob\nend\ndone\n",
        4,
        "refused line 3 rule 2\n",
    ),
    (
        "check",
        "cores 1\nboot\nrepeat 256\nsay 1\nsay 1\nend\nend\ndone\n",
        4,
        "refused line 8 rule 9\n",
    ),
];

#[test]
fn rows(rt: HostRuntime) -> Result<(), Fail> {
    let alloc = rt.alloc();
    judge_rows(&rt, alloc, &WORDS_NOT_KNOWN)?;
    judge_rows(&rt, alloc, &RUNS)?;
    judge_rows(&rt, alloc, &CHECKS)?;
    judge_rows(&rt, alloc, &REFUSALS)
}

#[test]
fn the_longest_inputs(rt: HostRuntime) -> Result<(), Fail> {
    let alloc = rt.alloc();
    for words in ["solo 10 1 0", "check"] {
        for (length, status, text) in [
            (65536, 4, "refused line 2 rule 11\n"),
            (65537, 6, "input too long\n"),
        ] {
            let bytes = vec![in alloc; b'#'; length]?;
            judge(&rt, alloc, words, bytes, status, text)?;
        }
    }
    Ok(())
}
