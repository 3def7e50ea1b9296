//! Words that are commands, and devices that fail.
use super::plain;
use em_io::{MemSink, MemSource, SureSink, SureSource};
use em_tool::command;
use std::test::*;

#[test]
fn commands_are_known(rt: HostRuntime) -> Result<(), Fail> {
    let alloc = rt.alloc();
    for (text, known) in [
        ("check", true),
        ("check 10", false),
        ("Check", false),
        ("solo", false),
        ("solo 10 1 0", true),
        ("solo 10000 1 63,0", true),
        ("solo 10 1", false),
        ("solo 0 1 0", false),
        ("solo 10001 1 0", false),
        ("solo 010 1 0", false),
        ("solo +10 1 0", false),
        ("solo 10 2 0", false),
        ("solo 10 1 0,0", false),
        ("solo 10 1 64", false),
        ("solo 10 1 0,", false),
        ("-h", false),
        ("", false),
    ] {
        let mut words = Vec::new(alloc);
        for word in text.split(' ') {
            words.push(word.to_string(alloc)?)?;
        }
        assert_eq!(rt; command(alloc, &words)?.is_some(), known, "{text}");
    }
    Ok(())
}

#[test]
fn a_failed_write_writes_nothing_more(rt: HostRuntime) -> Result<(), Fail> {
    let alloc = rt.alloc();
    for words in ["solo 10 1 0", "check", "-h"] {
        let mut source = SureSource::new(Vec::new(alloc));
        let mut sink = MemSink::new(alloc, vec![in alloc; 0]?);
        let answer = plain(alloc, words, &mut source, &mut sink)?;
        assert_eq!(rt; answer, 1, "{words}");
        assert!(rt; sink.bytes().is_empty(), "{words}");
    }
    Ok(())
}

#[test]
fn a_failed_read_is_told(rt: HostRuntime) -> Result<(), Fail> {
    let alloc = rt.alloc();
    for call in [0, 1] {
        let bytes = b"# a comment\n".to_vec(alloc)?;
        let mut source = MemSource::new(bytes, vec![in alloc; call]?);
        let mut sink = SureSink::new(alloc);
        let answer = plain(alloc, "check", &mut source, &mut sink)?;
        assert_eq!(rt; answer, 5, "{call}");
        assert_eq!(rt; sink.bytes(), b"read failed\n".as_slice(), "{call}");
    }
    Ok(())
}
