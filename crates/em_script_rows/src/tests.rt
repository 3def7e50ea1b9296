mod bodies;
mod declarations;
mod scripts;
mod statements;

use em_script::{ScriptEnd, parse};
use std::alloc::Global;
use std::process::Abort;
use std::test::*;

/// Nine lines of declarations.
const HEAD: &str =
    "cores 2\npool p 4 2\ngroup g 3\neo x running\neo y\nagroup a g\nqueue q parallel x normal all\nqueue u unscheduled\negroup e\n";

/// The line behind these lines, and the least rule that it breaks; 0 where it breaks none.
type Row = (&'static str, &'static str, u8);

/// What a text is refused by: the line and the rule.
fn refusal(alloc: Global, bytes: &[u8]) -> Option<(u64, u8)> {
    match parse(alloc, bytes) {
        Err(ScriptEnd::Refused { line, rule }) => Some((line, rule)),
        _ => None,
    }
}

/// The number of the last line.
fn line_of(text: &str) -> u64 {
    let mut number: u64 = 1;
    for byte in text.as_bytes() {
        if *byte == b'\n' {
            number = number.saturating_add(1);
        }
    }
    number
}

/// Whether a text whose last line is the one of this number is refused there by the rule. Where the line breaks none,
/// the text is a script, or its end is what it lacks.
fn is_refused(found: Option<(u64, u8)>, line: u64, rule: u8) -> bool {
    match found {
        Some((at, by)) if rule == 0 => at == line.saturating_add(1) && by == 11,
        Some((at, by)) => at == line && by == rule,
        None => rule == 0,
    }
}

/// What the rows are refused by.
fn judge(rt: &impl Abort, alloc: Global, head: &str, rows: &[Row]) -> Result<(), Fail> {
    for (before, line, rule) in rows {
        let text = format!(in alloc; "{head}{before}{line}\n")?;
        let last = line_of(text.as_str()).saturating_sub(1);
        let found = refusal(alloc, text.as_bytes());
        assert!(rt;
            is_refused(found, last, *rule),
            "at {before}{line}: {found:?}"
        );
    }
    Ok(())
}
