//! Numbers in decimal digits, with no sign and no leading zero.
ghost use Rattle.std.specs.Prelude.{◌≡◌, ◌<◌, ◌^◌, ℕ, List as Items, IfOk, IfSome};
ghost use Rattle.std.specs.Fmt.{decimal};
ghost use Rattle.std.specs.Option.{option_map};
ghost use Rattle.em_tool.specs.Decimal.{AreNumbers, spelled};
ghost use Rattle.em_tool.specs.Fields.{cut};

use em_log::{List, NoMemory};
use std::alloc::Global;

/// The number that the whole text spells.
pub fn number(text: &str) -> Option<u64>
    ensures spelled { IfSome result (λ n. text.now ≡ decimal n) }
    ensures read { (n : ℕ) → n < 2 ^ 64 → text.now ≡ decimal n → result ≡ Some n }
    ensures fits { IfSome result (λ n. n < 2 ^ 64) }
{
    let bytes = text.as_bytes();
    if bytes.is_empty() {
        return None;
    }
    let first = bytes[0];
    if first == b'+' {
        return None;
    }
    if first == b'0' {
        if bytes.len() > 1 {
            return None;
        }
    }
    text.parse().ok()
}

/// The part before the first `end`, and what follows it.
fn cut(end: char, text: &str) -> Option<(&str, &str)>
    requires { end < 128 }
    ensures { option_map (λ parts. (parts.0.now, parts.1.now)) result ≡ cut end text.now }
{
    text.split_once(end)
}

/// The numbers that the text spells, with the separator between each two.
pub fn numbers(alloc: Global, text: &str, separator: char) -> Result<Option<List<u64>>, NoMemory>
    requires { separator < 48 }
    ensures spelled { IfOk result (λ found. IfSome found (λ numbers. AreNumbers numbers × (text.now ≡ spelled separator numbers))) }
    ensures read { (numbers : Items ℕ) → AreNumbers numbers → text.now ≡ spelled separator numbers → IfOk result (λ found. found ≡ Some numbers) }
{
    let mut numbers = List::new(alloc);
    let mut rest = text;
    loop {
        match cut(separator, rest) {
            Some((first, after)) => {
                let Some(n) = number(first) else {
                    return Ok(None);
                };
                numbers.push(n)?;
                rest = after;
            }
            None => {
                let Some(n) = number(rest) else {
                    return Ok(None);
                };
                numbers.push(n)?;
                return Ok(Some(numbers));
            }
        }
    }
}
