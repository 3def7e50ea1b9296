//! Numbers in decimal digits.
ghost use Rattle.std.specs.Prelude.{◌≡◌, ◌≤◌, ◌*◌, ◌-◌, ◌+◌, ◌^◌, IfOk, IfSome, MatchOption, Some, None, if◌then◌else◌};
ghost use Rattle.std.specs.Char.{is_ascii_digit};
ghost use Rattle.std.specs.List.{list_all};
ghost use Rattle.em_script.specs.Numerals.{value, is_digits, is_within};
ghost use Rattle.em_script.specs.Form.{Reads, number_of, read_number, variable, variable_of};

use crate::tokens::{Stop, Tokens};

fn are_digits(bytes: &[u8]) -> bool
    ensures { result ≡ list_all is_ascii_digit bytes.now }
{
    bytes.iter().all(|byte| byte.is_ascii_digit())
}

#[tactic(auto, unfolding(crate::specs::Numerals::is_digits))]
pub(crate) fn is_digits(token: &[u8]) -> bool
    ensures { result ≡ is_digits token.now }
{
    !token.is_empty() && are_digits(token)
}

/// A number with one more digit, where it is below 2^64.
fn appended(number: u64, digit: u8) -> Option<u64>
    ensures { MatchOption result (2 ^ 64 ≤ 10 * number + (digit - 48)) (λ n. n ≡ 10 * number + (digit - 48)) }
{
    match number.checked_mul(10) {
        Some(tens) => tens.checked_add(u64::from(digit.saturating_sub(b'0'))),
        None => None,
    }
}

/// The number that digits spell, where it is below 2^64.
#[tactic(auto, unfolding(crate::specs::Numerals::value), using(crate::proofs::Digits::value_from_more, crate::proofs::Digits::value_from_large))]
fn value(digits: &[u8]) -> Option<u64>
    ensures { MatchOption result (2 ^ 64 ≤ value digits.now) (λ n. n ≡ value digits.now) }
{
    let mut number: u64 = 0;
    for digit in digits {
        match appended(number, *digit) {
            Some(more) => number = more,
            None => return None,
        }
    }
    Some(number)
}

/// The number that digits spell, where they have no leading zero and it is from `low` to `high`.
#[tactic(auto, unfolding(crate::specs::Numerals::is_within))]
pub(crate) fn within(low: u64, high: u64, digits: &[u8]) -> Option<u64>
    ensures within { result ≡ (if is_within low high digits.now then Some (value digits.now) else None) }
    ensures fits { IfSome result (λ n. n ≤ high) }
{
    if digits.len() > 1 && digits[0] == b'0' {
        return None;
    }
    let number = value(digits)?;
    if low <= number && number <= high {
        Some(number)
    } else {
        None
    }
}

/// The number of a token of digits; 0 where it is spelled badly or out of its range.
#[tactic(auto, unfolding(crate::specs::Form::number_of))]
fn number_of(line: &mut Tokens, low: u64, high: u64, token: &[u8]) -> Result<u64, Stop>
    ensures read { Reads result line.new (number_of low high token.now line.old) }
    ensures fits { IfOk result (λ n. n ≤ high) }
{
    if !is_digits(token) {
        return Err(Stop::NoForm);
    }
    let number = within(low, high, token);
    line.judge(6, number.is_some());
    Ok(number.unwrap_or(0))
}

/// A number from `low` to `high`.
#[tactic(auto, unfolding(crate::specs::Form::read_number))]
pub(crate) fn number(line: &mut Tokens, low: u64, high: u64) -> Result<u64, Stop>
    ensures read { Reads result line.new (read_number low high line.old) }
    ensures fits { IfOk result (λ n. n ≤ high) }
{
    let token = line.token()?;
    number_of(line, low, high, token)
}

/// The number of the variable that the token is.
pub(crate) fn variable_of(token: &[u8]) -> Option<u8>
    ensures value { result ≡ variable_of token.now }
    ensures fits { IfSome result (λ v. v ≤ 15) }
{
    match token {
        [b'v', digits @ ..] if is_digits(digits) => {
            let number = within(0, 15, digits)?;
            Some(number as u8)
        }
        _ => None,
    }
}

/// A variable.
pub(crate) fn variable(line: &mut Tokens) -> Result<u8, Stop>
    ensures { Reads result line.new (variable.read line.old) }
{
    let token = line.token()?;
    match variable_of(token) {
        Some(v) => Ok(v),
        None => Err(Stop::NoForm),
    }
}
