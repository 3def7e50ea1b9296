//! A line that is read token by token.
ghost use Rattle.std.specs.Prelude.{◌≡◌, bytes_eq, option_map, ◌≤◌, ◌*◌, ◌-◌, ◌∷◌, ◌+◌, ◌^◌, ◌==◌, IfSome, MatchOption, true, length, [], List, ℕ, position, if◌then◌else◌};
ghost use Rattle.std.specs.Char.{is_ascii_digit};
ghost use Rattle.std.specs.List.{list_all};
ghost use Rattle.em_trace.specs.Form.{Reads, CountIs, read_count, token_at, skip, is_at, is_over, judged, read_number, read_marked, number_of, is_digits, is_well, value};
ghost use Rattle.em_trace.specs.Line.{pieces, pieces_of};
ghost use Rattle.em_trace.specs.Text.{text};
ghost use Rattle.em_trace.specs.Reading.{trace_of};

use std::marker::Model;

pub(crate) fn is(bytes: &[u8], word: &str) -> bool
    ensures { result ≡ bytes_eq bytes.now word.now }
{
    bytes == word.as_bytes()
}

/// Where the first separator is.
fn first(separator: u8, bytes: &[u8]) -> Option<usize>
    ensures { result ≡ position (λ byte. byte == separator) bytes.now }
{
    bytes.iter().position(|byte| *byte == separator)
}

/// The bytes up to the first separator, and those after it. Without a separator, all of them.
pub(crate) fn split(separator: u8, bytes: &[u8]) -> (&[u8], Option<&[u8]>)
    ensures pieces { pieces separator bytes.now ≡ result.0.now ∷ pieces_of separator result.1 }
    ensures shorter { MatchOption result.1 (result.0.now ≡ bytes.now) (λ rest. length bytes.now ≡ length result.0.now + 1 + length rest.now) }
{
    match first(separator, bytes) {
        Some(at) => (&bytes[..at], Some(&bytes[at + 1..])),
        None => (bytes, None),
    }
}

/// What is left of a line.
#[derive(Drop)]
pub(crate) struct Line<'a> {
    bytes: Option<&'a [u8]>,
    well: bool,
}

impl<'a> Model for Line<'a> {
    ghost use Rattle.em_trace.specs.Line.{Rest, rest_of};

    ghost Value = { Rest };

    ghost view = { λ line. rest_of line.bytes line.well };
}

impl<'a> Line<'a> {
    pub(crate) fn new(bytes: &'a [u8]) -> Self
        ensures { result ≡ record { tokens = pieces 32 bytes.now; well = true } }
    {
        Line {
            bytes: Some(bytes),
            well: true,
        }
    }

    /// Whether each number so far was spelled well and in its range.
    pub(crate) fn is_well(&self) -> bool
        ensures { result ≡ self.now.well }
    {
        self.well
    }

    pub(crate) fn judge(&mut self, good: bool)
        ensures { self.new ≡ judged good self.old }
    {
        self.well = self.well && good;
    }

    #[tactic(auto, unfolding(crate::specs::Form::token_at))]
    pub(crate) fn token(&mut self) -> Option<&'a [u8]>
        ensures { Reads (option_map (λ token. token.now) result) self.new (token_at self.old) }
    {
        match self.bytes {
            None => None,
            Some(bytes) => {
                let (token, rest) = split(b' ', bytes);
                self.bytes = rest;
                Some(token)
            }
        }
    }

    /// Whether no token is left.
    #[tactic(auto, unfolding(crate::specs::Form::is_over), using(crate::proofs::Pieces::has_none_pieces))]
    pub(crate) fn is_over(&self) -> bool
        ensures { result ≡ is_over self.now }
    {
        self.bytes.is_none()
    }

    /// Takes the next token where it is this word.
    #[tactic(auto, unfolding(crate::specs::Form::is_at, crate::specs::Form::skip))]
    pub(crate) fn word(&mut self, word: &str) -> bool
        ensures at { result ≡ is_at word.now self.old }
        ensures rest { self.new ≡ (if result then skip self.old else self.old) }
    {
        let Some(bytes) = self.bytes else {
            return false;
        };
        let (token, rest) = split(b' ', bytes);
        if token == word.as_bytes() {
            self.bytes = rest;
            return true;
        }
        false
    }

    /// The number of a token of digits; 0 where it is spelled badly or above `max`.
    #[tactic(auto, unfolding(crate::specs::Form::number_of))]
    pub(crate) fn number_of(&mut self, token: &[u8], max: u64) -> Option<u64>
        ensures read { Reads result self.new (number_of max token.now self.old) }
        ensures fits { IfSome result (λ n. n ≤ max) }
    {
        if !is_digits(token) {
            return None;
        }
        let number = well_number(token, max);
        self.judge(number.is_some());
        Some(number.unwrap_or(0))
    }

    #[tactic(auto, unfolding(crate::specs::Form::read_number))]
    pub(crate) fn number(&mut self, max: u64) -> Option<u64>
        ensures read { Reads result self.new (read_number max self.old) }
        ensures fits { IfSome result (λ n. n ≤ max) }
    {
        let token = self.token()?;
        self.number_of(token, max)
    }

    /// A number behind a letter.
    /// The number of a token of digits, judged as a count of at most `max`. None where it is no such token, or where the
    /// number is greater than that of the tokens behind it.
    #[tactic(auto, unfolding(crate::specs::Form::read_count, crate::specs::Form::is_well), using(crate::proofs::Pieces::length_pieces))]
    pub(crate) fn count(&mut self, max: u64) -> Option<u64>
        ensures { CountIs result self.new (read_count max self.old) }
    {
        let token = self.token()?;
        let most = self.bytes.map_or(0, |bytes| bytes.len() + 1);
        if !is_digits(token) {
            return None;
        }
        match value(token) {
            Some(count) if count <= most as u64 => {
                self.judge(well_number(token, max).is_some());
                Some(count)
            }
            _ => None,
        }
    }

    #[tactic(auto, unfolding(crate::specs::Form::read_marked))]
    pub(crate) fn marked(&mut self, mark: u8, max: u64) -> Option<u64>
        ensures read { Reads result self.new (read_marked mark max self.old) }
        ensures fits { IfSome result (λ n. n ≤ max) }
    {
        match self.token()? {
            [first, digits @ ..] if *first == mark => self.number_of(digits, max),
            _ => None,
        }
    }
}

fn are_digits(bytes: &[u8]) -> bool
    ensures { result ≡ list_all is_ascii_digit bytes.now }
{
    bytes.iter().all(|byte| byte.is_ascii_digit())
}

#[tactic(auto, unfolding(crate::specs::Form::is_digits))]
fn is_digits(token: &[u8]) -> bool
    ensures { result ≡ is_digits token.now }
{
    !token.is_empty() && are_digits(token)
}

/// A number with one more digit, where it is below 2^64.
fn appended(number: u64, digit: u8) -> Option<u64>
    ensures { MatchOption result (2 ^ 64 ≤ 10 * number + (digit - 48)) (λ n. n ≡ 10 * number + (digit - 48)) }
{
    match number.checked_mul(10) {
        Some(tens) => tens.checked_add(u64::from(digit.saturating_sub(b'0'))),
        None => None,
    }
}

/// The number that digits spell, where it is below 2^64.
#[tactic(auto, unfolding(crate::specs::Form::value), using(crate::proofs::Digits::value_from_more, crate::proofs::Digits::value_from_large))]
fn value(digits: &[u8]) -> Option<u64>
    ensures { MatchOption result (2 ^ 64 ≤ value digits.now) (λ n. n ≡ value digits.now) }
{
    let mut number: u64 = 0;
    for digit in digits {
        match appended(number, *digit) {
            Some(more) => number = more,
            None => return None,
        }
    }
    Some(number)
}

/// The number that digits spell, where they have no leading zero and it is at most `max`.
#[tactic(auto, unfolding(crate::specs::Form::is_well))]
fn well_number(digits: &[u8], max: u64) -> Option<u64>
    ensures well { result ≡ (if is_well max digits.now then Some (value digits.now) else None) }
    ensures fits { IfSome result (λ n. n ≤ max) }
{
    if digits.len() > 1 && digits[0] == b'0' {
        return None;
    }
    let number = value(digits)?;
    if number <= max { Some(number) } else { None }
}
