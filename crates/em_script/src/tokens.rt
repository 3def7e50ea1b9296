//! The tokens of a line, read from left to right.
ghost use Rattle.std.specs.Prelude.{◌≡◌, ◌≢◌, ◌<◌, ◌^◌, [], ◌∷◌, bytes_eq, IfErr, IfSome, IfNone, length, not, position, slice_index, ◌==◌, if◌then◌else◌};
ghost use Rattle.em_script.specs.Lines.{tokens, rest_of};
ghost use Rattle.em_script.specs.Form.{ReadsBy, Ends, token_at, is_at, is_over, is_followed, skip, judged};

use em_log::NoMemory;
use std::marker::Model;

/// Why nothing was read: the tokens do not have the form, or memory ran out.
#[derive(Clone, Copy, Debug, PartialEq, Eq)]
pub(crate) enum Stop {
    NoForm,
    NoMemory,
}

impl From<NoMemory> for Stop {
    ghost use Rattle.std.specs.Prelude.{◌≡◌};
    ghost use Rattle.em_script.specs.declared.tokens.Stop.TheVariants as stops;

    ghost from_gives = { λ _ stop. stop ≡ stops.NoMemory };

    fn from(_: NoMemory) -> Stop {
        Stop::NoMemory
    }
}

/// Whether the token is this word.
pub(crate) fn is(token: &[u8], word: &str) -> bool
    ensures { result ≡ bytes_eq token.now word.now }
{
    token == word.as_bytes()
}

/// Where the first space is.
fn first_space(bytes: &[u8]) -> Option<usize>
    ensures { result ≡ position (λ byte. byte == 32) bytes.now }
{
    bytes.iter().position(|byte| *byte == b' ')
}

/// Where the first byte is that is no space.
fn first_visible(bytes: &[u8]) -> Option<usize>
    ensures { result ≡ position (λ byte. not (byte == 32)) bytes.now }
{
    bytes.iter().position(|byte| *byte != b' ')
}

/// The bytes from the first token on.
fn from_token(bytes: &[u8]) -> Option<&[u8]>
    ensures same { IfSome result (λ rest. tokens rest.now ≡ tokens bytes.now) }
    ensures some { IfSome result (λ rest. 0 < length rest.now) }
    ensures first { IfSome result (λ rest. slice_index rest.now 0 ≢ 32) }
    ensures none { IfNone result (tokens bytes.now ≡ []) }
{
    match first_visible(bytes) {
        Some(at) => Some(&bytes[at..]),
        None => None,
    }
}

/// The bytes up to the first space, and the bytes from there on.
fn cut_token(bytes: &[u8]) -> (&[u8], &[u8])
    requires some { 0 < length bytes.now }
    requires first { slice_index bytes.now 0 ≢ 32 }
    ensures { tokens bytes.now ≡ result.0.now ∷ tokens result.1.now }
{
    match first_space(bytes) {
        Some(at) => (&bytes[..at], &bytes[at..]),
        None => (bytes, &bytes[bytes.len()..]),
    }
}

/// The first token, and the bytes behind it.
fn first_token(bytes: &[u8]) -> Option<(&[u8], &[u8])>
    ensures some { IfSome result (λ cut. tokens bytes.now ≡ cut.0.now ∷ tokens cut.1.now) }
    ensures none { IfNone result (tokens bytes.now ≡ []) }
{
    let rest = from_token(bytes)?;
    Some(cut_token(rest))
}

/// What is left of a line: its tokens, and the least rule that failed in it so far, or 12.
#[derive(Drop)]
pub(crate) struct Tokens<'a> {
    bytes: &'a [u8],
    rule: u8,
}

impl<'a> Model for Tokens<'a> {
    ghost use Rattle.em_script.specs.Lines.{Rest, rest_of};

    ghost Value = { Rest };

    ghost view = { λ line. rest_of line.bytes.now line.rule };
}

impl<'a> Tokens<'a> {
    /// A line of which nothing has been read.
    pub(crate) fn new(bytes: &'a [u8]) -> Self
        ensures { result ≡ rest_of bytes.now 12 }
    {
        Tokens { bytes, rule: 12 }
    }

    /// The least rule that failed so far, or 12.
    pub(crate) fn rule(&self) -> u8
        ensures { result ≡ self.now.rule }
    {
        self.rule
    }

    /// Takes note whether a rule is met.
    pub(crate) fn judge(&mut self, rule: u8, good: bool)
        ensures { self.new ≡ judged rule good self.old }
    {
        if !good {
            self.rule = self.rule.min(rule);
        }
    }

    /// The next token. There are fewer tokens than bytes in memory.
    #[tactic(auto, unfolding(crate::specs::Form::token_at), using(crate::proofs::TokenCounts::tokens_few))]
    pub(crate) fn token(&mut self) -> Result<&'a [u8], Stop>
        ensures read { ReadsBy (λ token. token.now) result self.new (token_at self.old) }
        ensures err { IfErr result (λ stop. stop ≡ Stop.NoForm) }
        ensures few { length self.old.tokens < 2 ^ 63 }
    {
        match first_token(self.bytes) {
            Some((token, rest)) => {
                self.bytes = rest;
                Ok(token)
            }
            None => Err(Stop::NoForm),
        }
    }

    /// Whether no token is left.
    #[tactic(auto, unfolding(crate::specs::Form::is_over))]
    pub(crate) fn is_over(&self) -> bool
        ensures { result ≡ is_over self.now }
    {
        first_token(self.bytes).is_none()
    }

    /// The end of the line.
    pub(crate) fn end(&self) -> Result<(), Stop>
        ensures { Ends result (is_over self.now) }
    {
        if self.is_over() {
            Ok(())
        } else {
            Err(Stop::NoForm)
        }
    }

    /// Takes the next token where it is this word.
    #[tactic(auto, unfolding(crate::specs::Form::is_at, crate::specs::Form::skip))]
    pub(crate) fn word(&mut self, word: &str) -> bool
        ensures at { result ≡ is_at word.now self.old }
        ensures rest { self.new ≡ (if result then skip self.old else self.old) }
    {
        match first_token(self.bytes) {
            Some((token, rest)) if token == word.as_bytes() => {
                self.bytes = rest;
                true
            }
            _ => false,
        }
    }

    /// Whether the next token is this word and another one follows.
    #[tactic(auto, unfolding(crate::specs::Form::is_followed, crate::specs::Form::is_at, crate::specs::Form::is_over, crate::specs::Form::skip))]
    pub(crate) fn is_followed(&self, word: &str) -> bool
        ensures { result ≡ is_followed word.now self.now }
    {
        match first_token(self.bytes) {
            Some((token, rest)) => token == word.as_bytes() && first_token(rest).is_some(),
            None => false,
        }
    }
}
