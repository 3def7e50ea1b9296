//! The words with which lines begin, and the words of a table.
ghost use Rattle.std.specs.Prelude.{◌≡◌};
ghost use Rattle.em_script.specs.Form.{Reads, lookup};
ghost use Rattle.em_script.specs.Words.{top_words, body_words, later_words, priority_words, part_words, kind_words, top_word, body_word, priority, part, kind};

use crate::line::Part;
use crate::tokens::{Stop, Tokens, is};
use em_log::{Kind, Priority};

/// The first word of a line outside bodies.
#[derive(Clone, Copy, Debug, PartialEq, Eq)]
pub enum TopWord {
    Cores,
    Pool,
    Group,
    Eo,
    Agroup,
    Queue,
    Egroup,
    Boot,
    Error,
    Body,
    Done,
}

/// The first word of a line in a body.
#[derive(Clone, Copy, Debug, PartialEq, Eq)]
pub enum BodyWord {
    Set,
    If,
    Else,
    End,
    Repeat,
    Cell,
    Say,
    Alloc,
    Free,
    Keep,
    Send,
    SendG,
    Claim,
    Dequeue,
    Enable,
    Disable,
    EndAtomic,
    EndOrdered,
    EndGroup,
    Apply,
    Increment,
    Abort,
    Start,
    Stop,
    Modify,
    Fail,
}

/// The word that the token is.
fn top_word_of(token: &[u8]) -> Option<TopWord>
    ensures { result ≡ lookup token.now top_words }
{
    if is(token, "cores") {
        return Some(TopWord::Cores);
    }
    if is(token, "pool") {
        return Some(TopWord::Pool);
    }
    if is(token, "group") {
        return Some(TopWord::Group);
    }
    if is(token, "eo") {
        return Some(TopWord::Eo);
    }
    if is(token, "agroup") {
        return Some(TopWord::Agroup);
    }
    if is(token, "queue") {
        return Some(TopWord::Queue);
    }
    if is(token, "egroup") {
        return Some(TopWord::Egroup);
    }
    if is(token, "boot") {
        return Some(TopWord::Boot);
    }
    if is(token, "error") {
        return Some(TopWord::Error);
    }
    if is(token, "body") {
        return Some(TopWord::Body);
    }
    if is(token, "done") {
        return Some(TopWord::Done);
    }
    None
}

/// The word that the token is.
fn body_word_of(token: &[u8]) -> Option<BodyWord>
    ensures { result ≡ lookup token.now body_words }
{
    if is(token, "set") {
        return Some(BodyWord::Set);
    }
    if is(token, "if") {
        return Some(BodyWord::If);
    }
    if is(token, "else") {
        return Some(BodyWord::Else);
    }
    if is(token, "end") {
        return Some(BodyWord::End);
    }
    if is(token, "repeat") {
        return Some(BodyWord::Repeat);
    }
    if is(token, "cell") {
        return Some(BodyWord::Cell);
    }
    if is(token, "say") {
        return Some(BodyWord::Say);
    }
    if is(token, "alloc") {
        return Some(BodyWord::Alloc);
    }
    if is(token, "free") {
        return Some(BodyWord::Free);
    }
    if is(token, "keep") {
        return Some(BodyWord::Keep);
    }
    if is(token, "send") {
        return Some(BodyWord::Send);
    }
    if is(token, "sendg") {
        return Some(BodyWord::SendG);
    }
    if is(token, "claim") {
        return Some(BodyWord::Claim);
    }
    later_word_of(token)
}

/// The second half of the words.
fn later_word_of(token: &[u8]) -> Option<BodyWord>
    ensures { result ≡ lookup token.now later_words }
{
    if is(token, "dequeue") {
        return Some(BodyWord::Dequeue);
    }
    if is(token, "enable") {
        return Some(BodyWord::Enable);
    }
    if is(token, "disable") {
        return Some(BodyWord::Disable);
    }
    if is(token, "endatomic") {
        return Some(BodyWord::EndAtomic);
    }
    if is(token, "endordered") {
        return Some(BodyWord::EndOrdered);
    }
    if is(token, "endgroup") {
        return Some(BodyWord::EndGroup);
    }
    if is(token, "apply") {
        return Some(BodyWord::Apply);
    }
    if is(token, "increment") {
        return Some(BodyWord::Increment);
    }
    if is(token, "abort") {
        return Some(BodyWord::Abort);
    }
    if is(token, "start") {
        return Some(BodyWord::Start);
    }
    if is(token, "stop") {
        return Some(BodyWord::Stop);
    }
    if is(token, "modify") {
        return Some(BodyWord::Modify);
    }
    if is(token, "fail") {
        return Some(BodyWord::Fail);
    }
    None
}

/// The priority that the token names.
fn priority_of(token: &[u8]) -> Option<Priority>
    ensures { result ≡ lookup token.now priority_words }
{
    if is(token, "lowest") {
        return Some(Priority::Lowest);
    }
    if is(token, "low") {
        return Some(Priority::Low);
    }
    if is(token, "normal") {
        return Some(Priority::Normal);
    }
    if is(token, "high") {
        return Some(Priority::High);
    }
    if is(token, "highest") {
        return Some(Priority::Highest);
    }
    None
}

/// The body of an object that the token names.
fn part_of(token: &[u8]) -> Option<Part>
    ensures { result ≡ lookup token.now part_words }
{
    if is(token, "receive") {
        return Some(Part::Receive);
    }
    if is(token, "start") {
        return Some(Part::Start);
    }
    if is(token, "stop") {
        return Some(Part::Stop);
    }
    if is(token, "lstart") {
        return Some(Part::LocalStart);
    }
    if is(token, "lstop") {
        return Some(Part::LocalStop);
    }
    if is(token, "error") {
        return Some(Part::Error);
    }
    None
}

/// The first word of a line outside bodies.
pub(crate) fn top_word(line: &mut Tokens) -> Result<TopWord, Stop>
    ensures { Reads result line.new (top_word.read line.old) }
{
    let token = line.token()?;
    match top_word_of(token) {
        Some(found) => Ok(found),
        None => Err(Stop::NoForm),
    }
}

/// The first word of a line in a body.
pub(crate) fn body_word(line: &mut Tokens) -> Result<BodyWord, Stop>
    ensures { Reads result line.new (body_word.read line.old) }
{
    let token = line.token()?;
    match body_word_of(token) {
        Some(found) => Ok(found),
        None => Err(Stop::NoForm),
    }
}

/// A priority.
pub(crate) fn priority(line: &mut Tokens) -> Result<Priority, Stop>
    ensures { Reads result line.new (priority.read line.old) }
{
    let token = line.token()?;
    match priority_of(token) {
        Some(found) => Ok(found),
        None => Err(Stop::NoForm),
    }
}

/// The body of an object.
pub(crate) fn part(line: &mut Tokens) -> Result<Part, Stop>
    ensures { Reads result line.new (part.read line.old) }
{
    let token = line.token()?;
    match part_of(token) {
        Some(found) => Ok(found),
        None => Err(Stop::NoForm),
    }
}

/// The kind of a queue that the token names.
fn kind_of(token: &[u8]) -> Option<Kind>
    ensures { result ≡ lookup token.now kind_words }
{
    if is(token, "atomic") {
        return Some(Kind::Atomic);
    }
    if is(token, "parallel") {
        return Some(Kind::Parallel);
    }
    if is(token, "ordered") {
        return Some(Kind::Ordered);
    }
    if is(token, "local") {
        return Some(Kind::Local);
    }
    if is(token, "unscheduled") {
        return Some(Kind::Unscheduled);
    }
    if is(token, "output") {
        return Some(Kind::Output);
    }
    None
}

/// A kind of queue.
pub(crate) fn kind(line: &mut Tokens) -> Result<Kind, Stop>
    ensures { Reads result line.new (kind.read line.old) }
{
    let token = line.token()?;
    match kind_of(token) {
        Some(found) => Ok(found),
        None => Err(Stop::NoForm),
    }
}
