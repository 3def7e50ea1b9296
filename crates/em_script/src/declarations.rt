//! The lines outside bodies, each behind its first word.
ghost use Rattle.std.specs.Prelude.{◌≡◌, ◌≤◌, ℕ};
ghost use Rattle.em_script.specs.Form.{Reads};
ghost use Rattle.em_script.specs.Names.{Naming, reading};
ghost use Rattle.em_script.specs.Declarations.{IsFree, IsGrouped, membership, may_stand, queue_behind, read_queue, read_top_line, top_line_behind};

use crate::line::{Line, Membership, Part, Place};
use crate::names::Names;
use crate::numbers::number;
use crate::phase::Phase;
use crate::slots::{agroup, eo, group, new_name};
use crate::tokens::{Stop, Tokens};
use crate::words::{TopWord, kind, part, priority, top_word};
use em_log::{AgroupDecl, Kind, Name, PoolDecl, QueueDecl};

#[tactic(auto, unfolding(crate::specs::Declarations::top_line_behind))]
fn cores(line: &mut Tokens) -> Result<Line, Stop>
    ensures { (names : Naming) (cores : ℕ) → Reads result line.new (top_line_behind names cores TopWord.Cores line.old) }
{
    let cores = number(line, 1, 8)?;
    line.end()?;
    Ok(Line::Cores(cores as u8))
}

#[tactic(auto, unfolding(crate::specs::Declarations::top_line_behind))]
fn pool(line: &mut Tokens, names: &Names) -> Result<Line, Stop>
    ensures { (cores : ℕ) → Reads result line.new (top_line_behind (reading names.now) cores TopWord.Pool line.old) }
{
    let name = new_name(line, names)?;
    let events = number(line, 1, 4096)?;
    let words = number(line, 0, 16)?;
    line.end()?;
    Ok(Line::Pool(PoolDecl {
        name,
        events: events as u16,
        words: words as u8,
    }))
}

#[tactic(auto, unfolding(crate::specs::Declarations::top_line_behind))]
fn queue_group(line: &mut Tokens, names: &Names, cores: u8) -> Result<Line, Stop>
    requires { cores ≤ 8 }
    ensures { Reads result line.new (top_line_behind (reading names.now) cores TopWord.Group line.old) }
{
    let name = new_name(line, names)?;
    let mask = number(line, 1, (1u64 << cores) - 1)?;
    line.end()?;
    Ok(Line::Group { name, mask })
}

#[tactic(auto, unfolding(crate::specs::Declarations::top_line_behind))]
fn object(line: &mut Tokens, names: &Names) -> Result<Line, Stop>
    ensures { (cores : ℕ) → Reads result line.new (top_line_behind (reading names.now) cores TopWord.Eo line.old) }
{
    let name = new_name(line, names)?;
    let running = line.word("running");
    line.end()?;
    Ok(Line::Eo { name, running })
}

#[tactic(auto, unfolding(crate::specs::Declarations::top_line_behind))]
fn atomic_group(line: &mut Tokens, names: &Names) -> Result<Line, Stop>
    ensures { (cores : ℕ) → Reads result line.new (top_line_behind (reading names.now) cores TopWord.Agroup line.old) }
{
    let name = new_name(line, names)?;
    let group = group(line, names)?;
    line.end()?;
    Ok(Line::Agroup(AgroupDecl { name, group }))
}

#[tactic(auto, unfolding(crate::specs::Declarations::top_line_behind))]
fn event_group(line: &mut Tokens, names: &Names) -> Result<Line, Stop>
    ensures { (cores : ℕ) → Reads result line.new (top_line_behind (reading names.now) cores TopWord.Egroup line.old) }
{
    let name = new_name(line, names)?;
    line.end()?;
    Ok(Line::Egroup(name))
}

/// Where an atomic queue belongs: `in` with a name behind it is an atomic group; alone it is a name.
fn membership(line: &mut Tokens, names: &Names) -> Result<Membership, Stop>
    ensures { Reads result line.new ((membership (reading names.now)).read line.old) }
{
    if line.is_followed("in") {
        line.word("in");
        return Ok(Membership::Agroup(agroup(line, names)?));
    }
    Ok(Membership::Group(group(line, names)?))
}

#[tactic(auto, unfolding(crate::specs::Declarations::queue_behind))]
fn atomic_queue(line: &mut Tokens, names: &Names, name: Name) -> Result<Line, Stop>
    ensures { Reads result line.new (queue_behind (reading names.now) name Kind.Atomic line.old) }
{
    let eo = eo(line, names)?;
    let priority = priority(line)?;
    let membership = membership(line, names)?;
    line.end()?;
    let (group, agroup) = match membership {
        Membership::Group(id) => (Some(id), None),
        Membership::Agroup(n) => (None, Some(n)),
    };
    Ok(Line::Queue(QueueDecl {
        name,
        kind: Kind::Atomic,
        eo: Some(eo),
        priority: Some(priority),
        group,
        agroup,
    }))
}

/// A parallel or an ordered queue.
#[tactic(auto, unfolding(crate::specs::Declarations::queue_behind))]
fn grouped_queue(line: &mut Tokens, names: &Names, name: Name, kind: Kind) -> Result<Line, Stop>
    requires { IsGrouped kind }
    ensures { Reads result line.new (queue_behind (reading names.now) name kind line.old) }
{
    let eo = eo(line, names)?;
    let priority = priority(line)?;
    let group = group(line, names)?;
    line.end()?;
    Ok(Line::Queue(QueueDecl {
        name,
        kind,
        eo: Some(eo),
        priority: Some(priority),
        group: Some(group),
        agroup: None,
    }))
}

#[tactic(auto, unfolding(crate::specs::Declarations::queue_behind))]
fn local_queue(line: &mut Tokens, names: &Names, name: Name) -> Result<Line, Stop>
    ensures { Reads result line.new (queue_behind (reading names.now) name Kind.Local line.old) }
{
    let eo = eo(line, names)?;
    let priority = priority(line)?;
    line.end()?;
    Ok(Line::Queue(QueueDecl {
        name,
        kind: Kind::Local,
        eo: Some(eo),
        priority: Some(priority),
        group: None,
        agroup: None,
    }))
}

/// A queue of no object.
#[tactic(auto, unfolding(crate::specs::Declarations::queue_behind))]
fn free_queue(line: &mut Tokens, name: Name, kind: Kind) -> Result<Line, Stop>
    requires { IsFree kind }
    ensures { (names : Naming) → Reads result line.new (queue_behind names name kind line.old) }
{
    line.end()?;
    Ok(Line::Queue(QueueDecl {
        name,
        kind,
        eo: None,
        priority: None,
        group: None,
        agroup: None,
    }))
}

/// What stands behind the kind of a queue.
fn queue_behind(line: &mut Tokens, names: &Names, name: Name, kind: Kind) -> Result<Line, Stop>
    ensures { Reads result line.new (queue_behind (reading names.now) name kind line.old) }
{
    match kind {
        Kind::Atomic => atomic_queue(line, names, name),
        Kind::Parallel => grouped_queue(line, names, name, Kind::Parallel),
        Kind::Ordered => grouped_queue(line, names, name, Kind::Ordered),
        Kind::Local => local_queue(line, names, name),
        Kind::Unscheduled => free_queue(line, name, Kind::Unscheduled),
        Kind::Output => free_queue(line, name, Kind::Output),
    }
}

#[tactic(auto, unfolding(crate::specs::Declarations::read_queue))]
fn queue(line: &mut Tokens, names: &Names) -> Result<Line, Stop>
    ensures { Reads result line.new (read_queue (reading names.now) line.old) }
{
    let name = new_name(line, names)?;
    let kind = kind(line)?;
    queue_behind(line, names, name, kind)
}

#[tactic(auto, unfolding(crate::specs::Declarations::top_line_behind))]
fn boot(line: &mut Tokens) -> Result<Line, Stop>
    ensures { (names : Naming) (cores : ℕ) → Reads result line.new (top_line_behind names cores TopWord.Boot line.old) }
{
    line.end()?;
    Ok(Line::Body(Place::Boot))
}

#[tactic(auto, unfolding(crate::specs::Declarations::top_line_behind))]
fn error(line: &mut Tokens) -> Result<Line, Stop>
    ensures { (names : Naming) (cores : ℕ) → Reads result line.new (top_line_behind names cores TopWord.Error line.old) }
{
    line.end()?;
    Ok(Line::Body(Place::Error))
}

#[tactic(auto, unfolding(crate::specs::Declarations::top_line_behind))]
fn body(line: &mut Tokens, names: &Names) -> Result<Line, Stop>
    ensures { (cores : ℕ) → Reads result line.new (top_line_behind (reading names.now) cores TopWord.Body line.old) }
{
    let eo = eo(line, names)?;
    let part: Part = part(line)?;
    line.end()?;
    Ok(Line::Body(Place::Object(eo, part)))
}

#[tactic(auto, unfolding(crate::specs::Declarations::top_line_behind))]
fn done(line: &mut Tokens) -> Result<Line, Stop>
    ensures { (names : Naming) (cores : ℕ) → Reads result line.new (top_line_behind names cores TopWord.Done line.old) }
{
    line.end()?;
    Ok(Line::Done)
}

/// What a line outside bodies says behind its first word.
#[tactic(auto, unfolding(crate::specs::Declarations::top_line_behind))]
fn behind(line: &mut Tokens, names: &Names, cores: u8, word: TopWord) -> Result<Line, Stop>
    requires { cores ≤ 8 }
    ensures { Reads result line.new (top_line_behind (reading names.now) cores word line.old) }
{
    match word {
        TopWord::Cores => self::cores(line),
        TopWord::Pool => pool(line, names),
        TopWord::Group => queue_group(line, names, cores),
        TopWord::Eo => object(line, names),
        TopWord::Agroup => atomic_group(line, names),
        TopWord::Queue => queue(line, names),
        TopWord::Egroup => event_group(line, names),
        TopWord::Boot => boot(line),
        TopWord::Error => error(line),
        TopWord::Body => body(line, names),
        TopWord::Done => done(line),
    }
}

/// Whether a line with this first word may come now.
fn may_stand(phase: Phase, word: TopWord) -> bool
    ensures { result ≡ may_stand phase word }
{
    match phase {
        Phase::First => word == TopWord::Cores,
        Phase::Declarations => word != TopWord::Cores,
        Phase::Bodies => matches!(
            word,
            TopWord::Boot | TopWord::Error | TopWord::Body | TopWord::Done
        ),
        Phase::Body(_) | Phase::Done => false,
    }
}

/// What a line outside bodies says.
#[tactic(auto, unfolding(crate::specs::Declarations::read_top_line))]
pub(crate) fn top_line(
    line: &mut Tokens,
    names: &Names,
    cores: u8,
    phase: Phase,
) -> Result<Line, Stop>
    requires { cores ≤ 8 }
    ensures { Reads result line.new (read_top_line (reading names.now) cores phase line.old) }
{
    let word = top_word(line)?;
    if !may_stand(phase, word) {
        return Err(Stop::NoForm);
    }
    behind(line, names, cores, word)
}
