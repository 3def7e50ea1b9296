//! Writing a whole script.
ghost use Rattle.std.specs.Prelude.{◌≡◌, ◌≤◌, ◌∷◌, ◌++◌, [], length, flat_map, IfOk, OnOk};
ghost use Rattle.em_log.specs.WellFormed.{IsWellFormed};
ghost use Rattle.em_script.specs.Declarations.{eo_of, group_of, kind_tokens, membership, membership_of, priority_of};
ghost use Rattle.em_script.specs.Lines.{joined, spaced, spelled};
ghost use Rattle.em_script.specs.Names.{name_in, writing};
ghost use Rattle.em_script.specs.Words.{kind_text, part_text, priority_text};
ghost use Rattle.em_script.specs.Spelling.{block_lines, bodies_of_object, bodies_of_objects, body_lines, declared_lines, optional_body, place_tokens, spelling, statement_lines, text_of, written_body};

use crate::line::{Line, Part, Place};
use crate::named::Named;
use crate::spelling::{name, statement, with_value};
use crate::text::Text;
use bitflags::Flags;
use em_log::{
    AgroupDecl, Block, Config, Decl, EoDecl, EoId, GroupDecl, GroupId, Kind, Name, NoMemory,
    PoolDecl, Priority, QueueDecl, Stmt,
};
use std::alloc::Global;

/// A line of one word.
fn alone(text: &mut Text, word: &str) -> Result<(), NoMemory>
    ensures { OnOk result (text.new ≡ text.old ++ spelled ((word.now ∷ []) ∷ [])) }
{
    text.begin(word)?;
    text.end()
}

#[cycle(block)]
fn statement_lines(text: &mut Text, config: &Config, each: &Stmt) -> Result<(), NoMemory>
    ensures { OnOk result (text.new ≡ text.old ++ text_of config.now (statement_lines each.now)) }
{
    match each {
        Stmt::If {
            test,
            yes,
            no,
            has_else,
        } => {
            with_value(text, "if", test)?;
            text.end()?;
            block_lines(text, config, yes.as_slice())?;
            if *has_else {
                alone(text, "else")?;
                block_lines(text, config, no.as_slice())?;
            }
            alone(text, "end")
        }
        Stmt::Repeat { times, block } => {
            text.begin("repeat")?;
            text.number(u64::from(*times))?;
            text.end()?;
            block_lines(text, config, block.as_slice())?;
            alone(text, "end")
        }
        _ => {
            statement(text, config, each)?;
            text.end()
        }
    }
}

#[cycle(block)]
fn block_lines(text: &mut Text, config: &Config, block: &[Stmt]) -> Result<(), NoMemory>
    ensures { OnOk result (text.new ≡ text.old ++ text_of config.now (block_lines block.now)) }
{
    for each in block {
        statement_lines(text, config, each)?;
    }
    Ok(())
}

fn part_word(part: Part) -> &'static str
    ensures { result.now ≡ part_text part }
{
    match part {
        Part::Receive => "receive",
        Part::Start => "start",
        Part::Stop => "stop",
        Part::LocalStart => "lstart",
        Part::LocalStop => "lstop",
        Part::Error => "error",
    }
}

/// The line with which a body begins.
fn place(text: &mut Text, config: &Config, place: Place) -> Result<(), NoMemory>
    ensures { OnOk result (text.new ≡ text.old ++ spelled (place_tokens (writing config.now) place ∷ [])) }
{
    match place {
        Place::Boot => text.begin("boot")?,
        Place::Error => text.begin("error")?,
        Place::Object(id, part) => {
            text.begin("body")?;
            name(text, config, Named::Eo(id))?;
            text.word(part_word(part))?;
        }
    }
    text.end()
}

fn body(text: &mut Text, config: &Config, at: Place, block: &Block) -> Result<(), NoMemory>
    ensures { OnOk result (text.new ≡ text.old ++ text_of config.now (body_lines (at, block.now))) }
{
    place(text, config, at)?;
    block_lines(text, config, block.as_slice())?;
    alone(text, "end")
}

/// A body, where it was written.
fn written_body(
    text: &mut Text,
    config: &Config,
    is_written: bool,
    at: Place,
    block: &Block,
) -> Result<(), NoMemory>
    ensures { OnOk result (text.new ≡ text.old ++ text_of config.now (flat_map body_lines (written_body is_written at block.now))) }
{
    if is_written {
        body(text, config, at, block)
    } else {
        Ok(())
    }
}

fn optional_body(
    text: &mut Text,
    config: &Config,
    at: Place,
    block: &Option<Block>,
) -> Result<(), NoMemory>
    ensures { OnOk result (text.new ≡ text.old ++ text_of config.now (flat_map body_lines (optional_body at block.now))) }
{
    match block {
        Some(block) => body(text, config, at, block),
        None => Ok(()),
    }
}

/// The bodies of an object.
fn object_bodies(text: &mut Text, config: &Config, id: EoId, eo: &EoDecl) -> Result<(), NoMemory>
    ensures { OnOk result (text.new ≡ text.old ++ text_of config.now (flat_map body_lines (bodies_of_object id eo.now))) }
{
    let given = eo.given;
    written_body(
        text,
        config,
        given.receive,
        Place::Object(id, Part::Receive),
        &eo.receive,
    )?;
    written_body(
        text,
        config,
        given.start,
        Place::Object(id, Part::Start),
        &eo.start,
    )?;
    written_body(
        text,
        config,
        given.stop,
        Place::Object(id, Part::Stop),
        &eo.stop,
    )?;
    written_body(
        text,
        config,
        given.lstart,
        Place::Object(id, Part::LocalStart),
        &eo.lstart,
    )?;
    written_body(
        text,
        config,
        given.lstop,
        Place::Object(id, Part::LocalStop),
        &eo.lstop,
    )?;
    optional_body(text, config, Place::Object(id, Part::Error), &eo.error)
}

fn objects_bodies(text: &mut Text, config: &Config) -> Result<(), NoMemory>
    requires { length config.now.eos ≤ 64 }
    ensures { OnOk result (text.new ≡ text.old ++ text_of config.now (flat_map body_lines (bodies_of_objects 0 config.now.eos))) }
{
    for (n, eo) in config.eos.as_slice().iter().enumerate() {
        object_bodies(text, config, EoId(n as u8), eo)?;
    }
    Ok(())
}

fn kind_word(kind: Kind) -> &'static str
    ensures { result.now ≡ kind_text kind }
{
    match kind {
        Kind::Atomic => "atomic",
        Kind::Parallel => "parallel",
        Kind::Ordered => "ordered",
        Kind::Local => "local",
        Kind::Unscheduled => "unscheduled",
        Kind::Output => "output",
    }
}

fn priority_word(priority: Priority) -> &'static str
    ensures { result.now ≡ priority_text priority }
{
    match priority {
        Priority::Lowest => "lowest",
        Priority::Low => "low",
        Priority::Normal => "normal",
        Priority::High => "high",
        Priority::Highest => "highest",
    }
}

/// The object and the priority of a queue.
fn served(text: &mut Text, config: &Config, decl: &QueueDecl) -> Result<(), NoMemory>
    ensures { OnOk result (text.new ≡ text.old ++ spaced (name_in config.now (Named.Eo (eo_of decl.now)) ∷ priority_text (priority_of decl.now) ∷ [])) }
{
    name(text, config, Named::Eo(decl.eo.unwrap_or(EoId(0))))?;
    text.word(priority_word(decl.priority.unwrap_or(Priority::Normal)))
}

fn group(text: &mut Text, config: &Config, decl: &QueueDecl) -> Result<(), NoMemory>
    ensures { OnOk result (text.new ≡ text.old ++ spaced (name_in config.now (Named.Group (group_of decl.now)) ∷ [])) }
{
    name(text, config, Named::Group(decl.group.unwrap_or(GroupId(0))))
}

/// The atomic group or the queue group of an atomic queue.
fn membership(text: &mut Text, config: &Config, decl: &QueueDecl) -> Result<(), NoMemory>
    ensures { OnOk result (text.new ≡ text.old ++ spaced ((membership (writing config.now)).write (membership_of decl.now))) }
{
    match decl.agroup {
        Some(n) => {
            text.word("in")?;
            name(text, config, Named::Agroup(n))
        }
        None => group(text, config, decl),
    }
}

/// What stands behind the kind of a queue.
fn queue_behind(text: &mut Text, config: &Config, decl: &QueueDecl) -> Result<(), NoMemory>
    ensures { OnOk result (text.new ≡ text.old ++ spaced (kind_tokens (writing config.now) decl.now decl.now.kind)) }
{
    match decl.kind {
        Kind::Atomic => {
            served(text, config, decl)?;
            membership(text, config, decl)
        }
        Kind::Parallel | Kind::Ordered => {
            served(text, config, decl)?;
            group(text, config, decl)
        }
        Kind::Local => served(text, config, decl),
        Kind::Unscheduled | Kind::Output => Ok(()),
    }
}

fn queue(text: &mut Text, config: &Config, decl: &QueueDecl) -> Result<(), NoMemory>
    ensures { OnOk result (text.new ≡ text.old ++ text_of config.now (Line.Queue decl.now ∷ [])) }
{
    text.begin("queue")?;
    text.word(decl.name.as_str())?;
    text.word(kind_word(decl.kind))?;
    queue_behind(text, config, decl)?;
    text.end()
}

fn pool(text: &mut Text, config: &Config, decl: &PoolDecl) -> Result<(), NoMemory>
    ensures { OnOk result (text.new ≡ text.old ++ text_of config.now (Line.Pool decl.now ∷ [])) }
{
    text.begin("pool")?;
    text.word(decl.name.as_str())?;
    text.number(u64::from(decl.events))?;
    text.number(u64::from(decl.words))?;
    text.end()
}

fn queue_group(text: &mut Text, config: &Config, decl: &GroupDecl) -> Result<(), NoMemory>
    ensures { OnOk result (text.new ≡ text.old ++ text_of config.now (Line.Group decl.now.name decl.now.mask.0 ∷ [])) }
{
    text.begin("group")?;
    text.word(decl.name.as_str())?;
    text.number(decl.mask.bits())?;
    text.end()
}

fn object(text: &mut Text, config: &Config, decl: &EoDecl) -> Result<(), NoMemory>
    ensures { OnOk result (text.new ≡ text.old ++ text_of config.now (Line.Eo decl.now.name decl.now.running ∷ [])) }
{
    text.begin("eo")?;
    text.word(decl.name.as_str())?;
    if decl.running {
        text.word("running")?;
    }
    text.end()
}

fn atomic_group(text: &mut Text, config: &Config, decl: &AgroupDecl) -> Result<(), NoMemory>
    ensures { OnOk result (text.new ≡ text.old ++ text_of config.now (Line.Agroup decl.now ∷ [])) }
{
    text.begin("agroup")?;
    text.word(decl.name.as_str())?;
    name(text, config, Named::Group(decl.group))?;
    text.end()
}

fn event_group(text: &mut Text, config: &Config, name: &Name) -> Result<(), NoMemory>
    ensures { OnOk result (text.new ≡ text.old ++ text_of config.now (Line.Egroup name.now ∷ [])) }
{
    text.begin("egroup")?;
    text.word(name.as_str())?;
    text.end()
}

/// The line of a declaration.
fn declaration(text: &mut Text, config: &Config, decl: Decl) -> Result<(), NoMemory>
    ensures { OnOk result (text.new ≡ text.old ++ text_of config.now (declared_lines config.now decl)) }
{
    match decl {
        Decl::Pool(n) => match config.pools.as_slice().get(usize::from(n)) {
            Some(decl) => pool(text, config, decl),
            None => Ok(()),
        },
        Decl::Group(n) => match config.groups.as_slice().get(usize::from(n)) {
            Some(decl) => queue_group(text, config, decl),
            None => Ok(()),
        },
        Decl::Eo(n) => match config.eos.as_slice().get(usize::from(n)) {
            Some(decl) => object(text, config, decl),
            None => Ok(()),
        },
        Decl::Agroup(n) => match config.agroups.as_slice().get(usize::from(n)) {
            Some(decl) => atomic_group(text, config, decl),
            None => Ok(()),
        },
        Decl::Queue(n) => match config.queues.as_slice().get(usize::from(n)) {
            Some(decl) => queue(text, config, decl),
            None => Ok(()),
        },
        Decl::Egroup(n) => match config.egroups.as_slice().get(usize::from(n)) {
            Some(name) => event_group(text, config, name),
            None => Ok(()),
        },
    }
}

fn declarations(text: &mut Text, config: &Config) -> Result<(), NoMemory>
    ensures { OnOk result (text.new ≡ text.old ++ text_of config.now (flat_map (declared_lines config.now) config.now.order)) }
{
    for decl in config.order.as_slice() {
        declaration(text, config, *decl)?;
    }
    Ok(())
}

/// The script of a graph, in its canonical spelling.
#[tactic(auto, unfolding(crate::specs::Spelling::spelling))]
pub fn print(alloc: Global, config: &Config) -> Result<Vec<u8>, NoMemory>
    requires { IsWellFormed config.now }
    ensures { IfOk result (λ bytes. bytes.items ≡ spelling config.now) }
{
    let mut text = Text::new(alloc);
    text.begin("cores")?;
    text.number(u64::from(config.cores))?;
    text.end()?;
    declarations(&mut text, config)?;
    body(&mut text, config, Place::Boot, &config.boot)?;
    optional_body(&mut text, config, Place::Error, &config.error)?;
    objects_bodies(&mut text, config)?;
    alone(&mut text, "done")?;
    Ok(text.into_bytes())
}
