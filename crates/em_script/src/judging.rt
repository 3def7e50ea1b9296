//! What a line comes to.
ghost use Rattle.std.specs.Prelude.{◌≡◌, ◌<◌, ◌≤◌, ◌+◌, IfOk, length, map, nat_le};
ghost use Rattle.std.specs.List.{list_all};
ghost use Rattle.em_log.specs.Declarations.{pool_shape, event_total};
ghost use Rattle.em_log.specs.WellFormed.{may_begin, is_of_object, may_fail};
ghost use Rattle.em_script.specs.Form.{Reads};
ghost use Rattle.em_script.specs.Lines.{is_plain_line, tokens};
ghost use Rattle.em_script.specs.Judging.{has_part, is_given, is_skipped, judge, may_else, may_stand_at, may_stand_in, read_by_phase, rule_of, told, unless, where_of};
ghost use Rattle.em_script.specs.State.{state_of};

use crate::declarations::top_line;
use crate::draft::{Draft, Opened};
use crate::line::{Line, Part, Place};
use crate::phase::Phase;
use crate::statements::body_line;
use crate::tokens::{Stop, Tokens};
use crate::weights::are_light;
use em_log::{EoDecl, NoMemory, PoolDecl, Stmt};
use std::alloc::Global;

/// What a line comes to: nothing, what it says, or the least rule that fails.
#[derive(Debug, Drop)]
pub enum Judged {
    Skipped,
    Says(Line),
    Refused(u8),
}

/// A rule where it fails, or 12.
fn unless(good: bool, rule: u8) -> u8
    ensures { result ≡ unless good rule }
{
    if good { 12 } else { rule }
}

/// Whether the events of one more pool are not too many.
fn is_room(pools: &[PoolDecl], events: u16) -> bool
    requires { length pools.now < 8 }
    ensures { result ≡ nat_le (event_total (map pool_shape pools.now) + events) 4096 }
{
    let mut total = u64::from(events);
    for pool in pools {
        total += u64::from(pool.events);
    }
    total <= 4096
}

/// Whether a statement may stand in this body.
fn may_stand(place: Place, statement: &Stmt) -> bool
    ensures { result ≡ may_stand_at (where_of place) statement.now }
{
    match statement {
        Stmt::Keep(_) | Stmt::Claim { .. } => matches!(place, Place::Object(_, _)),
        Stmt::Start { .. } | Stmt::Stop { .. } | Stmt::Modify { .. } => {
            matches!(place, Place::Boot | Place::Object(_, Part::Receive))
        }
        Stmt::Fail => matches!(place, Place::Object(_, Part::Start)),
        _ => true,
    }
}

fn may_stand_in(phase: Phase, statement: &Stmt) -> bool
    ensures { result ≡ may_stand_in phase statement.now }
{
    match phase {
        Phase::Body(place) => may_stand(place, statement),
        _ => true,
    }
}

fn has_part(eo: &EoDecl, part: Part) -> bool
    ensures { result ≡ has_part part eo.now }
{
    match part {
        Part::Receive => eo.given.receive,
        Part::Start => eo.given.start,
        Part::Stop => eo.given.stop,
        Part::LocalStart => eo.given.lstart,
        Part::LocalStop => eo.given.lstop,
        Part::Error => eo.error.is_some(),
    }
}

/// Whether this body was given before.
fn is_given(draft: &Draft, place: Place) -> bool
    ensures { result ≡ is_given (state_of draft.now) place }
{
    match place {
        Place::Boot => draft.has_boot,
        Place::Error => draft.error.is_some(),
        Place::Object(id, part) => match draft.eos.get(usize::from(id.0)) {
            Some(eo) => has_part(eo, part),
            None => false,
        },
    }
}

/// Whether the innermost block is an `if` without an `else`.
fn may_else(draft: &Draft) -> bool
    ensures { result ≡ may_else draft.now.nest }
{
    match draft.nest.first() {
        Some(frame) => matches!(&frame.opened, Opened::If(_)),
        None => false,
    }
}

/// The rule that the end of a script breaks, or 12.
fn rule_of_done(draft: &Draft) -> u8
    ensures { result ≡ rule_of (state_of draft.now) Line.Done }
{
    if !draft.has_boot {
        return 11;
    }
    unless(
        are_light(&draft.boot, &draft.error, draft.eos.as_slice()),
        9,
    )
}

/// The least rule that fails of a line that has a form, apart from those of its names and numbers; or 12.
fn rule_of(draft: &Draft, line: &Line) -> u8
    ensures { result ≡ rule_of (state_of draft.now) line.now }
{
    match line {
        Line::Pool(decl) => {
            let pools = draft.pools.as_slice();
            unless(pools.len() < 8 && is_room(pools, decl.events), 10)
        }
        Line::Group { .. } => unless(draft.groups.as_slice().len() < 32, 10),
        Line::Eo { .. } => unless(draft.eos.len() < 64, 10),
        Line::Agroup(_) => unless(draft.agroups.as_slice().len() < 32, 10),
        Line::Queue(_) => unless(draft.queues.as_slice().len() < 256, 10),
        Line::Egroup(_) => unless(draft.egroups.as_slice().len() < 64, 10),
        Line::Body(place) => unless(!is_given(draft, *place), 8),
        Line::Statement(statement) => unless(may_stand_in(draft.phase, statement), 7),
        Line::If(_) | Line::Repeat(_) => unless(draft.nest.len() < 16, 10),
        Line::Done => rule_of_done(draft),
        Line::Cores(_) | Line::Else | Line::End => 12,
    }
}

/// What a line says.
fn read(alloc: Global, draft: &Draft, line: &mut Tokens) -> Result<Line, Stop>
    requires { draft.now.cores ≤ 8 }
    ensures { Reads result line.new (read_by_phase draft.now.phase (state_of draft.now) line.old) }
{
    match draft.phase {
        Phase::Body(_) => body_line(alloc, line, &draft.names, may_else(draft)),
        phase => top_line(line, &draft.names, draft.cores, phase),
    }
}

fn is_plain_line(bytes: &[u8]) -> bool
    ensures { result ≡ is_plain_line bytes.now }
{
    bytes.iter().all(|byte| 32 <= *byte && *byte <= 126)
}

/// Whether nothing stands in the line, or a comment.
fn is_skipped(bytes: &[u8]) -> bool
    ensures { result ≡ is_skipped (tokens bytes.now) }
{
    match Tokens::new(bytes).token() {
        Ok(token) => token.first() == Some(&b'#'),
        Err(_) => true,
    }
}

/// What a line that has a form comes to, by the least rule that fails in it.
fn told(line: Line, rule: u8) -> Judged
    ensures { result ≡ told line rule }
{
    if rule == 12 {
        return Judged::Says(line);
    }
    drop(line);
    Judged::Refused(rule)
}

/// What a line without its newline comes to.
#[tactic(auto, unfolding(crate::specs::Judging::judge))]
pub(crate) fn judge(alloc: Global, draft: &Draft, bytes: &[u8]) -> Result<Judged, NoMemory>
    requires { draft.now.cores ≤ 8 }
    ensures { IfOk result (λ judged. judged ≡ judge (state_of draft.now) bytes.now) }
{
    if !is_plain_line(bytes) {
        return Ok(Judged::Refused(1));
    }
    if is_skipped(bytes) {
        return Ok(Judged::Skipped);
    }
    let mut tokens = Tokens::new(bytes);
    match read(alloc, draft, &mut tokens) {
        Ok(line) => {
            let rule = tokens.rule().min(rule_of(draft, &line));
            Ok(told(line, rule))
        }
        Err(Stop::NoForm) => Ok(Judged::Refused(2)),
        Err(Stop::NoMemory) => Err(NoMemory),
    }
}
