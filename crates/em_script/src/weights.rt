//! The weights and steps of bodies, counted up to just above their limits.
ghost use Rattle.std.specs.Prelude.{◌≡◌, ◌≤◌, ◌+◌, ◌*◌, ◌&&◌, min};
ghost use Rattle.std.specs.List.{list_all};
ghost use Rattle.std.specs.Option.{option_map_or};
ghost use Rattle.em_log.specs.Weights.{cost_of, steps, steps_of, weight, weight_of};
ghost use Rattle.em_script.specs.Judging.{are_light, is_light, is_light_error, is_light_object};

use em_log::{Block, Config, EoDecl, Stmt};

/// One more than the greatest weight of a body.
const TOO_HEAVY: u64 = 257;
/// One more than the greatest number of steps of a body.
const TOO_LONG: u64 = 65_537;

/// A sum, or the bound where it is greater.
fn sum(a: u64, b: u64, bound: u64) -> u64
    requires a { a ≤ 65537 }
    requires b { b ≤ 65537 }
    ensures { result ≡ min (a + b) bound }
{
    (a + b).min(bound)
}

/// So many times a number, or the bound where that is greater.
fn product(times: u16, n: u64, bound: u64) -> u64
    requires { n ≤ 65537 }
    ensures { result ≡ min (times * n) bound }
{
    (u64::from(times) * n).min(bound)
}

/// What a statement that is no block costs, up to 257.
fn cost_of(statement: &Stmt) -> u64
    ensures { result ≡ min (cost_of statement.now) 257 }
{
    match statement {
        Stmt::Set { .. } | Stmt::If { .. } | Stmt::Repeat { .. } => 0,
        Stmt::Send { .. } | Stmt::SendG { .. } => 2,
        Stmt::Apply { notes, .. } => sum(
            2,
            (notes.as_slice().len() as u64).min(TOO_HEAVY),
            TOO_HEAVY,
        ),
        Stmt::Start { notes, .. } | Stmt::Stop { notes, .. } | Stmt::Modify { notes, .. } => {
            sum(3, (notes.as_slice().len() as u64).min(TOO_HEAVY), TOO_HEAVY)
        }
        _ => 1,
    }
}

/// The weight of a statement whose faults are served by a body of this weight, up to 257.
#[cycle(weights)]
fn weight(error: u64, statement: &Stmt) -> u64
    requires { error ≤ 257 }
    ensures { result ≡ min (weight error statement.now) 257 }
{
    match statement {
        Stmt::If { yes, no, .. } => {
            let first = weight_of(error, yes.as_slice());
            let second = weight_of(error, no.as_slice());
            first.max(second)
        }
        Stmt::Repeat { times, block } => product(
            *times,
            weight_of(error, block.as_slice()),
            TOO_HEAVY,
        ),
        _ => match cost_of(statement) {
            0 => 0,
            cost => sum(cost, error, TOO_HEAVY),
        },
    }
}

#[cycle(weights)]
fn weight_of(error: u64, block: &[Stmt]) -> u64
    requires { error ≤ 257 }
    ensures { result ≡ min (weight_of error block.now) 257 }
{
    let mut total = 0;
    for statement in block {
        total = sum(total, weight(error, statement), TOO_HEAVY);
    }
    total
}

/// The steps of a statement whose faults are served by a body of so many steps, up to 65,537.
#[cycle(steps)]
fn steps(error: u64, statement: &Stmt) -> u64
    requires { error ≤ 65537 }
    ensures { result ≡ min (steps error statement.now) 65537 }
{
    match statement {
        Stmt::If { yes, no, .. } => {
            let most = steps_of(error, yes.as_slice()).max(steps_of(error, no.as_slice()));
            sum(1, most, TOO_LONG)
        }
        Stmt::Repeat { times, block } => {
            sum(
                1,
                product(*times, steps_of(error, block.as_slice()), TOO_LONG),
                TOO_LONG,
            )
        }
        _ => match cost_of(statement) {
            0 => 1,
            _ => sum(1, error, TOO_LONG),
        },
    }
}

#[cycle(steps)]
fn steps_of(error: u64, block: &[Stmt]) -> u64
    requires { error ≤ 65537 }
    ensures { result ≡ min (steps_of error block.now) 65537 }
{
    let mut total = 0;
    for statement in block {
        total = sum(total, steps(error, statement), TOO_LONG);
    }
    total
}

/// Whether the weight and the steps of a body are within their limits. Its faults are served by the error body.
fn is_light(error: &Option<Block>, body: &Block) -> bool
    ensures { result ≡ is_light error.now body.now }
{
    let (heavy, long) = match error {
        Some(block) => (
            weight_of(0, block.as_slice()),
            steps_of(0, block.as_slice()),
        ),
        None => (0, 0),
    };
    weight_of(heavy, body.as_slice()) <= 256 && steps_of(long, body.as_slice()) <= 65_536
}

fn is_light_error(body: &Option<Block>) -> bool
    ensures { result ≡ is_light_error body.now }
{
    match body {
        Some(block) => is_light(&None, block),
        None => true,
    }
}

/// The bodies of an object. Its own error body serves their faults, else that of the whole.
fn is_light_object(global: &Option<Block>, eo: &EoDecl) -> bool
    ensures { result ≡ is_light_object global.now eo.now }
{
    let error = if eo.error.is_some() {
        &eo.error
    } else {
        global
    };
    is_light(error, &eo.receive)
        && is_light(error, &eo.start)
        && is_light(error, &eo.stop)
        && is_light(error, &eo.lstart)
        && is_light(error, &eo.lstop)
        && is_light_error(&eo.error)
}

fn are_light_objects(global: &Option<Block>, eos: &[EoDecl]) -> bool
    ensures { result ≡ list_all (is_light_object global.now) eos.now }
{
    eos.iter().all(|eo| is_light_object(global, eo))
}

/// Whether the weights and the steps of all bodies are within their limits.
pub(crate) fn are_light(boot: &Block, error: &Option<Block>, eos: &[EoDecl]) -> bool
    ensures { result ≡ (is_light error.now boot.now && is_light_error error.now && list_all (is_light_object error.now) eos.now) }
{
    is_light(error, boot) && is_light_error(error) && are_light_objects(error, eos)
}
