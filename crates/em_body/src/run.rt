//! A body that runs.
ghost use Rattle.std.specs.Prelude.{◌≡◌};
ghost use Rattle.std.specs.Option.{option_copied};
ghost use Rattle.em_body.specs.Standings.{declared_object, body_of as body_by, error_body_of as error_body_by};

use crate::environment::Environment;
use crate::standing::Standing;
use em_log::ask::{Answer, Context};
use em_log::body::{Block, Stmt};
use em_log::graph::{Config, EoDecl};
use em_log::ids::{Cells, CoreId};
use em_log::work::{Move, Work};
use std::marker::Model;

/// The object that a context is of, as the graph declares it.
fn object_of<'a>(config: &'a Config, context: &Context) -> Option<&'a EoDecl>
    ensures { option_copied result ≡ declared_object config.now context.now }
{
    let x = match context {
        Context::Boot => return None,
        Context::Receive(receive) => receive.eo,
        Context::GlobalStart(_, x)
        | Context::LocalStart(_, x)
        | Context::LocalStop(_, x)
        | Context::GlobalStop(_, x) => *x,
    };
    config.eos.as_slice().get(x.0 as usize)
}

/// The body of a context.
fn body_of<'a>(config: &'a Config, context: &Context) -> &'a [Stmt]
    ensures { result.now ≡ body_by config.now context.now }
{
    let object = object_of(config, context);
    match (context, object) {
        (Context::Boot, _) => config.boot.as_slice(),
        (_, None) => &[],
        (Context::Receive(_), Some(eo)) => eo.receive.as_slice(),
        (Context::GlobalStart(_, _), Some(eo)) => eo.start.as_slice(),
        (Context::LocalStart(_, _), Some(eo)) => eo.lstart.as_slice(),
        (Context::LocalStop(_, _), Some(eo)) => eo.lstop.as_slice(),
        (Context::GlobalStop(_, _), Some(eo)) => eo.stop.as_slice(),
    }
}

/// The error body that serves a context: that of its object, else the global one.
fn error_body_of<'a>(config: &'a Config, context: &Context) -> Option<&'a Block>
    ensures { option_copied result ≡ error_body_by config.now context.now }
{
    match object_of(config, context) {
        Some(eo) if eo.error.is_some() => eo.error.as_ref(),
        _ => config.error.as_ref(),
    }
}

/// A body that runs: it carries out one statement at each move.
#[derive(Drop)]
pub struct BodyRun<'a> {
    config: &'a Config,
    core: CoreId,
    standing: Standing<'a>,
}

impl<'a> Model for BodyRun<'a> {
    ghost use Rattle.std.specs.Coded.{codes};
    ghost use Rattle.em_log.specs.contracts.body.Stmt as stmt;
    ghost use Rattle.em_log.specs.contracts.graph.Config as graph;
    ghost use Rattle.em_body.specs.Kept.{standing_of};
    ghost use Rattle.em_body.specs.Standings.{Run};
    ghost use Rattle.em_body.specs.Runs.{IsSound};

    ghost Value = { Run };

    ghost coded = { Prim.hlevel (codes, stmt.the_row.coded, graph.the_row.coded) };

    ghost view = { λ r. record {
      made = record { graph = r.config.now; core = r.core.0 };
      standing = standing_of r.standing;
    } };

    ghost invariant = { λ r. IsSound r.config.now (standing_of r.standing) };
}

impl<'a> BodyRun<'a> {
    ghost use Rattle.std.specs.Prelude.{◌≡◌, [], None};
    ghost use Rattle.em_log.specs.WellFormed.{IsWellFormed};
    ghost use Rattle.em_log.specs.Legal.{plain_env};

    /// A body of this graph on this core, before its first context.
    pub fn new(config: &'a Config, core: CoreId) -> BodyRun<'a>
        requires { IsWellFormed config.now }
        ensures made { result.made ≡ record { graph = config.now; core = core.0 } }
        ensures standing { result.standing ≡ record { env = plain_env core.0; left = []; asking = None; error = None; outer = None } }
    {
        BodyRun {
            config,
            core,
            standing: Standing::new(Environment::plain(core)),
        }
    }
}

impl<'a> Work for BodyRun<'a> {
    ghost use Rattle.em_body.specs.Standings as standings;
    ghost use Rattle.em_body.specs.MoveLaws as laws;

    ghost Fixed = { standings.Made };

    ghost State = { standings.Standing };

    ghost fixed = { λ r. r.made };

    ghost state = { λ r. r.standing };

    ghost unanswered = { standings.unanswered };

    ghost carried = { standings.carried };

    ghost Begins = { standings.Begins };

    ghost Moves = { standings.Moves };

    ghost Leaves = { standings.Leaves };

    ghost begins_unasked = { laws.begins-unasked };

    ghost moves_asked = { laws.moves-asked };

    ghost moves_no_end = { laws.moves-no_end };

    ghost leaves_unasked = { laws.leaves-unasked };

    fn begin(&mut self, context: &Context) {
        let environment = Environment::opening(self.core, context);
        let body = body_of(self.config, context);
        let error = error_body_of(self.config, context);
        self.standing.begin(environment, body, error);
    }

    fn next(&mut self) -> Move {
        self.standing.settle();
        let Some(statement) = self.standing.stack.take() else {
            return Move::End;
        };
        self.standing.carry_out(statement)
    }

    fn answer(&mut self, answer: &Answer) {
        self.standing.answered(answer);
    }

    fn cells(&self) -> Option<Cells> {
        self.standing.environment.cells
    }
}

#[cfg(test)]
mod tests;
