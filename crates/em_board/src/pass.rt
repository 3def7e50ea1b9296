//! The passes of a board.
ghost use Rattle.std.specs.Prelude.{◌≡◌, ◌<◌, ◌++◌, [], ◌∷◌, length, MatchOption, option_to_list};

use crate::shared_desk::SharedDesk;
use em_log::CoreId;
use em_turn::TurnSeat;
use std::marker::Model;

/// The right of one core to call the board. Contracts see its board, its core, the declarations and limits, the items that it has
/// seen, of which its own are `mine`, and its turns.
#[derive(Drop)]
pub struct Pass {
    pub(crate) core: CoreId,
    pub(crate) seat: TurnSeat<SharedDesk>,
}

impl Model for Pass {
    ghost use Rattle.em_board.specs.Passes.{PassView, pass_of, IsReady};

    ghost Value = { PassView };

    ghost view = { λ p. pass_of p.core.0 p.seat };

    ghost invariant = { λ p. IsReady p.core.0 p.seat };
}

/// A list of passes, with room for one of each core.
#[derive(Drop)]
pub struct Passes {
    pub(crate) list: Vec<Pass>,
}

impl Model for Passes {
    ghost use Rattle.std.specs.Prelude.{List, ◌≤◌};
    ghost use Rattle.std.specs.Vec.{vec_capacity};
    ghost use Rattle.em_board.specs.Passes.{PassView};

    ghost Value = { List PassView };

    ghost view = { λ p. p.list.items };

    ghost invariant = { λ p. 8 ≤ vec_capacity p.list };
}

impl Passes {
    /// Takes off the last pass, if there is one.
    pub fn pop(&mut self) -> Option<Pass>
        ensures list { self.old ≡ self.new ++ option_to_list result }
        ensures some { MatchOption result (self.old ≡ []) (λ _. self.old ≡ self.new ++ option_to_list result) }
    {
        self.list.pop()
    }

    /// Adds a pass at the end.
    pub fn push(&mut self, pass: Pass)
        requires room { length self.old < pass.fixed.declarations.cores }
        ensures { self.new ≡ self.old ++ pass ∷ [] }
    {
        let _ = &pass.core;
        self.list.push_reserved(pass);
    }
}
