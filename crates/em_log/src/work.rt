//! What a core runs in its contexts.
ghost use Rattle.std.specs.Prelude.{◌≡◌, Option, None, IsTrue, List};
ghost use Rattle.em_log.specs.declared.ask.Answer.{Answer as TheAnswer};
ghost use Rattle.em_log.specs.declared.ask.Ask.{Ask as TheAsk};
ghost use Rattle.em_log.specs.declared.ask.Context.{Context as TheContext};
ghost use Rattle.em_log.specs.declared.ids.Cells.{Cells as TheCells};
ghost use Rattle.em_log.specs.declared.work.Move.{Move as TheMove};
ghost use Rattle.em_log.specs.Works.{asked, asks_no_end, Fits};

use crate::ask::{Answer, Ask, Context};
use crate::ids::Cells;

/// A move of a work: a step that asks nothing, an ask, or the end of the context.
#[derive(Debug, Drop)]
pub enum Move {
    Silent,
    Ask(Ask),
    End,
}

/// What a core runs in its contexts: it begins with a context, and then asks and is answered until the context ends.
///
/// A work means a part that stays as it was made, and a state. Three relations say in which state a context begins,
/// which moves a state may make with the state after each, and the state that an answer leaves.
pub trait Work {
    ghost Fixed: { Type 0 };

    ghost State: { Type 0 };

    ghost fixed: { Self → Fixed };

    ghost state: { Self → State };

    // the ask of this state that is not answered yet
    ghost unanswered: { State → Option TheAsk };

    // the cells that the end of the context would carry
    ghost carried: { State → Option TheCells };

    ghost Begins: { Fixed → TheContext → State → Type 0 };

    ghost Moves: { Fixed → State → TheMove → State → Type 0 };

    ghost Leaves: { Fixed → State → TheAnswer → State → Type 0 };

    /// Begins the body of this context.
    fn begin(&mut self, context: &Context)
        ensures fixed { fixed self.new ≡ fixed self.old }
        ensures begins { Begins (fixed self.old) context.now (state self.new) };

    /// The next move. No ask is unanswered.
    fn next(&mut self) -> Move
        requires { unanswered (state self.old) ≡ None }
        ensures fixed { fixed self.new ≡ fixed self.old }
        ensures moves { Moves (fixed self.old) (state self.old) result (state self.new) };

    /// The answer to the last ask, which fits it.
    fn answer(&mut self, answer: &Answer)
        requires { Fits (unanswered (state self.old)) answer.now }
        ensures fixed { fixed self.new ≡ fixed self.old }
        ensures leaves { Leaves (fixed self.old) (state self.old) answer.now (state self.new) };

    /// The cells that the end of the context carries.
    fn cells(&self) -> Option<Cells>
        ensures { result ≡ carried (state self.now) };

    ghost begins_unasked: { (f : Fixed) (c : TheContext) (s : State) → Begins f c s → unanswered s ≡ None };

    ghost moves_asked: { (f : Fixed) (s : State) (m : TheMove) (t : State) → Moves f s m t → unanswered t ≡ asked m };

    ghost moves_no_end: { (f : Fixed) (s : State) (m : TheMove) (t : State) → Moves f s m t → IsTrue (asks_no_end m) };

    ghost leaves_unasked: { (f : Fixed) (s : State) (a : TheAnswer) (t : State) → Leaves f s a t → unanswered t ≡ None };
}
