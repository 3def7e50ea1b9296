//! What the rule of the lock reads of a value, and of a seat.
ghost use Rattle.std.specs.Prelude.{List};
ghost use Rattle.em_log.specs.Items.{LogItem, Fixed};

use std::marker::Model;

/// A value with a fixed part and a list of items.
pub trait Listed {
    ghost fixed: { Self → Fixed };

    ghost items: { Self → List LogItem };
}

/// What a seat knows. It exists in proofs alone, and no value of it is made.
pub struct View {
    nothing: (),
}

impl Model for View {
    ghost use Rattle.em_turn.specs.Views.{Known};
    ghost use Rattle.em_turn.specs.Steps.{spent};

    ghost Value = { Known };

    ghost view = { λ _. spent };
}
