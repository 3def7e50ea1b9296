//! The rule of the lock and its steps, for the proofs alone.
ghost use Rattle.em_turn.specs.Rule.{IsKept};
ghost use Rattle.em_turn.specs.Steps.{opened, Draws, Looks, Passes, divided, parted, united, spent, Checks};

use crate::view::{Listed, View};
use atomic_table::{Join, Play, Split, TableRule};
use std::snapshot::Snapshot;

pub struct TurnRule;

impl<V: Listed> TableRule<Option<V>, View, Snapshot<V>> for TurnRule {
    ghost holds = { λ _ s. IsKept V.items V.fixed s };

    // The first seat has the fixed part of the value that the lock begins with.
    ghost first = { λ k. opened (V.fixed k.value) };
}

pub struct Draw;

impl<V: Listed> Play<Option<V>, View> for Draw {
    ghost then = { Draws };
}

pub struct Look;

impl<V: Listed> Play<Option<V>, View> for Look {
    ghost then = { Looks V.items V.fixed };
}

pub struct PassOn;

impl<V: Listed> Play<Option<V>, View> for PassOn {
    ghost then = { Passes V.items };
}

pub struct SplitOff;

impl Split<View> for SplitOff {
    ghost left = { divided };

    ghost right = { parted };
}

pub struct JoinSeats;

impl Join<View> for JoinSeats {
    ghost both = { united };

    ghost spent = { spent };
}

pub struct Check;

impl<V: Listed> Play<Option<V>, View> for Check {
    ghost then = { Checks };
}
