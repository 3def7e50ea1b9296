//! The lock and its calls.
ghost use Rattle.std.specs.Prelude.{◌≡◌, ◌+◌, ◌<◌, ◌++◌, true, false, List, [], ◌∷◌, IfOk};
ghost use Rattle.em_log.specs.Items.{LogItem};
ghost use Rattle.em_turn.specs.Numbers.{OnlyOf};
ghost use Rattle.em_turn.specs.Seats.{GoesOn, first_seat, with_turn, after_turn, after_split, split_off, joined};

use crate::gates::Gates;
use crate::steps::{Check, Draw, JoinSeats, Look, PassOn, SplitOff, TurnRule};
use crate::view::{Listed, View};
use atomic_table::{Seat, Table};
use em_log::NoMemory;
use std::alloc::Global;
use std::hint::spin_loop;
use std::marker::Model;
use std::snapshot::Snapshot;
use std::sync::Wait;

// The word with the next ticket.
const TICKET: usize = 0;

// The word with the ticket that has the turn.
const SERVING: usize = 1;

// How often a seat looks before it sleeps. No seat yields: that hands a processor to other programs for milliseconds.
const LOOKS: u32 = 50;

// How often a seat naps before it draws a ticket though others have one.
const NAPS: u32 = 10;

/// A lock round one value. Contracts see which lock it is.
#[derive(Drop)]
pub struct Turn<V: Listed> {
    table: Table<Option<V>, View, Snapshot<V>, TurnRule, Global>,
    // The rule does not speak of them.
    gates: Gates,
}

impl<V: Listed> Model for Turn<V> {
    ghost use Rattle.std.specs.Prelude.{◌≡◌};
    ghost use Rattle.atomic_table.specs.Seated.{TableId, table_id_coded};

    ghost Value = { TableId };

    ghost coded = { table_id_coded };

    ghost view = { λ t. t.table.shared.table_id };

    ghost invariant = { λ t. (t.table.shared.table_id.words ≡ 2) × (t.table.shared.table_id.slots ≡ 1) };
}

/// A right to take turns. Contracts see its lock, its numbers, the list that it has seen, the fixed part, how many turns it drew,
/// how many seats may still be split off it, and whether it has the turn.
#[derive(Drop)]
pub struct TurnSeat<V> {
    seat: Seat<Option<V>, View>,
}

impl<V> Model for TurnSeat<V> {
    ghost use Rattle.em_turn.specs.Seats.{SeatView, shown, IsSettled};

    ghost Value = { SeatView };

    ghost view = { λ s. shown s.seat.table_id s.seat.me.0 };

    ghost invariant = { λ s. IsSettled s.seat.me };
}

impl<V: Listed> Turn<V> {
    /// A lock round a value with an empty list, and its first seat. On `NoMemory` the value is dropped.
    pub fn new(alloc: Global, value: V) -> Result<(Turn<V>, TurnSeat<V>), NoMemory>
    where
        V: Drop,
        requires empty { V.items value ≡ [] }
        ensures { IfOk result (λ r. r.1 ≡ first_seat r.0 (V.fixed value)) }
    {
        let about = Snapshot::of(&value);
        let mut slots = Vec::new(alloc);
        let Ok(()) = slots.push(Some(value)) else {
            return Err(NoMemory);
        };
        let Ok((table, seat)) = Table::new(alloc, &[0, 0], slots, &about) else {
            return Err(NoMemory);
        };
        let gates = Gates::new();
        Ok((Turn { table, gates }, TurnSeat { seat }))
    }

    /// A new seat with the next number, which has seen as much as the first seat.
    pub fn split(&self, seat: &mut TurnSeat<V>) -> TurnSeat<V>
        requires here { (seat.old.turn ≡ self.now) × (seat.old.inside ≡ false) }
        requires spare { (seat.old.numbers ≡ 0 ∷ []) × (0 < seat.old.spare) }
        ensures seat { seat.new ≡ after_split seat.old }
        ensures new { result ≡ split_off seat.old }
    {
        let new = self.table.shared.split_seat::<SplitOff>(&mut seat.seat);
        TurnSeat { seat: new }
    }

    /// Takes in another seat. The seat has then seen the longer of the two lists, which goes on from both. Both had one fixed part.
    pub fn join(&self, seat: &mut TurnSeat<V>, other: TurnSeat<V>)
        requires here { (seat.old.turn ≡ self.now) × (seat.old.inside ≡ false) }
        requires other { (other.turn ≡ self.now) × (other.inside ≡ false) }
        ensures seat { seat.new ≡ joined seat.old other }
        ensures lists { GoesOn seat.new.seen seat.old × GoesOn seat.new.seen other }
        ensures fixed { other.fixed ≡ seat.old.fixed }
    {
        let TurnSeat { seat: spent } = other;
        self.table
            .shared
            .join_seat::<JoinSeats>(&mut seat.seat, spent);
        self.table.shared.load::<Check>(&mut seat.seat, TICKET);
    }

    /// Waits a while where other seats have tickets, draws one, waits until it is served, and hands out the value.
    pub fn enter(&self, wait: &impl Wait, seat: &mut TurnSeat<V>) -> V
        requires here { (seat.old.turn ≡ self.now) × (seat.old.inside ≡ false) }
        ensures list { GoesOn (V.items result) seat.old }
        ensures fixed { V.fixed result ≡ seat.old.fixed }
        ensures seat { seat.new ≡ with_turn seat.old (V.items result) }
    {
        self.await_gap(wait);
        let ticket = self
            .table
            .shared
            .fetch_add::<Draw>(&mut seat.seat, TICKET, 1);
        for _ in wait.forever() {
            if self.table.shared.load::<Look>(&mut seat.seat, SERVING) == ticket {
                return self.table.shared.exchange(&mut seat.seat, 0, None).unwrap();
            }
            self.await_turn(wait, ticket);
        }
        unreachable!()
    }

    /// Gives the value back, with none but items of the seat's numbers added to its list, and passes the turn on.
    pub fn leave(&self, seat: &mut TurnSeat<V>, value: V)
        requires here { (seat.old.turn ≡ self.now) × (seat.old.inside ≡ true) }
        requires list { (added : List LogItem) × (V.items value ≡ seat.old.seen ++ added) × OnlyOf seat.old.numbers added }
        requires fixed { V.fixed value ≡ seat.old.fixed }
        ensures { seat.new ≡ after_turn seat.old (V.items value) }
    {
        match self.table.shared.exchange(&mut seat.seat, 0, Some(value)) {
            None => {}
            Some(_) => unreachable!(),
        }
        let served = self
            .table
            .shared
            .fetch_add::<PassOn>(&mut seat.seat, SERVING, 1);
        self.gates.open(served.wrapping_add(1));
    }

    /// The value, where no other seat is left.
    pub fn close(self, seat: TurnSeat<V>) -> V
        requires here { (seat.turn ≡ self) × (seat.inside ≡ false) }
        requires all { seat.spare ≡ 63 }
        ensures list { GoesOn (V.items result) seat }
        ensures fixed { V.fixed result ≡ seat.fixed }
    {
        let Turn { table, gates: _ } = self;
        let TurnSeat { seat } = seat;
        let mut closed = table.close_with(seat);
        let value = closed.take(0);
        closed.free();
        value.unwrap()
    }

    // Returns once no seat has a ticket, and else after some naps. So few seats are in line, and a turn seldom passes to one that sleeps.
    fn await_gap(&self, wait: &impl Wait) {
        for _ in 0..NAPS {
            if self.is_free_soon() {
                return;
            }
            self.gates.nap(wait);
        }
    }

    // Whether no seat had a ticket, at one of some looks.
    fn is_free_soon(&self) -> bool {
        for _ in 0..LOOKS {
            let served = self.table.shared.peek(SERVING);
            if served == self.table.shared.peek(TICKET) {
                return true;
            }
            spin_loop();
        }
        false
    }

    // Returns once the ticket is served, and maybe before. It looks again after it shut the gate, and who passes the turn on looks at the gate after that.
    fn await_turn(&self, wait: &impl Wait, ticket: u64) {
        if self.is_served_soon(ticket) {
            return;
        }
        self.gates.shut(ticket);
        if !self.is_served(ticket) {
            self.gates.sleep(wait, ticket);
        }
    }

    // The next in line looks for a while, and the others once.
    fn is_served_soon(&self, ticket: u64) -> bool {
        let before = ticket.wrapping_sub(self.table.shared.peek(SERVING));
        if before != 1 {
            return before == 0;
        }
        for _ in 0..LOOKS {
            if self.is_served(ticket) {
                return true;
            }
            spin_loop();
        }
        false
    }

    fn is_served(&self, ticket: u64) -> bool {
        self.table.shared.peek(SERVING) == ticket
    }
}
