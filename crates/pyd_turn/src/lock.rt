//! What a lock does.
ghost use Rattle.std.specs.Prelude.{◌≡◌, ◌<◌, ◌+◌, ◌^◌, ◌∷◌, ◌++◌, [], IfOk, IfErr};
ghost use Rattle.pyd_board.specs.Histories.{AllBy, entries_of, Extends, ExtendsBy};
ghost use Rattle.pyd_turn.specs.Seats.{AllCounted, IsFirst, IsFree, IsHolding, IsLaterOf, IsNewcomer, IsSame, IsSameStage, IsSeatOf, ListsAll, joined, made, name_of, number, own_entries, seen, tally_of};

use crate::rule::{Cut, Glue, Learn, Leave, Queue, SERVING, TICKET, VALUE};
use crate::waiting::{await_turn, wake_waiting};
use crate::{Seat, TurnLock};
use atomic_table::{Refused, Table};
use pyd_board::Kept;
use pyd_value::NoMemory;
use std::alloc::Global;
use std::snapshot::Snapshot;
use std::sync::Wait;

impl<T: Kept> TurnLock<T> {
    /// A lock round the value, and seat 0, which has seen the value's history.
    /// Where there is no memory the value comes back.
    pub fn new(alloc: Global, value: T) -> Result<(TurnLock<T>, Seat<T>), (T, NoMemory)>
        requires first { AllBy 0 (T.history value).events }
        ensures lock { IfOk result (λ r. IsSeatOf r.1 r.0) }
        ensures name { IfOk result (λ r. name_of r.1 ≡ T.name value) }
        ensures seen { IfOk result (λ r. seen r.1 ≡ T.history value) }
        ensures seat { IfOk result (λ r. IsFirst r.1 (entries_of 0 (T.history value))) }
        ensures back { IfErr result (λ e. e.0 ≡ value) }
    {
        let about = Snapshot::of(&value);
        let mut slots = Vec::new(alloc);
        if let Err(failed) = slots.push(Some(value)) {
            slots.destroy_empty();
            return Err((failed.value.unwrap(), NoMemory));
        }
        match Table::new(alloc, &[0, 0], slots, &about) {
            Ok((table, place)) => Ok((TurnLock { table }, Seat { place })),
            Err(Refused { mut slots }) => {
                let value = slots.pop().unwrap().unwrap();
                slots.destroy_empty();
                Err((value, NoMemory))
            }
        }
    }

    /// Makes the seat with the next number. Seat 0 alone does so.
    pub fn split(&self, seat: &mut Seat<T>) -> Seat<T>
        requires lock { IsSeatOf seat.old self.now }
        requires first { number seat.old ≡ 0 }
        requires few { made seat.old + 1 < 2 ^ 32 }
        ensures other { IsNewcomer result seat.old }
        ensures made { made seat.new ≡ made seat.old + 1 }
        ensures same { IsSame seat.old seat.new × IsSameStage seat.old seat.new }
        ensures kept { (seen seat.new ≡ seen seat.old)
            × (own_entries seat.new ≡ own_entries seat.old) × (joined seat.new ≡ joined seat.old) }
    {
        let mut place = self.table.shared.split_seat::<Cut>(&mut seat.place);
        self.table.shared.load::<Learn>(&mut place, TICKET);
        Seat { place }
    }

    /// Takes in what another seat has seen, and lists it with the number of its entries.
    pub fn join(&self, seat: &mut Seat<T>, other: Seat<T>)
        requires lock { IsSeatOf seat.old self.now × IsSeatOf other self.now }
        requires first { number seat.old ≡ 0 }
        requires free { IsFree seat.old × IsFree other }
        ensures later { IsLaterOf (seen seat.new) (seen seat.old) (seen other) }
        ensures listed { joined seat.new ≡ joined seat.old ++ tally_of other ∷ [] }
        ensures same { IsSame seat.old seat.new × IsFree seat.new }
        ensures kept { (own_entries seat.new ≡ own_entries seat.old)
            × (made seat.new ≡ made seat.old) }
    {
        let Seat { place } = other;
        self.table.shared.join_seat::<Glue>(&mut seat.place, place);
        self.table.shared.load::<Learn>(&mut seat.place, TICKET);
    }

    /// Waits for its turn, and takes the value. The seat has then seen the value's history.
    /// After 2^62 turns it waits for ever.
    pub fn take<W: Wait>(&self, rt: &W, seat: &mut Seat<T>) -> T
        requires lock { IsSeatOf seat.old self.now }
        requires free { IsFree seat.old }
        ensures name { T.name result ≡ name_of seat.old }
        ensures grown { Extends (seen seat.old) (T.history result) }
        ensures own { entries_of (number seat.old) (T.history result) ≡ own_entries seat.old }
        ensures seen { seen seat.new ≡ T.history result }
        ensures same { IsSame seat.old seat.new × IsHolding seat.new }
        ensures kept { (own_entries seat.new ≡ own_entries seat.old)
            × (made seat.new ≡ made seat.old) × (joined seat.new ≡ joined seat.old) }
    {
        let turn = self
            .table
            .shared
            .fetch_add::<Queue>(&mut seat.place, TICKET, 1);
        await_turn(rt, &self.table.shared, &mut seat.place, turn);
        self.table
            .shared
            .exchange(&mut seat.place, VALUE, None)
            .unwrap()
    }

    /// Gives the value back, after entries of the seat's own, and lets the turn go.
    pub fn give(&self, seat: &mut Seat<T>, value: T)
        requires lock { IsSeatOf seat.old self.now }
        requires holds { IsHolding seat.old }
        requires name { T.name value ≡ name_of seat.old }
        requires grown { ExtendsBy (number seat.old) (seen seat.old) (T.history value) }
        ensures seen { seen seat.new ≡ T.history value }
        ensures own { own_entries seat.new ≡ entries_of (number seat.old) (T.history value) }
        ensures same { IsSame seat.old seat.new × IsFree seat.new }
        ensures kept { (made seat.new ≡ made seat.old) × (joined seat.new ≡ joined seat.old) }
    {
        let board = &self.table.shared;
        let before = board.exchange(&mut seat.place, VALUE, Some(value));
        let None = before else { unreachable!() };
        let turn = board.fetch_add::<Leave>(&mut seat.place, SERVING, 1);
        wake_waiting(board, turn);
    }

    /// The value at home, once every other seat was joined.
    pub fn close(self, seat: Seat<T>) -> T
        requires lock { IsSeatOf seat self }
        requires first { number seat ≡ 0 }
        requires free { IsFree seat }
        requires all { ListsAll seat }
        ensures name { T.name result ≡ name_of seat }
        ensures grown { Extends (seen seat) (T.history result) }
        ensures own { entries_of 0 (T.history result) ≡ own_entries seat }
        ensures listed { AllCounted (T.history result) (joined seat) }
    {
        let TurnLock { table } = self;
        let Seat { place } = seat;
        let mut closed = table.close_with(place);
        let value = closed.take(VALUE);
        closed.free();
        value.unwrap()
    }
}
