ghost use Rattle.std.specs.Prelude.{◌≡◌, ◌<◌, [], true};
ghost use Rattle.claim_board.specs.Rule.{nones_of};

use crate::rule::{BoardRule, Claims, Knows, Opening, SeatView, SplitOff, TakeIn};
use atomic_table::Table;
use pf_num::OutOfMemory;
use std::alloc::Global;

/// The numbers below a total, to be claimed by seats in any thread.
#[derive(Drop)]
pub struct Board {
    table: Table<(), SeatView, Opening, BoardRule, Global>,
    total: u32,
    ghost one_word: { table.shared.table_id.words ≡ 1 },
    ghost opened: { table.shared.key.total ≡ total },
    ghost some_seat: { 0 < table.shared.key.seats },
}

/// A place at a board, which shows the numbers that it claimed and whether it was told that none is left.
#[derive(Drop)]
pub struct Seat {
    told: bool,
    place: atomic_table::Seat<(), SeatView>,
    ghost one_share: { place.me.0.share ≡ 1 },
    ghost told_once: { place.me.0.nones ≡ nones_of told },
    ghost no_slot: { place.me.1 ≡ [] },
}

impl Board {
    ghost use Rattle.std.specs.Prelude.{◌≡◌, ◌<◌, ◌≤◌, ◌++◌, ◌∷◌, [], true, false, length, All, IfOk, IfSome, IfNone, vec_len, flat_map};
    ghost use Rattle.claim_board.specs.Once.{HasEachOnce};
    ghost use Rattle.claim_board.specs.Rule.{fresh_view};
    ghost use Rattle.claim_board.specs.Seats.{total_of, seat_count, claimed_by, was_told, IsSeatOf, IsFresh};

    /// A board for the numbers below `total`, and its seats.
    pub fn open(alloc: Global, total: u32, seats: u32) -> Result<(Board, Vec<Seat>), OutOfMemory>
        requires { 0 < seats }
        ensures total { IfOk result (λ r. total_of r.0 ≡ total) }
        ensures seats { IfOk result (λ r. (seat_count r.0 ≡ seats) × (vec_len r.1 ≡ seats)) }
        ensures of_board { IfOk result (λ r. All (IsSeatOf r.0) r.1.items) }
        ensures fresh { IfOk result (λ r. All IsFresh r.1.items) }
    {
        let opened = Opening { total, seats };
        let (table, place) = Table::of_words(alloc, &[0], &opened)?;
        let board = Board { table, total };
        let seats = board.make_seats(alloc, place, seats)?;
        Ok((board, seats))
    }

    // As many seats as the first one has shares: all others are split off from it.
    fn make_seats(
        &self,
        alloc: Global,
        mut place: atomic_table::Seat<(), SeatView>,
        count: u32,
    ) -> Result<Vec<Seat>, OutOfMemory>
        requires some { 0 < count }
        requires place { place.table_id ≡ self.now.table.shared.table_id }
        requires all { place.me ≡ (fresh_view self.now.total count, []) }
        ensures all { IfOk result (λ seats. vec_len seats ≡ count) }
        ensures of_board { IfOk result (λ seats. All (IsSeatOf self.now) seats.items) }
        ensures fresh { IfOk result (λ seats. All IsFresh seats.items) }
    {
        let mut seats = Vec::with_capacity(alloc, count as usize)?;
        for _given in 1..count {
            let other = self.table.shared.split_seat::<SplitOff>(&mut place);
            seats.push(Seat {
                told: false,
                place: other,
            })?;
        }
        seats.push(Seat { told: false, place })?;
        Ok(seats)
    }

    /// The least number that no seat has claimed yet, by one atomic step. `None` exactly where none was left at
    /// that step. A seat that was told so takes no further step.
    pub fn claim(&self, s: &mut Seat) -> Option<u32>
        requires { IsSeatOf self.now s.old }
        ensures of_board { IsSeatOf self.now s.new }
        ensures claimed { IfSome result (λ n. claimed_by s.new ≡ claimed_by s.old ++ n ∷ []) }
        ensures below { IfSome result (λ n. n < total_of self.now) }
        ensures ascending { IfSome result (λ n. All (λ x. x < n) (claimed_by s.old)) }
        // so claims end
        ensures few { IfSome result (λ n. length (claimed_by s.old) ≤ n) }
        ensures untold { IfSome result (λ _. (was_told s.old ≡ false) × (was_told s.new ≡ false)) }
        ensures told { IfNone result ((was_told s.new ≡ true) × (claimed_by s.new ≡ claimed_by s.old)) }
    {
        if s.told {
            return None;
        }
        let found = self.table.shared.fetch_add::<Claims>(&mut s.place, 0, 1);
        if found < u64::from(self.total) {
            return Some(found as u32);
        }
        s.told = true;
        None
    }

    // One place that has taken in those of all seats. They are taken in from the last, so that their numbers
    // stand in the order of the seats.
    fn join_seats(&self, mut seats: Vec<Seat>) -> atomic_table::Seat<(), SeatView>
        requires some { 0 < vec_len seats }
        requires of_board { All (IsSeatOf self.now) seats.items }
        requires told { All (λ s. was_told s ≡ true) seats.items }
        ensures of_board { (result.table_id ≡ self.now.table.shared.table_id) × (result.me.0.total ≡ self.now.total) }
        ensures shares { result.me.0.share ≡ vec_len seats }
        ensures claimed { result.me.0.claimed ≡ flat_map claimed_by seats.items }
        ensures told { 0 < result.me.0.nones }
    {
        let Some(Seat { mut place, .. }) = seats.pop() else {
            unreachable!()
        };
        while let Some(Seat { place: other, .. }) = seats.pop() {
            self.table.shared.join_seat::<TakeIn>(&mut place, other);
        }
        place
    }

    /// Ends the board. All its seats, each told that no number is left, have together claimed the numbers below
    /// the total, each once.
    pub fn close(self, seats: Vec<Seat>)
        requires all { vec_len seats ≡ seat_count self }
        requires of_board { All (IsSeatOf self) seats.items }
        requires told { All (λ s. was_told s ≡ true) seats.items }
        ensures { HasEachOnce (total_of self) (flat_map claimed_by seats.items) }
    {
        let mut place = self.join_seats(seats);
        self.table.shared.load::<Knows>(&mut place, 0);
    }
}
