// What the board's table keeps at every moment, and what each kind of step does to the seats.
use atomic_table::{Join, Play, Split, TableRule};
use std::collections::LinkedList;

// What a board was opened with.
#[derive(Drop)]
pub struct Opening {
    pub total: u32,
    pub seats: u32,
}

// What a seat knows: the numbers that it claimed, how often it was told that none is left, and its share of
// the seats that were opened. No value of it is made.
pub struct SeatView {
    pub total: u32,
    pub share: u32,
    pub claimed: LinkedList<u32>,
    pub nones: u32,
}

pub struct BoardRule;

impl TableRule<(), SeatView, Opening> for BoardRule {
    ghost use Rattle.claim_board.specs.Rule.{fresh_view, Kept};

    ghost holds = { Kept };

    ghost first = { λ o. fresh_view o.total o.seats };
}

// A claim.
pub struct Claims;

impl Play<(), SeatView> for Claims {
    ghost use Rattle.claim_board.specs.Rule.{claims};

    ghost then = { claims };
}

// A look at the word by a seat that has taken in all others.
pub struct Knows;

impl Play<(), SeatView> for Knows {
    ghost use Rattle.claim_board.specs.Rule.{knows};

    ghost then = { knows };
}

// A seat that is split off, in `open`.
pub struct SplitOff;

impl Split<SeatView> for SplitOff {
    ghost use Rattle.std.specs.Prelude.{◌-◌};
    ghost use Rattle.claim_board.specs.Rule.{fresh_view};

    ghost left = { λ v. fresh_view v.total (v.share - 1) };

    ghost right = { λ v. fresh_view v.total 1 };
}

// A seat that takes in another.
pub struct TakeIn;

impl Join<SeatView> for TakeIn {
    ghost use Rattle.claim_board.specs.Rule.{joined_view, spent_view};

    ghost both = { joined_view };

    ghost spent = { spent_view };
}
