// What the inbox's queue keeps at every moment, and what each kind of step does to its passes.
ghost use Rattle.std.specs.Prelude.{ℕ};

use crate::named::Named;
use crossbeam_queue::RuledArrayQueue;
use crossbeam_queue::protocol::{Join, Lesson, Outcome, Protocol, Split};
use std::collections::LinkedList;
use std::marker::{Brand, PhantomData};

// What a pass knows: the inbox's rank and the number of ranks, the sources that it may still put for or split
// off, the parcels that were put by it or by those that it has taken in, and those that it took. No value of it
// is made.
pub struct PassView<M> {
    pub opens: bool,
    pub knows: bool,
    pub takes: bool,
    pub rank: u32,
    pub ranks: u32,
    pub unspent: LinkedList<u32>,
    pub put: LinkedList<M>,
    pub taken: LinkedList<M>,
}

pub struct InboxRule;

impl<M: Named> Protocol<M, PassView<M>> for InboxRule {
    ghost use Rattle.let_inbox.specs.Rule.{opening_view, Kept};

    ghost holds = { Kept M.source M.target M.has_terms };

    ghost first = { opening_view };
}

// The place of an inbox, which contracts alone read.
pub trait Place {
    ghost rank: { ℕ };

    ghost ranks: { ℕ };
}

impl Place for Brand {
    ghost rank = { 0 };

    ghost ranks = { 1 };
}

// The first pass becomes the taker's, with every source.
pub struct Opens<N> {
    of: PhantomData<N>,
}

impl<M: Named, N: Place> Split<PassView<M>> for Opens<N> {
    ghost use Rattle.let_inbox.specs.Sources.{others};
    ghost use Rattle.let_inbox.specs.Rule.{blank_view, fresh_view};

    ghost left = { λ v. fresh_view N.rank N.ranks (others N.rank N.ranks) };

    ghost right = { λ v. blank_view };
}

// A putter's pass that is split off, in `open`.
pub struct SplitOff;

impl<M: Named> Split<PassView<M>> for SplitOff {
    ghost use Rattle.std.specs.Prelude.{drop, slice_index};
    ghost use Rattle.let_inbox.specs.Rule.{fresh_view, putter_view};

    ghost left = { λ v. fresh_view v.rank v.ranks (drop 1 v.unspent) };

    ghost right = { λ v. putter_view v.rank v.ranks (slice_index v.unspent 0) };
}

// A push.
pub struct Puts;

impl<M: Named> Outcome<M, PassView<M>> for Puts {
    ghost use Rattle.std.specs.Prelude.{◌≡◌, [], ◌∷◌};
    ghost use Rattle.let_inbox.specs.Rule.{spent_view};

    ghost then = { λ v x w. w ≡ spent_view v.rank v.ranks (x ∷ []) };
}

impl<M: Named> Lesson<M, PassView<M>> for Puts {
    ghost use Rattle.std.specs.Prelude.{◌<◌, ◌-◌, length};

    ghost fact = { λ v items. length items < v.ranks - 1 };
}

// A pop that gives, and one that finds nothing.
pub struct Takes;

impl<M: Named> Outcome<M, PassView<M>> for Takes {
    ghost use Rattle.let_inbox.specs.Rule.{Took};

    ghost then = { Took M.source M.target M.has_terms };
}

impl<M: Named> Lesson<M, PassView<M>> for Takes {
    ghost use Rattle.let_inbox.specs.Rule.{Found};

    ghost fact = { Found M.source M.target M.has_terms };
}

// A spent pass that the taker's takes in, in `settle`.
pub struct TakeIn;

impl<M: Named> Join<PassView<M>> for TakeIn {
    ghost use Rattle.let_inbox.specs.Rule.{joined_view, blank_view};

    ghost both = { joined_view };

    ghost spent = { blank_view };
}

// What the taker knows once it has taken in all spent passes.
pub struct Knows;

impl<M: Named> Lesson<M, PassView<M>> for Knows {
    ghost use Rattle.std.specs.Prelude.{◌++◌, IsPermutation};

    ghost fact = { λ v items. IsPermutation (items ++ v.taken) v.put };
}

pub type Queue<M> = RuledArrayQueue<M, PassView<M>, InboxRule>;
