ghost use Rattle.std.specs.Prelude.{◌≡◌, [], flat_map, All, IsPermutation};
ghost use Rattle.let_inbox.specs.Tokens.{carried, settled_by, IsSettled};
ghost use Rattle.all_to_all.specs.Arrivals.{Extends, NothingLay, AreTokensOf};
ghost use Rattle.all_to_all.specs.Incoming.{IsIncomingOf};

use let_inbox::{Inbox, Named, Spent, Taker, others_are_the_sources};
use std::sync::Wait;

// What a rank holds of its own inbox: the taker, and the parcels that it took.
#[derive(Drop)]
pub(crate) struct Incoming<M> {
    pub(crate) taker: Taker<M>,
    pub(crate) parcels: Vec<M>,
}

impl<M: Named + Drop> Incoming<M> {
    // Takes what lies in the inbox.
    pub(crate) fn take_all<R: Wait>(&mut self, rt: &R, inbox: &Inbox<M>)
        requires { IsIncomingOf M.source M.target M.has_terms inbox.now self.old }
        ensures of_inbox { IsIncomingOf M.source M.target M.has_terms inbox.now self.new }
        ensures settled { settled_by self.new.taker ≡ settled_by self.old.taker }
        ensures more { Extends self.old.parcels.items self.new.parcels.items }
        ensures nothing { NothingLay M.source M.target M.has_terms self.new.parcels.items }
        ensures all { IsSettled M.source self.old.taker
            → IsPermutation (settled_by self.old.taker) self.new.parcels.items }
    {
        while let Some(parcel) = inbox.take(rt, &mut self.taker) {
            self.parcels.push_reserved(parcel);
        }
    }

    // Takes all the rest, given the tokens of all sources.
    pub(crate) fn settle<R: Wait>(&mut self, rt: &R, inbox: &Inbox<M>, tokens: Vec<Spent<M>>)
        requires of_inbox { IsIncomingOf M.source M.target M.has_terms inbox.now self.old }
        requires unsettled { settled_by self.old.taker ≡ [] }
        requires tokens { AreTokensOf M.source inbox.now tokens.items }
        ensures of_inbox { IsIncomingOf M.source M.target M.has_terms inbox.now self.new }
        ensures settled { settled_by self.new.taker ≡ flat_map carried tokens.items }
        ensures more { Extends self.old.parcels.items self.new.parcels.items }
        ensures all { IsPermutation (flat_map carried tokens.items) self.new.parcels.items }
    {
        others_are_the_sources();
        inbox.settle(&mut self.taker, tokens);
        self.take_all(rt, inbox);
    }
}
