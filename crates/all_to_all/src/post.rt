ghost use Rattle.std.specs.Prelude.{◌≡◌, ◌++◌, [], length, map, flat_map, All, IsPermutation, OnOk};
ghost use Rattle.let_inbox.specs.Sources.{others};
ghost use Rattle.let_inbox.specs.Tokens.{carried};
ghost use Rattle.all_to_all.specs.Arrivals.{Extends, HaveCome, NothingLay};
ghost use Rattle.all_to_all.specs.Posts.{state_of, IsPostOf, KeepsSources};
ghost use Rattle.all_to_all.specs.Handed.{AreTokensFor};

use crate::incoming::Incoming;
use crate::outgoing::Outgoing;
use let_inbox::{Inbox, Named, Spent, taken};
use std::sync::Wait;

/// What a rank holds of the inboxes of one exchange: the taker of its own inbox, a putter for each other rank's, the
/// tokens of what it put, and the parcels that it took.
#[derive(Drop)]
pub struct Post<M> {
    pub(crate) rank: u32,
    pub(crate) incoming: Incoming<M>,
    pub(crate) outgoing: Outgoing<M>,
}

impl<M: Named + Drop> Post<M> {
    /// Puts the parcels of a rank, one for each other rank, by rank. It takes no memory.
    pub fn send<R: Wait>(&mut self, rt: &R, inboxes: &[Inbox<M>], parcels: Vec<M>)
        requires of_inboxes { IsPostOf M.source M.target M.has_terms inboxes.now self.old }
        requires targets { map M.target parcels.items ≡ (state_of self.old).unsent }
        requires sources { All (λ m. M.source m ≡ (state_of self.old).rank) parcels.items }
        requires terms { All M.has_terms parcels.items }
        ensures of_inboxes { IsPostOf M.source M.target M.has_terms inboxes.now self.new }
        ensures sent { state_of self.new
            ≡ record (state_of self.old) { unsent = []; sent = (state_of self.old).sent ++ parcels.items } }
    {
        for parcel in parcels {
            self.outgoing.put_next(rt, inboxes, parcel);
        }
    }

    /// Takes what has come so far, until the inbox held nothing at a step of this call. It takes no memory.
    pub fn receive<R: Wait>(&mut self, rt: &R, inboxes: &[Inbox<M>])
        requires { IsPostOf M.source M.target M.has_terms inboxes.now self.old }
        ensures of_inboxes { IsPostOf M.source M.target M.has_terms inboxes.now self.new }
        ensures received { state_of self.new
            ≡ record (state_of self.old) { received = (state_of self.new).received } }
        ensures more { Extends (state_of self.old).received (state_of self.new).received }
        ensures nothing { NothingLay M.source M.target M.has_terms (state_of self.new).received }
        ensures came { HaveCome M.source M.target M.has_terms
            (state_of self.new).rank (length inboxes.now) (state_of self.new).received }
    {
        self.incoming.take_all(rt, &inboxes[self.rank as usize]);
    }

    /// Takes all the rest, given the tokens of all that was put for this rank. It takes no memory.
    pub fn settle<R: Wait>(&mut self, rt: &R, inboxes: &[Inbox<M>], tokens: Vec<Spent<M>>)
        requires of_inboxes { IsPostOf M.source M.target M.has_terms inboxes.now self.old }
        requires unsettled { (state_of self.old).settled ≡ [] }
        requires tokens { AreTokensFor M.source inboxes.now (state_of self.old).rank tokens.items }
        ensures of_inboxes { IsPostOf M.source M.target M.has_terms inboxes.now self.new }
        ensures settled { state_of self.new ≡ record (state_of self.old) {
          received = (state_of self.new).received;
          settled = flat_map carried tokens.items;
        } }
        ensures more { Extends (state_of self.old).received (state_of self.new).received }
        ensures all { IsPermutation (flat_map carried tokens.items) (state_of self.new).received }
        ensures sources { IsPermutation (others (state_of self.old).rank (length inboxes.now))
            (map M.source (state_of self.new).received) }
        ensures came { HaveCome M.source M.target M.has_terms
            (state_of self.new).rank (length inboxes.now) (state_of self.new).received }
    {
        self.incoming
            .settle(rt, &inboxes[self.rank as usize], tokens);
    }

    /// The rank whose post it is.
    pub fn rank(&self) -> u32
        ensures { result ≡ (state_of self.now).rank }
    {
        self.rank
    }

    /// The ranks from which parcels were taken, in order.
    pub fn sources(&self) -> &[u32]
        requires { KeepsSources M.source self.now }
        ensures { result.now ≡ map M.source (state_of self.now).received }
    {
        taken(&self.incoming.taker)
    }

    /// The parcels taken, in order.
    pub fn parcels(&self) -> &[M]
        ensures { result.now ≡ (state_of self.now).received }
    {
        self.incoming.parcels.as_slice()
    }

    /// The parcels taken, in order.
    pub fn into_parcels(self) -> Vec<M>
        ensures { result.items ≡ (state_of self).received }
    {
        self.incoming.parcels
    }
}
