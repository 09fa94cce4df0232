ghost use Rattle.std.specs.Prelude.{◌≡◌, ◌++◌, ◌∷◌, [], drop, OnOk, length};
ghost use Rattle.let_inbox.specs.Sources.{others};
ghost use Rattle.all_to_all.specs.Outgoing.{IsOutgoingOf, unsent_of, sent_of};

use let_inbox::{Inbox, Named, Putter, Spent};
use std::sync::Wait;

// What a rank holds of the other ranks' inboxes: the right to put, and the tokens of what it put.
#[derive(Drop)]
pub(crate) struct Outgoing<M> {
    // the last is for the lowest rank
    pub(crate) unsent: Vec<ToSend<M>>,
    pub(crate) tokens: Vec<Token<M>>,
}

// The right to put the parcel for a rank.
#[derive(Drop)]
pub(crate) struct ToSend<M> {
    pub(crate) target: u32,
    pub(crate) putter: Putter<M>,
}

// What is left of it.
#[derive(Drop)]
pub(crate) struct Token<M> {
    pub(crate) target: u32,
    pub(crate) spent: Spent<M>,
}

impl<M: Named + Drop> Outgoing<M> {
    // Puts the parcel for the next rank.
    pub(crate) fn put_next<R: Wait>(&mut self, rt: &R, inboxes: &[Inbox<M>], parcel: M)
        requires of_inboxes { IsOutgoingOf M.source M.target (length inboxes.now) inboxes.now
            (M.source parcel) self.old }
        requires target { unsent_of self.old ≡ M.target parcel ∷ drop 1 (unsent_of self.old) }
        requires terms { M.has_terms parcel }
        ensures of_inboxes { IsOutgoingOf M.source M.target (length inboxes.now) inboxes.now
            (M.source parcel) self.new }
        ensures unsent { unsent_of self.new ≡ drop 1 (unsent_of self.old) }
        ensures sent { sent_of self.new ≡ sent_of self.old ++ parcel ∷ [] }
    {
        let Some(ToSend { target, putter }) = self.unsent.pop() else {
            unreachable!()
        };
        let spent = inboxes[target as usize].put(rt, putter, parcel);
        self.tokens.push_reserved(Token { target, spent });
    }
}
