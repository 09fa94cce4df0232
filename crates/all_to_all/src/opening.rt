ghost use Rattle.std.specs.Prelude.{◌≡◌, ◌+◌, ◌<◌, length, map, IfOk, OnOk, vec_len};
ghost use Rattle.std.specs.List.{range_with_len};
ghost use Rattle.all_to_all.specs.Posts.{state_of, fresh_state, ArePostsOf};
ghost use Rattle.all_to_all.specs.Exchanging.{EachByRank, IsFresh};
ghost use Rattle.all_to_all.specs.Opening.{IsOpenTo, IsHandedOut, IsColumnOf};

use crate::incoming::Incoming;
use crate::outgoing::{Outgoing, ToSend};
use crate::post::Post;
use let_inbox::{Inbox, Named, Putter, others_are_few, others_stand_in_turn};
use pf_num::OutOfMemory;
use std::alloc::Global;

// The inboxes of ranks, their posts, and the putters that aren't handed out to the posts yet.
#[derive(Drop)]
struct Opening<M: Named + Drop> {
    inboxes: Vec<Inbox<M>>,
    posts: Vec<Post<M>>,
    columns: Vec<Column<M>>,
}

// The putters of an inbox.
#[derive(Drop)]
struct Column<M> {
    target: u32,
    putters: Vec<Putter<M>>,
}

/// The inboxes of all ranks, and each rank's post, by rank. All the memory that the posts need is taken here.
pub fn open<M: Named + Drop>(
    alloc: Global,
    ranks: u32,
) -> Result<(Vec<Inbox<M>>, Vec<Post<M>>), OutOfMemory>
    ensures inboxes { IfOk result (λ r. vec_len r.0 ≡ ranks) }
    ensures of_inboxes { IfOk result (λ r. ArePostsOf M.source M.target M.has_terms r.0.items r.1.items) }
    ensures fresh { IfOk result (λ r. map state_of r.1.items
        ≡ map (λ rank. fresh_state rank ranks) (range_with_len 0 ranks)) }
    ensures posts { IfOk result (λ r. length r.1.items ≡ ranks) }
    ensures each { IfOk result (λ r.
        EachByRank (IsFresh M.source M.target M.has_terms r.0.items) r.1.items) }
{
    let mut opening = Opening {
        inboxes: Vec::with_capacity(alloc, ranks as usize)?,
        posts: Vec::with_capacity(alloc, ranks as usize)?,
        columns: Vec::with_capacity(alloc, ranks as usize)?,
    };
    for rank in 0..ranks {
        opening.open_inbox(alloc, rank, ranks)?;
    }
    while let Some(column) = opening.columns.pop() {
        opening.hand_out(column)?;
    }
    Ok((opening.inboxes, opening.posts))
}

impl<M: Named + Drop> Opening<M> {
    // Opens the inbox of the next rank.
    fn open_inbox(&mut self, alloc: Global, rank: u32, ranks: u32) -> Result<(), OutOfMemory>
        requires within { rank < ranks }
        requires before { IsOpenTo M.source M.target M.has_terms rank ranks
            self.old.inboxes.items self.old.posts.items self.old.columns.items }
        ensures after { IfOk result (λ _. IsOpenTo M.source M.target M.has_terms (rank + 1) ranks
            self.new.inboxes.items self.new.posts.items self.new.columns.items) }
    {
        let others = ranks as usize - 1;
        let (inbox, taker, putters) = Inbox::open(alloc, rank, ranks)?;
        let incoming = Incoming {
            taker,
            parcels: Vec::with_capacity(alloc, others)?,
        };
        let outgoing = Outgoing {
            unsent: Vec::with_capacity(alloc, others)?,
            tokens: Vec::with_capacity(alloc, ranks as usize)?,
        };
        self.inboxes.push(inbox)?;
        self.posts.push(Post {
            rank,
            incoming,
            outgoing,
        })?;
        self.columns.push(Column {
            target: rank,
            putters,
        })?;
        Ok(())
    }

    // Hands the putters of an inbox to the posts of the other ranks.
    fn hand_out(&mut self, column: Column<M>) -> Result<(), OutOfMemory>
        requires column { IsColumnOf (vec_len self.old.inboxes) self.old.inboxes.items column }
        requires above { IsHandedOut M.source M.target M.has_terms (column.target + 1)
            self.old.inboxes.items self.old.posts.items }
        ensures here { OnOk result (IsHandedOut M.source M.target M.has_terms column.target
            self.new.inboxes.items self.new.posts.items) }
        ensures inboxes { self.new.inboxes ≡ self.old.inboxes }
        ensures rest { self.new.columns ≡ self.old.columns }
    {
        others_stand_in_turn();
        others_are_few();
        let Column { target, putters } = column;
        let mut putters = putters.into_iter();
        for post in self.posts.iter_mut() {
            if post.rank == target {
                continue;
            }
            let Some(putter) = putters.next() else {
                unreachable!()
            };
            post.outgoing.unsent.push(ToSend { target, putter })?;
        }
        Ok(())
    }
}
