ghost use Rattle.std.specs.Prelude.{◌≡◌, ◌++◌, ◌+◌, [], length, map, flat_map, All, OnOk, IfOk, vec_len};
ghost use Rattle.std.specs.List.{range_with_len};
ghost use Rattle.all_to_all.specs.Posts.{state_of, IsPostOf, ArePostsOf};
ghost use Rattle.all_to_all.specs.Exchanging.{HaveSentParcels, CanSettleParcels};
ghost use Rattle.all_to_all.specs.Handed.{EachHasTokens, HasSentToAll, all_carried, sent_for, with_sent};

use crate::laws::each_other_sent_one;
use crate::outgoing::Token;
use crate::post::Post;
use let_inbox::{Inbox, Named, Spent, others_are_the_sources, others_grow, others_stand_in_turn};
use pf_num::OutOfMemory;
use std::alloc::Global;
use std::mem;

/// The tokens of what was put for each rank, by rank, when every rank has sent.
pub fn tokens_for<M: Named + Drop>(
    alloc: Global,
    inboxes: &[Inbox<M>],
    posts: &mut [Post<M>],
) -> Result<Vec<Vec<Spent<M>>>, OutOfMemory>
    requires of_inboxes { ArePostsOf M.source M.target M.has_terms inboxes.now posts.old }
    requires sent { All (HasSentToAll M.target (length inboxes.now)) posts.old }
    ensures of_inboxes { OnOk result (ArePostsOf M.source M.target M.has_terms inboxes.now posts.new) }
    ensures posts { OnOk result (map state_of posts.new ≡ map (λ p. record (state_of p) { sent = [] }) posts.old) }
    ensures tokens { IfOk result (λ lists.
        EachHasTokens M.source inboxes.now (length inboxes.now) (map (λ l. l.items) lists.items)) }
    ensures carried { IfOk result (λ lists. map (λ l. all_carried l.items) lists.items
        ≡ map (λ rank. flat_map (sent_for M.target rank) posts.old) (range_with_len 0 (length inboxes.now))) }
{
    let mut lists = no_tokens(alloc, inboxes)?;
    for post in posts.iter_mut() {
        post.hand_over(alloc, inboxes, &mut lists)?;
    }
    Ok(lists)
}

/// The posts when each rank has sent each other one parcel, and the tokens of the parcels that were sent to each.
pub fn with_tokens<M: Named + Drop>(
    alloc: Global,
    inboxes: &[Inbox<M>],
    mut posts: Vec<Post<M>>,
) -> Result<(Vec<Post<M>>, Vec<Vec<Spent<M>>>), OutOfMemory>
    requires counted { length posts.items ≡ length inboxes.now }
    requires sent { HaveSentParcels M.source M.target M.has_terms inboxes.now posts.items }
    ensures posts { IfOk result (λ b. length b.0.items ≡ length inboxes.now) }
    ensures tokens { IfOk result (λ b. length b.1.items ≡ length inboxes.now) }
    ensures settle { IfOk result (λ b.
        CanSettleParcels M.source M.target M.has_terms inboxes.now posts.items b.0.items b.1.items) }
{
    each_other_sent_one::<M>();
    let tokens = tokens_for(alloc, inboxes, &mut posts)?;
    Ok((posts, tokens))
}

/// For each rank a list without tokens, to which those of all posts are handed over, by rank.
pub fn no_tokens<M: Named + Drop>(
    alloc: Global,
    inboxes: &[Inbox<M>],
) -> Result<Vec<Vec<Spent<M>>>, OutOfMemory>
    ensures tokens { IfOk result (λ lists. EachHasTokens M.source inboxes.now 0 (map (λ l. l.items) lists.items)) }
    ensures empty { IfOk result (λ lists. All (λ l. l.items ≡ []) lists.items) }
{
    let mut lists = Vec::with_capacity(alloc, inboxes.len())?;
    for _inbox in inboxes {
        lists.push(Vec::with_capacity(alloc, inboxes.len() - 1)?)?;
    }
    Ok(lists)
}

impl<M: Named + Drop> Post<M> {
    /// Adds the tokens of what a rank sent to the lists of the ranks that it sent it to.
    pub fn hand_over(
        &mut self,
        alloc: Global,
        inboxes: &[Inbox<M>],
        lists: &mut [Vec<Spent<M>>],
    ) -> Result<(), OutOfMemory>
        requires of_inboxes { IsPostOf M.source M.target M.has_terms inboxes.now self.old }
        requires sent { HasSentToAll M.target (length inboxes.now) self.old }
        requires tokens { EachHasTokens M.source inboxes.now (state_of self.old).rank (map (λ l. l.items) lists.old) }
        ensures of_inboxes { OnOk result (IsPostOf M.source M.target M.has_terms inboxes.now self.new) }
        ensures post { OnOk result (state_of self.new ≡ record (state_of self.old) { sent = [] }) }
        ensures tokens { OnOk result (EachHasTokens M.source inboxes.now ((state_of self.old).rank + 1)
            (map (λ l. l.items) lists.new)) }
        ensures carried { OnOk result (map (λ l. all_carried l.items) lists.new
            ≡ map (with_sent M.target self.old (map (λ l. l.items) lists.old))
            (range_with_len 0 (length inboxes.now))) }
    {
        others_are_the_sources();
        others_stand_in_turn();
        others_grow();
        let tokens = mem::replace(&mut self.outgoing.tokens, Vec::new(alloc));
        for Token { target, spent } in tokens {
            lists[target as usize].push(spent)?;
        }
        Ok(())
    }
}
