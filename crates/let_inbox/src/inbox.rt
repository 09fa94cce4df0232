ghost use Rattle.std.specs.Prelude.{◌≡◌, ◌<◌, ◌≤◌, ◌-◌};
ghost use Rattle.crossbeam_queue.specs.Passes.{view, IsPassOf, ruled_capacity};
ghost use Rattle.let_inbox.specs.Sources.{others};
ghost use Rattle.let_inbox.specs.Rule.{opening_view, fresh_view};

use crate::named::Named;
use crate::rule::{Knows, Opens, PassView, Place, Puts, Queue, SplitOff, TakeIn, Takes};
use crate::tokens::{Putter, Spent, Taker};
use crossbeam_queue::Pass;
use pf_num::OutOfMemory;
use std::alloc::Global;
use std::marker::Brand;
use std::sync::Wait;

/// The parcels on their way to one rank.
#[derive(Drop)]
pub struct Inbox<M: Named + Drop> {
    dst: u32,
    ranks: u32,
    queue: Queue<M>,
    ghost within: { dst < ranks },
    ghost room: { ranks - 1 ≤ ruled_capacity queue },
}

// The first pass becomes the taker's, with every source.
fn open_pass<M: Named + Drop, N: Place>(
    queue: &Queue<M>,
    pass: &mut Pass<M, PassView<M>>,
    dst: u32,
    ranks: u32,
)
    requires within { dst < ranks }
    requires place { (N.rank ≡ dst) × (N.ranks ≡ ranks) }
    requires of_queue { IsPassOf queue.now pass.old }
    requires opens { view pass.old ≡ opening_view }
    ensures of_queue { IsPassOf queue.now pass.new }
    ensures fresh { view pass.new ≡ fresh_view dst ranks (others dst ranks) }
{
    queue.another::<Opens<N>>(pass);
}

impl<M: Named + Drop> Inbox<M> {
    ghost use Rattle.std.specs.Prelude.{◌≡◌, ℕ, ◌<◌, ◌++◌, ◌∷◌, ◌↔◌, [], map, flat_map, All, Contains};
    ghost use Rattle.std.specs.Prelude.{IfOk, IfSome, IfNone, IsNone};
    ghost use Rattle.crossbeam_queue.specs.Passes.{view, IsPassOf};
    ghost use Rattle.let_inbox.specs.Sources.{IsSource, times, others};
    ghost use Rattle.let_inbox.specs.Rule.{fresh_view, Found};
    ghost use Rattle.let_inbox.specs.Tokens.{rank_of, ranks_of, source_of, carried, spent_source, taken_by, settled_by};
    ghost use Rattle.let_inbox.specs.Tokens.{IsPutterOf, IsSpentOf, IsTakerOf, IsSettled, HasTakenAll};

    /// The inbox of rank `dst` among `ranks`, its taker, and a putter for each other rank, by rank.
    pub fn open(
        alloc: Global,
        dst: u32,
        ranks: u32,
    ) -> Result<(Inbox<M>, Taker<M>, Vec<Putter<M>>), OutOfMemory>
        requires { dst < ranks }
        ensures place { IfOk result (λ r. (rank_of r.0 ≡ dst) × (ranks_of r.0 ≡ ranks)) }
        ensures taker { IfOk result (λ r. IsTakerOf M.source r.0 r.1) }
        ensures fresh { IfOk result (λ r. (taken_by r.1 ≡ []) × (settled_by r.1 ≡ [])) }
        ensures putters { IfOk result (λ r. All (IsPutterOf r.0) r.2.items) }
        ensures sources { IfOk result (λ r. map source_of r.2.items ≡ others dst ranks) }
    {
        let sources = ranks - 1;
        let arrivals = Vec::with_capacity(alloc, sources as usize)?;
        let (queue, mut pass) = Queue::<M>::ruled(alloc, sources.max(1) as usize)?;
        open_pass::<M, Brand>(&queue, &mut pass, dst, ranks);
        let inbox = Inbox { dst, ranks, queue };
        let putters = inbox.make_putters(alloc, &mut pass)?;
        Ok((inbox, Taker { arrivals, pass }, putters))
    }

    // A putter for each source, split off from the taker's pass.
    fn make_putters(
        &self,
        alloc: Global,
        pass: &mut Pass<M, PassView<M>>,
    ) -> Result<Vec<Putter<M>>, OutOfMemory>
        requires of_queue { IsPassOf self.now.queue pass.old }
        requires fresh { view pass.old ≡ fresh_view self.now.dst self.now.ranks (others self.now.dst self.now.ranks) }
        ensures of_queue { IsPassOf self.now.queue pass.new }
        ensures rest { IfOk result (λ _. view pass.new ≡ fresh_view self.now.dst self.now.ranks []) }
        ensures putters { IfOk result (λ ps. All (IsPutterOf self.now) ps.items) }
        ensures sources { IfOk result (λ ps. map source_of ps.items ≡ others self.now.dst self.now.ranks) }
    {
        let mut putters = Vec::new(alloc);
        for source in 0..self.ranks {
            if source == self.dst {
                continue;
            }
            let other = self.queue.another::<SplitOff>(pass);
            putters.push(Putter {
                source,
                pass: other,
            })?;
        }
        Ok(putters)
    }

    /// Puts the one parcel of a source. There is always room for it.
    pub fn put<R: Wait>(&self, rt: &R, p: Putter<M>, m: M) -> Spent<M>
        requires of_inbox { IsPutterOf self.now p }
        requires source { M.source m ≡ source_of p }
        requires target { M.target m ≡ rank_of self.now }
        requires terms { M.has_terms m }
        ensures of_inbox { IsSpentOf M.source self.now result }
        ensures carried { carried result ≡ m ∷ [] }
        ensures source { spent_source result ≡ M.source m }
    {
        let Putter { source, mut pass } = p;
        match self.queue.push_as::<Puts, R>(rt, &mut pass, m) {
            Ok(()) => Spent { source, pass },
            Err(_) => unreachable!(),
        }
    }

    /// The parcel at the front. `None` comes only where the inbox held nothing at a step of this call, and after
    /// `settle` exactly where every source was taken.
    pub fn take<R: Wait>(&self, rt: &R, t: &mut Taker<M>) -> Option<M>
        requires { IsTakerOf M.source self.now t.old }
        ensures of_inbox { IsTakerOf M.source self.now t.new }
        ensures taken { IfSome result (λ m. taken_by t.new ≡ taken_by t.old ++ m ∷ []) }
        ensures target { IfSome result (λ m. M.target m ≡ rank_of self.now) }
        ensures terms { IfSome result (λ m. M.has_terms m) }
        ensures source { IfSome result (λ m. IsSource (rank_of self.now) (ranks_of self.now) (M.source m)) }
        ensures source_new { IfSome result (λ m. times (M.source m) (map M.source (taken_by t.old)) ≡ 0) }
        ensures nothing { IfNone result (Found M.source M.target M.has_terms (view t.old.pass) []) }
        ensures none_taken { IfNone result (taken_by t.new ≡ taken_by t.old) }
        ensures settled { settled_by t.new ≡ settled_by t.old }
        ensures none { IsSettled M.source t.old → (IsNone result ↔ HasTakenAll M.source self.now t.old) }
        ensures carried { IsSettled M.source t.old → IfSome result (λ m. Contains (settled_by t.old) m) }
    {
        match self.queue.pop_as::<Takes, R>(rt, &mut t.pass) {
            Some(m) => {
                t.arrivals.push_reserved(m.src());
                Some(m)
            },
            None => None,
        }
    }

    /// Hands the taker the tokens of all sources. From then on it knows that each parcel that was taken is the
    /// one that its source's token carries.
    pub fn settle(&self, t: &mut Taker<M>, mut spent: Vec<Spent<M>>)
        requires of_inbox { IsTakerOf M.source self.now t.old }
        requires tokens { All (IsSpentOf M.source self.now) spent.items }
        requires every { (s : ℕ) → IsSource (rank_of self.now) (ranks_of self.now) s
            → 0 < times s (map spent_source spent.items) }
        ensures of_inbox { IsTakerOf M.source self.now t.new }
        ensures taken { taken_by t.new ≡ taken_by t.old }
        ensures tokens { settled_by t.new ≡ flat_map carried spent.items ++ settled_by t.old }
        ensures settled { IsSettled M.source t.new }
        ensures carried { All (Contains (settled_by t.new)) (taken_by t.new) }
    {
        while let Some(Spent { pass, .. }) = spent.pop() {
            self.queue.absorb::<TakeIn>(&mut t.pass, pass);
        }
        self.queue.learn_as::<Knows>(&mut t.pass);
    }
}
