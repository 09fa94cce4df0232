ghost use Rattle.std.specs.Prelude.{◌≡◌, ◌<◌, ◌+◌, ◌^◌, [], ◌++◌, IfOk, OnOk, OnErr, IsSome, None, take, length};
ghost use Rattle.std.specs.Prelude.{replicate};
ghost use Rattle.step_core.specs.declared.event.Event.TheVariants.{Put, Take, Claim, Finish};
ghost use Rattle.step_core.specs.Core.{inbox_of, arrivals_of, held_by, is_put, has_every_arrival, started, after};

use crate::sequence::Sequence;
use pf_num::OutOfMemory;
use std::alloc::Global;
use std::marker::Model;

// What has happened so far: the state of the core.
#[derive(Drop)]
pub(crate) struct Progress {
    inboxes: Vec<Sequence<u32>>,
    arrivals: Vec<Sequence<u32>>,
    put: Vec<(u32, u32)>,
    claims: u32,
    held: Vec<Option<u32>>,
    finished: Vec<u32>,
}

impl Model for Progress {
    ghost use Rattle.step_core.specs.Core.{CoreState};

    ghost Value = { CoreState };

    ghost view = { λ p. record {
      inboxes = p.inboxes.items;
      arrivals = p.arrivals.items;
      put = p.put.items;
      claims = p.claims;
      held = p.held.items;
      finished = p.finished.items;
    } };
}

impl Progress {
    // Nothing is put, claimed or finished.
    pub(crate) fn start(alloc: Global, ranks: u32, workers: u32) -> Result<Progress, OutOfMemory>
        ensures { IfOk result (λ progress. progress ≡ started ranks workers) }
    {
        Ok(Progress {
            inboxes: empty_lists(alloc, ranks)?,
            arrivals: empty_lists(alloc, ranks)?,
            put: Vec::new(alloc),
            claims: 0,
            held: Vec::from_elem(alloc, None, workers as usize)?,
            finished: Vec::new(alloc),
        })
    }

    // The number of claims.
    pub(crate) fn claims(&self) -> u32
        ensures { result ≡ self.now.claims }
    {
        self.claims
    }

    // The finished groups, in order.
    pub(crate) fn finished(&self) -> &[u32]
        ensures { result.now ≡ self.now.finished }
    {
        &self.finished
    }

    // The sources that a rank has taken, in order. A number past the ranks has none.
    pub(crate) fn arrivals(&self, rank: u32) -> &[u32]
        ensures { result.now ≡ arrivals_of self.now rank }
    {
        match self.arrivals.get(rank as usize) {
            Some(arrivals) => arrivals.as_slice(),
            None => &[],
        }
    }

    // Whether the source was put for the destination.
    pub(crate) fn is_put(&self, src: u32, dst: u32) -> bool
        ensures { result ≡ is_put self.now src dst }
    {
        self.put.iter().any(|pair| pair.0 == src && pair.1 == dst)
    }

    // How many sources a rank's inbox has. A number past the ranks has no inbox.
    pub(crate) fn inbox_len(&self, rank: u32) -> usize
        ensures { result ≡ length (inbox_of self.now rank) }
    {
        match self.inboxes.get(rank as usize) {
            Some(inbox) => inbox.as_slice().len(),
            None => 0,
        }
    }

    // Whether every other rank is among the arrivals of a rank.
    pub(crate) fn has_every_arrival(&self, ranks: u32, rank: u32) -> bool
        ensures { result ≡ has_every_arrival self.now ranks rank }
    {
        let arrivals = self.arrivals(rank);
        (0..ranks).all(|other| other == rank || arrivals.contains(&other))
    }

    // The group that a worker holds, if it holds one.
    pub(crate) fn held_by(&self, worker: u32) -> Option<u32>
        ensures { result ≡ held_by self.now worker }
    {
        match self.held.get(worker as usize) {
            Some(held) => *held,
            None => None,
        }
    }

    // Puts a source at the back of an inbox. After a refusal all is as before.
    pub(crate) fn put(&mut self, src: u32, dst: u32) -> Result<(), OutOfMemory>
        requires { dst < length self.old.inboxes }
        ensures ok { OnOk result (self.new ≡ after self.old (Put src dst)) }
        ensures err { OnErr result (self.new ≡ self.old) }
    {
        self.put.reserve(1)?;
        self.inboxes[dst as usize].push(src)?;
        self.put.push_reserved((src, dst));
        Ok(())
    }

    // The arrivals of a rank with the front of its inbox behind them.
    pub(crate) fn with_next_arrival(
        &self,
        alloc: Global,
        rank: u32,
    ) -> Result<Sequence<u32>, OutOfMemory>
        requires { 0 < length (inbox_of self.now rank) }
        ensures { IfOk result (λ arrivals. arrivals
            ≡ arrivals_of self.now rank ++ take 1 (inbox_of self.now rank)) }
    {
        let mut arrivals = Vec::from_slice(alloc, self.arrivals(rank))?;
        arrivals.push(self.inboxes[rank as usize].as_slice()[0])?;
        Ok(Sequence::from_vec(arrivals))
    }

    // Takes the front of an inbox, which gives the rank these arrivals.
    pub(crate) fn take(&mut self, rank: u32, arrivals: Sequence<u32>)
        requires inbox { 0 < length (inbox_of self.old rank) }
        requires rank { rank < length self.old.arrivals }
        requires arrivals { arrivals ≡ arrivals_of self.old rank ++ take 1 (inbox_of self.old rank) }
        ensures { self.new ≡ after self.old (Take rank) }
    {
        self.inboxes[rank as usize].drop_front();
        self.arrivals[rank as usize] = arrivals;
    }

    // Gives a worker the next group.
    pub(crate) fn claim(&mut self, worker: u32)
        requires worker { worker < length self.old.held }
        requires few { self.old.claims + 1 < 2 ^ 32 }
        ensures { self.new ≡ after self.old (Claim worker) }
    {
        self.held[worker as usize] = Some(self.claims);
        self.claims += 1;
    }

    // Finishes the group that a worker holds. After a refusal all is as before.
    pub(crate) fn finish(&mut self, worker: u32) -> Result<(), OutOfMemory>
        requires { IsSome (held_by self.old worker) }
        ensures ok { OnOk result (self.new ≡ after self.old (Finish worker)) }
        ensures err { OnErr result (self.new ≡ self.old) }
    {
        if let Some(group) = self.held_by(worker) {
            self.finished.push(group)?;
            self.held[worker as usize] = None;
        }
        Ok(())
    }
}

// So many empty lists.
fn empty_lists(alloc: Global, count: u32) -> Result<Vec<Sequence<u32>>, OutOfMemory>
    ensures { IfOk result (λ lists. lists.items ≡ replicate count []) }
{
    let mut lists = Vec::with_capacity(alloc, count as usize)?;
    for _ in 0..count {
        lists.push(Sequence::new(alloc))?;
    }
    Ok(lists)
}
