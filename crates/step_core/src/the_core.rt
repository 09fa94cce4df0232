ghost use Rattle.std.specs.Prelude.{◌≡◌, ◌<◌, IsTrue, IfOk, IfSome, OnOk, OnErr, Some, All, is_some, length};
ghost use Rattle.std.specs.Prelude.{slice_get};
ghost use Rattle.step_core.specs.Core.{IsSettings, StandingCore, opened, left_by, start, ranks_of, numbered_groups};
ghost use Rattle.step_core.specs.Core.{arrivals_of};
ghost use Rattle.step_core.specs.Core.{is_ready, next_group, is_legal, are_legal, after, partial_lists};

use crate::event::Event;
use crate::progress::Progress;
use crate::scene::Scene;
use crate::sequence::Sequence;
use crate::setup::Setup;
use model_laws::groups_are_few;
use pf_model::Entry;
use pf_num::OutOfMemory;
use std::alloc::Global;
use std::marker::Model;

/// The core of a build: what is put, taken, claimed and finished so far, and the partial list of each group. A group's
/// partial list is its interaction list limited to its own rank and those whose essential trees this rank has taken.
#[derive(Drop)]
pub struct Core {
    scene: Scene,
    progress: Progress,
    lists: Vec<Sequence<Entry>>,
}

impl Model for Core {
    ghost use Rattle.step_core.specs.Core.{StandingCore};
    ghost use Rattle.step_core.specs.Plain.{IsKeptCore};

    ghost Value = { StandingCore };

    ghost view = { λ c. record { settings = c.scene; state = c.progress } };

    ghost invariant = { λ c. IsKeptCore c.scene c.progress c.lists.items };
}

impl Core {
    /// The core before any event: nothing is put, claimed or finished. The setup has at most `MOST_PARTICLES` bodies of
    /// distinct ids, a group limit from 1 to `MOST_GROUP` and 1 to `MOST_WORKERS` workers.
    pub fn open(alloc: Global, s: Setup) -> Result<Core, OutOfMemory>
        requires { IsSettings s }
        ensures { IfOk result (λ core. core ≡ opened s) }
    {
        let scene = Scene::open(alloc, s)?;
        let progress = Progress::start(alloc, scene.ranks(), scene.workers())?;
        let lists = scene.first_lists(alloc)?;
        Ok(Core {
            scene,
            progress,
            lists,
        })
    }

    /// Whether an event is legal now. It takes no memory.
    pub fn legal(&self, e: Event) -> bool
        ensures { result ≡ is_legal self.now.settings self.now.state e }
    {
        let ranks = self.scene.ranks();
        match e {
            Event::Put(src, dst) => {
                src < ranks && dst < ranks && src != dst && !self.progress.is_put(src, dst)
            }
            Event::Take(rank) => self.progress.inbox_len(rank) > 0,
            Event::Claim(worker) => {
                worker < self.scene.workers()
                    && self.progress.held_by(worker).is_none()
                    && self.next_is_ready()
            }
            Event::Finish(worker) => self.progress.held_by(worker).is_some(),
        }
    }

    // Whether a group is left to claim, and its rank has every arrival.
    fn next_is_ready(&self) -> bool
        ensures { result ≡ is_ready self.now.settings self.now.state (next_group self.now.settings self.now.state) }
    {
        match self.scene.site(self.progress.claims()) {
            Some(site) => self
                .progress
                .has_every_arrival(self.scene.ranks(), site.rank),
            None => false,
        }
    }

    /// Carries out a legal event. After a refusal the core is as before.
    pub fn apply(&mut self, alloc: Global, e: Event) -> Result<(), OutOfMemory>
        requires { IsTrue (is_legal self.old.settings self.old.state e) }
        ensures ok { OnOk result (self.new ≡ record self.old { state = after self.old.state e }) }
        ensures err { OnErr result (self.new ≡ self.old) }
    {
        groups_are_few();
        match e {
            Event::Put(src, dst) => self.progress.put(src, dst),
            Event::Take(rank) => self.take(alloc, rank),
            Event::Claim(worker) => {
                self.progress.claim(worker);
                Ok(())
            }
            Event::Finish(worker) => self.progress.finish(worker),
        }
    }

    // A rank takes the front of its inbox, and the lists of its groups are made anew.
    fn take(&mut self, alloc: Global, rank: u32) -> Result<(), OutOfMemory>
        requires { IsTrue (is_legal self.old.settings self.old.state (Event.Take rank)) }
        ensures ok { OnOk result (self.new ≡ record self.old { state = after self.old.state (Event.Take rank) }) }
        ensures err { OnErr result (self.new ≡ self.old) }
    {
        let arrivals = self.progress.with_next_arrival(alloc, rank)?;
        let lists = self.scene.lists_after_take(
            alloc,
            &self.lists,
            &self.progress,
            rank,
            arrivals.as_slice(),
        )?;
        self.progress.take(rank, arrivals);
        self.lists = lists;
        Ok(())
    }

    /// Carries out a list of events from the opening, or answers `None` exactly where one isn't legal at its place. The
    /// setup is as in `open`.
    pub fn run(alloc: Global, s: Setup, events: &[Event]) -> Result<Option<Core>, OutOfMemory>
        requires { IsSettings s }
        ensures legal { IfOk result (λ core. is_some core ≡ are_legal s (start s) events.now) }
        ensures core { IfOk result (λ core. IfSome core (λ c. c ≡ left_by s events.now)) }
    {
        let mut core = Core::open(alloc, s)?;
        for event in events {
            if !core.legal(*event) {
                return Ok(None);
            }
            core.apply(alloc, *event)?;
        }
        Ok(Some(core))
    }

    /// The ranks whose essential trees a rank has taken, in order. It takes no memory.
    pub fn arrivals(&self, rank: u32) -> &[u32]
        requires { rank < ranks_of self.now.settings }
        ensures { result.now ≡ arrivals_of self.now.state rank }
    {
        self.progress.arrivals(rank)
    }

    /// The partial list of a group. It takes no memory.
    pub fn partial(&self, group: u32) -> &[Entry]
        requires { group < length (numbered_groups self.now.settings) }
        ensures { slice_get (partial_lists self.now.settings self.now.state) group ≡ Some result.now }
    {
        self.lists[group as usize].as_slice()
    }

    /// The finished groups, in the order in which they were finished. It takes no memory.
    pub fn finished(&self) -> &[u32]
        ensures value { result.now ≡ self.now.state.finished }
        ensures groups { All (λ group. group < length (numbered_groups self.now.settings)) result.now }
    {
        self.progress.finished()
    }
}
