ghost use Rattle.std.specs.Prelude.{◌≡◌, ◌<◌, ◌∷◌, [], ◌++◌, IfOk, option_map, slice_get, take, length, Some};
ghost use Rattle.pf_model.specs.Division.{IsDivision, rank_count};
ghost use Rattle.step_core.specs.declared.event.Event.TheVariants.{Take};
ghost use Rattle.step_core.specs.Core.{IsSettings, numbered_groups, ranks_of, inbox_of, arrivals_of, start, after};
ghost use Rattle.step_core.specs.Core.{partial_lists};
ghost use Rattle.step_core.specs.Plain.{listed_site, list_at, is_seen, seen_by};

use crate::cuts::Cuts;
use crate::cutting::cut;
use crate::grouping::sites_by;
use crate::progress::Progress;
use crate::sequence::Sequence;
use crate::setup::Setup;
use crate::site::Site;
use model_laws::{groups_are_few, some_have_distinct_ids};
use pf_model::{Body, Entry, Grid, slow_list};
use pf_num::OutOfMemory;
use std::alloc::Global;
use std::marker::Model;

// What stays at a build: the setup, the domains and the groups that it makes.
#[derive(Drop)]
pub(crate) struct Scene {
    setup: Setup,
    cuts: Cuts,
    sites: Vec<Site>,
}

impl Model for Scene {
    ghost use Rattle.step_core.specs.Core.{Settings};
    ghost use Rattle.step_core.specs.Plain.{IsScene};

    ghost Value = { Settings };

    ghost view = { λ s. s.setup };

    ghost invariant = { λ s. IsScene s.setup s.cuts s.sites.items };
}

impl Scene {
    pub(crate) fn open(alloc: Global, setup: Setup) -> Result<Scene, OutOfMemory>
        requires { IsSettings setup }
        ensures { IfOk result (λ scene. scene ≡ setup) }
    {
        groups_are_few();
        let cuts = cut(alloc, &setup.bodies, setup.grid)?;
        let sites = sites_by(
            alloc,
            &setup.bodies,
            &cuts,
            rank_count(setup.grid),
            setup.group,
        )?;
        Ok(Scene { setup, cuts, sites })
    }

    // The number of ranks.
    pub(crate) fn ranks(&self) -> u32
        ensures value { result ≡ ranks_of self.now }
        ensures division { IsDivision self.now.grid }
        ensures settings { IsSettings self.now }
    {
        rank_count(self.setup.grid)
    }

    // The number of workers.
    pub(crate) fn workers(&self) -> u32
        ensures { result ≡ self.now.workers }
    {
        self.setup.workers
    }

    // The group of a number, if there is one.
    pub(crate) fn site(&self, group: u32) -> Option<Site>
        ensures { result ≡ option_map listed_site (slice_get (numbered_groups self.now) group) }
    {
        let place = group as usize;
        if place < self.sites.len() {
            Some(self.sites[place])
        } else {
            None
        }
    }

    // The partial list of each group before any event.
    pub(crate) fn first_lists(&self, alloc: Global) -> Result<Vec<Sequence<Entry>>, OutOfMemory>
        ensures { IfOk result (λ lists. lists.items ≡ partial_lists self.now (start self.now)) }
    {
        let mut lists = Vec::with_capacity(alloc, self.sites.len())?;
        for site in &self.sites {
            lists.push(self.list(alloc, *site, &[])?)?;
        }
        Ok(lists)
    }

    // The partial list of each group after a rank has taken the front of its inbox, which gives it these arrivals.
    pub(crate) fn lists_after_take(
        &self,
        alloc: Global,
        lists: &[Sequence<Entry>],
        progress: &Progress,
        rank: u32,
        arrivals: &[u32],
    ) -> Result<Vec<Sequence<Entry>>, OutOfMemory>
        requires before { lists.now ≡ partial_lists self.now progress.now }
        requires rank { rank < length progress.now.arrivals }
        requires arrivals { arrivals.now ≡ arrivals_of progress.now rank ++ take 1 (inbox_of progress.now rank) }
        ensures { IfOk result (λ new. new.items ≡ partial_lists self.now (after progress.now (Take rank))) }
    {
        let mut new = Vec::with_capacity(alloc, self.sites.len())?;
        for place in 0..self.sites.len() {
            new.push(self.list_after_take(alloc, &lists[place], place, progress, rank, arrivals)?)?;
        }
        Ok(new)
    }

    // The same of one group: the list of a group of another rank stays.
    fn list_after_take(
        &self,
        alloc: Global,
        list: &Sequence<Entry>,
        place: usize,
        progress: &Progress,
        rank: u32,
        arrivals: &[u32],
    ) -> Result<Sequence<Entry>, OutOfMemory>
        requires within { place < length (numbered_groups self.now) }
        requires before { slice_get (partial_lists self.now progress.now) place ≡ Some list.now }
        requires rank { rank < length progress.now.arrivals }
        requires arrivals { arrivals.now ≡ arrivals_of progress.now rank ++ take 1 (inbox_of progress.now rank) }
        ensures { IfOk result (λ new. slice_get (partial_lists self.now (after progress.now (Take rank))) place
            ≡ Some new) }
    {
        let site = self.sites[place];
        if site.rank == rank {
            self.list(alloc, site, arrivals)
        } else {
            list.copy(alloc)
        }
    }

    // The list of a group limited to its own rank and the ranks that have arrived there.
    fn list(
        &self,
        alloc: Global,
        site: Site,
        arrivals: &[u32],
    ) -> Result<Sequence<Entry>, OutOfMemory>
        ensures { IfOk result (λ list. list ≡ list_at self.now.theta self.now.grid self.now.bodies arrivals.now site) }
    {
        some_have_distinct_ids();
        let seen = seen_by(alloc, &self.setup.bodies, &self.cuts, site.rank, arrivals)?;
        Ok(Sequence::from_vec(slow_list(alloc, &seen, site.around, self.setup.theta)?))
    }
}

// The bodies that a rank or one that has arrived there owns.
fn seen_by(
    alloc: Global,
    bodies: &[Body],
    cuts: &Cuts,
    rank: u32,
    arrivals: &[u32],
) -> Result<Vec<Body>, OutOfMemory>
    ensures { IfOk result (λ seen. seen.items ≡ seen_by cuts.now bodies.now (rank ∷ arrivals.now)) }
{
    Ok(
        bodies
            .iter()
            .filter(|body| is_seen(body, cuts, rank, arrivals))
            .copied()
            .collect(alloc)?,
    )
}

fn is_seen(body: &Body, cuts: &Cuts, rank: u32, arrivals: &[u32]) -> bool
    ensures { result ≡ is_seen cuts.now (rank ∷ arrivals.now) body.now }
{
    let owner = cuts.owner(body.at);
    owner == rank || arrivals.contains(&owner)
}

// How many ranks the cube is divided among.
fn rank_count(grid: Grid) -> u32
    ensures value { result ≡ rank_count grid }
    ensures division { IsDivision grid }
{
    grid.nx * grid.ny * grid.nz
}
