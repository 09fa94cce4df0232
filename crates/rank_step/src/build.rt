ghost use Rattle.std.specs.Prelude.{◌≡◌, ◌≤◌, None, OnOk, IfOk, IfErr, All, flat_map, length, map, sum_by};
ghost use Rattle.std.specs.List.Sorted.{IsStrictlyIncreasing};
ghost use Rattle.pf_model.specs.Particles.{AreBodies};
ghost use Rattle.group_lists.specs.Gathering.{IsWhole, gathered_count};
ghost use Rattle.multisection.specs.Regions.{AreTargets};
ghost use Rattle.run_model.specs.Setup.{Setup};
ghost use Rattle.run_model.specs.Run.{lists_fault};
ghost use Rattle.run_model.specs.Text.{ranks as all_ranks, rank_counts};
ghost use Rattle.rank_step.specs.Build.{BuildsBy, AreListsOf, IsTooMany};
ghost use Rattle.rank_step.specs.Ranks.{with_owners};
ghost use Rattle.rank_step.specs.Trees.{AreFinished, BeginAsKept};
ghost use Rattle.tree_phase.specs.Trees.{AreArrivals, HaveGathered};
ghost use Rattle.pf_model.specs.Division.{rank_count};

use crate::laws::{build_laws, own_laws};
use exchange::RankState;
use group_lists::MOST_ENTRIES;
use multisection::Domains;
use pf_io::Gate;
use pf_model::{Body, Build, Grid, MOST_GROUP, MOST_RANKS, Terms, Theta};
use pf_num::OutOfMemory;
use refresh_phase::builds_begin_as_kept;
use run_model::StepFault;
use std::alloc::Global;
use std::marker::Brand;
use std::sync::Wait;
use std::thread::Threads;
use tree_phase::{Arrivals, Gathered, RankGather, RankLists, RankTree, gather_all};

/// The trees of all ranks, the lists of their groups with what the text tells of them, and in which order essential
/// trees came.
#[derive(Drop)]
pub(crate) struct Built {
    pub(crate) trees: Vec<RankTree>,
    pub(crate) lists: Vec<RankLists>,
    pub(crate) arrivals: Vec<Arrivals>,
}

/// The build on particles by ascending id, each of which is with its owner, unless all lists have more entries than
/// the limit.
pub(crate) fn build<R: Threads + Wait + Sync, G: Gate>(
    rt: &R,
    alloc: Global,
    workers: u32,
    gate: &G,
    bodies: &[Body],
    ranks: &[RankState],
    domains: &Domains,
    grid: Grid,
    theta: Theta,
    limit: u32,
) -> Result<Built, StepFault>
    requires workers { 1 ≤ workers }
    requires bodies { AreBodies bodies.now }
    requires ascending { IsStrictlyIncreasing (map (λ p. p.id) bodies.now) }
    requires owners { ranks.now ≡ with_owners grid bodies.now }
    requires targets { AreTargets grid bodies.now domains.now }
    requires some { 1 ≤ limit }
    requires most { limit ≤ MOST_GROUP }
    ensures lists { (u : Setup) → BuildsBy grid theta limit u
        → IfOk result (λ built. AreListsOf u bodies.now bodies.now (flat_map (λ r. r.lists.groups) built.lists.items)) }
    ensures counts { (u : Setup) → BuildsBy grid theta limit u
        → IfOk result (λ built. map (λ r. r.line) built.lists.items ≡ map (rank_counts u bodies.now) (all_ranks u)) }
    ensures arrivals { IfOk result (λ built. AreArrivals (rank_count grid) built.arrivals.items) }
    ensures counted { IfOk result (λ built. length built.trees.items ≡ length built.lists.items) }
    ensures kept { IfOk result (λ built.
        BeginAsKept limit theta grid bodies.now built.trees.items built.lists.items) }
    ensures few { (u : Setup) → BuildsBy grid theta limit u → OnOk result (lists_fault u bodies.now ≡ None) }
    ensures fault { (u : Setup) → BuildsBy grid theta limit u → IfErr result (IsTooMany u bodies.now) }
{
    let build = Build::of(bodies, grid, theta);
    build_by::<R, Brand, G>(rt, alloc, workers, gate, build, ranks, domains, limit)
}

// The same, in the terms of the build.
fn build_by<R: Threads + Wait + Sync, T: Terms + Send + Sync, G: Gate>(
    rt: &R,
    alloc: Global,
    workers: u32,
    gate: &G,
    build: Build<'_>,
    ranks: &[RankState],
    domains: &Domains,
    limit: u32,
) -> Result<Built, StepFault>
    requires workers { 1 ≤ workers }
    requires theta { T.theta ≡ build.theta }
    requires ascending { IsStrictlyIncreasing (map (λ p. p.id) T.particles) }
    requires owners { ranks.now ≡ with_owners T.grid T.particles }
    requires targets { AreTargets T.grid T.particles domains.now }
    requires some { 1 ≤ limit }
    requires most { limit ≤ MOST_GROUP }
    ensures lists { (u : Setup) → BuildsBy T.grid T.theta limit u
        → IfOk result (λ built. AreListsOf u T.particles T.particles (flat_map (λ r. r.lists.groups) built.lists.items)) }
    ensures counts { (u : Setup) → BuildsBy T.grid T.theta limit u
        → IfOk result (λ built. map (λ r. r.line) built.lists.items ≡ map (rank_counts u T.particles) (all_ranks u)) }
    ensures arrivals { IfOk result (λ built. AreArrivals (rank_count T.grid) built.arrivals.items) }
    ensures counted { IfOk result (λ built. length built.trees.items ≡ length built.lists.items) }
    ensures kept { IfOk result (λ built.
        BeginAsKept limit T.theta T.grid T.particles built.trees.items built.lists.items) }
    ensures few { (u : Setup) → BuildsBy T.grid T.theta limit u → OnOk result (lists_fault u T.particles ≡ None) }
    ensures fault { (u : Setup) → BuildsBy T.grid T.theta limit u → IfErr result (IsTooMany u T.particles) }
{
    own_laws();
    builds_begin_as_kept();
    let theta = build.theta;
    let Gathered {
        trees,
        gathers,
        arrivals,
    } = gather_all::<R, T, G>(rt, alloc, workers, gate, ranks, domains, theta, limit)?;
    Ok(Built {
        trees,
        lists: finish(alloc, limit, gathers)?,
        arrivals,
    })
}

// The lists that were gathered from all ranks, unless they have more entries than the limit.
fn finish<T: Terms>(
    alloc: Global,
    limit: u32,
    gathers: Vec<RankGather<T>>,
) -> Result<Vec<RankLists>, StepFault>
    requires ascending { IsStrictlyIncreasing (map (λ p. p.id) T.particles) }
    requires gathered { HaveGathered limit T.grid T.particles gathers.items }
    ensures lists { (u : Setup) → BuildsBy T.grid T.theta limit u
        → IfOk result (λ built. AreListsOf u T.particles T.particles (flat_map (λ r. r.lists.groups) built.items)) }
    ensures counts { (u : Setup) → BuildsBy T.grid T.theta limit u
        → IfOk result (λ built. map (λ r. r.line) built.items ≡ map (rank_counts u T.particles) (all_ranks u)) }
    ensures finished { IfOk result (λ built.
        AreFinished T.theta T.grid T.particles gathers.items built.items) }
    ensures few { (u : Setup) → BuildsBy T.grid T.theta limit u → OnOk result (lists_fault u T.particles ≡ None) }
    ensures fault { (u : Setup) → BuildsBy T.grid T.theta limit u → IfErr result (IsTooMany u T.particles) }
{
    build_laws();
    let count = count_of(&gathers);
    if count > MOST_ENTRIES {
        return Err(StepFault::Lists(count));
    }
    Ok(finish_all(alloc, gathers)?)
}

// How long the lists of all ranks are together.
fn count_of<T: Terms>(gathers: &[RankGather<T>]) -> u64
    requires { length gathers.now ≤ MOST_RANKS }
    ensures { result ≡ sum_by (gathered_count T.theta T.grid T.particles) gathers.now }
{
    let mut count = 0;
    for gather in gathers {
        count += gather.count();
    }
    count
}

// The lists of ranks in which every rank is in, and what the text tells of them.
fn finish_all<T: Terms>(
    alloc: Global,
    gathers: Vec<RankGather<T>>,
) -> Result<Vec<RankLists>, OutOfMemory>
    requires whole { All (IsWhole T.grid) gathers.items }
    requires few { All (λ gather. gathered_count T.theta T.grid T.particles gather ≤ MOST_ENTRIES) gathers.items }
    ensures { IfOk result (λ finished. AreFinished T.theta T.grid T.particles gathers.items finished.items) }
{
    let mut finished = Vec::with_capacity(alloc, gathers.len())?;
    for gather in gathers {
        finished.push(gather.finish(alloc)?)?;
    }
    Ok(finished)
}
