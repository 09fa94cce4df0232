ghost use Rattle.std.specs.Prelude.{◌≡◌, ◌≤◌, ◌⊎◌, None, OnOk, IfOk, IfErr, List, true, false, flat_map, length, map};
ghost use Rattle.std.specs.List.{zip};
ghost use Rattle.std.specs.List.Sorted.{IsStrictlyIncreasing};
ghost use Rattle.pf_model.specs.Particle.{Particle};
ghost use Rattle.pf_model.specs.Particles.{AreBodies};
ghost use Rattle.pf_model.specs.Division.{rank_count};
ghost use Rattle.pf_model.specs.Domains.{owner_by};
ghost use Rattle.tree_phase.specs.Trees.{AreArrivals};
ghost use Rattle.force_phase.specs.Claims.{HaveAllGroups};
ghost use Rattle.force_phase.specs.Phase.{bodies_in};
ghost use Rattle.run_model.specs.Setup.{Setup};
ghost use Rattle.run_model.specs.Force.{first_given};
ghost use Rattle.run_model.specs.Run as rules;
ghost use Rattle.run_model.specs.Run.{forces_fault};
ghost use Rattle.run_model.specs.Answers.{StopsAt};
ghost use Rattle.rank_step.specs.LastBuild.{AreKeptSince, IsBuildOf};
ghost use Rattle.rank_step.specs.Ranks.{HaveTogether};
ghost use Rattle.rank_step.specs.Taken.{Takes, TakesFrom, taking_fault, with_row};
ghost use Rattle.rank_step.specs.Told.{groups_told};
ghost use Rattle.rank_step.specs.World.{Follows};

use crate::build::{Built, build};
use crate::course::Course;
use crate::keeping::keep;
use crate::last_build::LastBuild;
use crate::laws::row_laws;
use crate::refreshing::refreshed;
use exchange::RankState;
use exchange_phase::exchanged;
use force_phase::{Claims, IdRow, forces};
use group_lists::HasLists;
use kern_types::Typed;
use model_laws::distinct_ids_ignore_order;
use multisection::{Domains, make_domains, owner};
use pf_geom::Edge;
use pf_io::Gate;
use pf_model::{Body, MOST_GROUP};
use refresh_phase::{KeptRank, Refreshed};
use run_model::{RankLine, StepFault};
use run_moves::Forced;
use std::alloc::{AllocError, Global};
use std::sync::Wait;
use std::thread::Threads;
use tree_phase::{Arrivals, RankLists};

/// Particles with the forces on them, and what the text tells of each rank, in which order essential trees or
/// refreshed values came, the groups that each worker claimed, and what is kept of the last build.
#[derive(Drop)]
pub(crate) struct Taken {
    pub(crate) bodies: Vec<Forced>,
    pub(crate) counts: Vec<RankLine>,
    pub(crate) arrivals: Vec<Arrivals>,
    pub(crate) claims: Vec<Claims>,
    pub(crate) last: LastBuild,
}

/// A build on particles by ascending id, which come from the ranks that have them to their owners, and the forces on
/// them by its lists.
pub(crate) fn build_and_take<R: Threads + Wait + Sync, G: Gate>(
    rt: &R,
    alloc: Global,
    workers: u32,
    gate: &G,
    course: &Course,
    ranks: Vec<RankState>,
    now: Vec<Body>,
) -> Result<Taken, StepFault>
    requires particles { AreBodies now.items }
    requires ascending { IsStrictlyIncreasing (map (λ p. p.id) now.items) }
    requires together { HaveTogether course.now.grid now.items ranks.items }
    requires some { 1 ≤ course.now.group }
    requires most { course.now.group ≤ MOST_GROUP }
    requires some_workers { 1 ≤ workers }
    requires most_workers { workers ≤ 64 }
    ensures built { IfOk result (λ taken. taken.last.bodies.items ≡ now.items) }
    ensures taken { (u : Setup) → Follows course.now u → IfOk result (λ taken.
        Takes u true now.items now.items taken.bodies.items taken.counts.items) }
    ensures together { IfOk result (λ taken. HaveTogether course.now.grid now.items taken.last.ranks.items) }
    ensures kept { IfOk result (λ taken. (course.now.reuse ≡ 1)
        ⊎ AreKeptSince course.now.group course.now.theta course.now.grid now.items taken.last.kept.items) }
    ensures build { (u : Setup) → Follows course.now u → IfOk result (λ taken. IsBuildOf u taken.last) }
    ensures arrivals { IfOk result (λ taken. AreArrivals (rank_count course.now.grid) taken.arrivals.items) }
    ensures claims { IfOk result (λ taken.
        HaveAllGroups workers (groups_told taken.counts.items) taken.claims.items) }
    ensures fault { (u : Setup) → Follows course.now u
        → IfErr result (StopsAt (taking_fault u true now.items now.items)) }
{
    distinct_ids_ignore_order();
    let particles: &[Body] = &now;
    let domains = make_domains(alloc, particles, course.grid)?;
    let ranks = exchanged(
        rt,
        alloc,
        workers,
        gate,
        ranks,
        particles,
        &domains,
        course.grid,
    )?;
    let Built {
        trees,
        lists,
        arrivals,
    } = build(
        rt,
        alloc,
        workers,
        gate,
        particles,
        &ranks,
        &domains,
        course.grid,
        course.theta,
        course.group,
    )?;
    let (bodies, claims) = with_forces(
        rt,
        alloc,
        workers,
        gate,
        &course.kernel,
        course.theta.edge,
        &lists,
        particles,
    )?;
    let counts = lines_of(alloc, &lists)?;
    let owners = owners_of(alloc, &domains, particles)?;
    let kept = keep(alloc, course.reuse, trees, lists)?;
    Ok(Taken {
        bodies,
        counts,
        arrivals,
        claims,
        last: LastBuild {
            bodies: now,
            owners,
            ranks,
            kept,
        },
    })
}

/// The forces on particles by ascending id, by the lists of the last build, as its particles are now.
pub(crate) fn take_again<R: Threads + Wait + Sync, G: Gate>(
    rt: &R,
    alloc: Global,
    workers: u32,
    gate: &G,
    course: &Course,
    last: LastBuild,
    now: &[Body],
) -> Result<Taken, StepFault>
    requires particles { AreBodies now.now }
    requires ascending { IsStrictlyIncreasing (map (λ p. p.id) now.now) }
    requires same { map (λ p. p.id) last.bodies.items ≡ map (λ p. p.id) now.now }
    requires kept { AreKeptSince course.now.group course.now.theta course.now.grid last.bodies.items last.kept.items }
    requires some_workers { 1 ≤ workers }
    requires most_workers { workers ≤ 64 }
    ensures bodies { IfOk result (λ taken. taken.last.bodies.items ≡ last.bodies.items) }
    ensures owners { IfOk result (λ taken. taken.last.owners.items ≡ last.owners.items) }
    ensures ranks { IfOk result (λ taken. taken.last.ranks.items ≡ last.ranks.items) }
    ensures taken { (u : Setup) → Follows course.now u → IfOk result (λ taken.
        Takes u false last.bodies.items now.now taken.bodies.items taken.counts.items) }
    ensures kept { IfOk result (λ taken. AreKeptSince course.now.group course.now.theta course.now.grid
        last.bodies.items taken.last.kept.items) }
    ensures arrivals { IfOk result (λ taken. AreArrivals (rank_count course.now.grid) taken.arrivals.items) }
    ensures claims { IfOk result (λ taken.
        HaveAllGroups workers (groups_told taken.counts.items) taken.claims.items) }
    ensures fault { (u : Setup) → Follows course.now u
        → IfErr result (StopsAt (taking_fault u false last.bodies.items now.now)) }
{
    distinct_ids_ignore_order();
    let LastBuild {
        bodies: built,
        owners,
        ranks,
        kept,
    } = last;
    let Refreshed {
        ranks: kept,
        arrivals,
    } = refreshed(rt, alloc, workers, gate, course, &built, kept, now)?;
    let (bodies, claims) = with_forces(
        rt,
        alloc,
        workers,
        gate,
        &course.kernel,
        course.theta.edge,
        &kept,
        now,
    )?;
    let counts = lines_kept(alloc, &kept)?;
    Ok(Taken {
        bodies,
        counts,
        arrivals,
        claims,
        last: LastBuild {
            bodies: built,
            owners,
            ranks,
            kept,
        },
    })
}

// What the text tells of each rank.
fn lines_of(alloc: Global, built: &[RankLists]) -> Result<Vec<RankLine>, AllocError>
    ensures { IfOk result (λ lines. lines.items ≡ map (λ r. r.line) built.now) }
{
    let mut lines = Vec::with_capacity(alloc, built.len())?;
    for rank in built {
        lines.push(rank.line)?;
    }
    Ok(lines)
}

// What the text tells of each rank since the last build.
fn lines_kept(alloc: Global, kept: &[KeptRank]) -> Result<Vec<RankLine>, AllocError>
    ensures { IfOk result (λ lines. lines.items ≡ map (λ r. r.line) kept.now) }
{
    let mut lines = Vec::with_capacity(alloc, kept.len())?;
    for rank in kept {
        lines.push(rank.line())?;
    }
    Ok(lines)
}

// The owner of each particle.
fn owners_of(alloc: Global, domains: &Domains, bodies: &[Body]) -> Result<Vec<u32>, AllocError>
    ensures { IfOk result (λ owners. owners.items ≡ map (λ p. owner_by domains.now.cuts p.at) bodies.now) }
{
    let mut owners = Vec::with_capacity(alloc, bodies.len())?;
    for body in bodies {
        owners.push(owner(domains, body.at))?;
    }
    Ok(owners)
}

// The forces on particles by ascending id, by lists of a build, and the groups that each worker claimed.
fn with_forces<R: Threads + Sync, H: HasLists + Sync, G: Gate>(
    rt: &R,
    alloc: Global,
    workers: u32,
    gate: &G,
    t: &Typed,
    edge: Edge,
    lists: &[H],
    now: &[Body],
) -> Result<(Vec<Forced>, Vec<Claims>), StepFault>
    requires particles { AreBodies (bodies_in (flat_map H.has lists.now)) }
    requires ascending { IsStrictlyIncreasing (map (λ p. p.id) now.now) }
    requires some_workers { 1 ≤ workers }
    requires most_workers { workers ≤ 64 }
    ensures forces { (u : Setup) (built : List Particle)
        → TakesFrom t.now edge built now.now (flat_map H.has lists.now) u
        → IfOk result (λ r. r.0.items ≡ rules.with_forces u built now.now) }
    ensures claims { IfOk result (λ r. HaveAllGroups workers (length (flat_map H.has lists.now)) r.1.items) }
    ensures no_fault { (u : Setup) (built : List Particle)
        → TakesFrom t.now edge built now.now (flat_map H.has lists.now) u
        → OnOk result (first_given (forces_fault u built now.now) now.now ≡ None) }
    ensures fault { (u : Setup) (built : List Particle)
        → TakesFrom t.now edge built now.now (flat_map H.has lists.now) u
        → IfErr result (StopsAt (first_given (forces_fault u built now.now) now.now)) }
{
    row_laws();
    let out = forces(rt, alloc, workers, t, lists, edge, gate)?;
    let bodies = paired(alloc, now, out.rows)?;
    Ok((bodies, out.claims))
}

// Each particle with the row that stands at its place.
fn paired(alloc: Global, now: &[Body], rows: Vec<IdRow>) -> Result<Vec<Forced>, AllocError>
    ensures { IfOk result (λ bodies. bodies.items ≡ map with_row (zip now.now rows.items)) }
{
    now.iter()
        .zip(rows)
        .map(|(body, row)| Forced {
            body: *body,
            forces: row.row,
        })
        .collect(alloc)
}
