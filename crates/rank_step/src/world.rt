ghost use Rattle.std.specs.Prelude.{◌≡◌, ◌+◌, ◌≤◌, ◌^◌, ◌<◌, IfOk, IfErr, IsPermutation, ℕ, map};
ghost use Rattle.std.specs.List.Sorted.{IsNonDecreasingBy, IsStrictlyIncreasing};
ghost use Rattle.rank_step.specs.Ranks.{HaveTogether, first_ranks};
ghost use Rattle.pf_model.specs.Particles.{AreBodies};
ghost use Rattle.run_model.specs.Setup.{Setup};
ghost use Rattle.rank_step.specs.World.{IsSound, StandsFor, Steps, Follows};
ghost use Rattle.rank_step.specs.Taken.{without_forces};
ghost use Rattle.force_phase.specs.Claims.{HaveAllGroups};
ghost use Rattle.pf_model.specs.Division.{rank_count};
ghost use Rattle.tree_phase.specs.Trees.{AreArrivals};
ghost use Rattle.rank_step.specs.Told.{Reaches, groups_told};
ghost use Rattle.rank_step.specs.Answers.{StopsBy};

use crate::course::Course;
use crate::first_ranks::first_ranks;
use crate::forces::Taken;
use crate::last_build::LastBuild;
use crate::laws::{now_laws, read_laws};
use crate::told::told;
use force_phase::Claims;
use kern_types::Typed;
use pf_io::Gate;
use pf_model::{Body, Grid, MOST_GROUP, Theta};
use pf_num::OutOfMemory;
use run_model::{Row, StepFault, StepText};
use run_moves::Forced;
use std::alloc::{AllocError, Global};
use std::marker::Model;
use std::sync::Wait;
use std::thread::Threads;
use tree_phase::Arrivals;

/// What a run begins with, beside its kernel.
#[derive(Drop)]
pub struct WorldSetup {
    /// At most `MOST_PARTICLES`, of distinct ids, in any order.
    pub bodies: Vec<Body>,
    pub grid: Grid,
    pub theta: Theta,
    /// The most particles of a group, from 1 to `MOST_GROUP`.
    pub group: u32,
    /// The length of a step.
    pub dt: u32,
    /// The steps from a build to the next, at least one.
    pub reuse: u32,
}

/// What a step tells.
#[derive(Drop)]
pub struct StepReport {
    pub text: StepText,
    /// For each rank the sources in the order in which their essential trees came, or, at a step without a build, the
    /// present values of these.
    pub arrivals: Vec<Arrivals>,
    /// The groups whose forces each worker found. They are numbered over the ranks.
    pub claims: Vec<Claims>,
}

/// All particles of a run, and what is kept of the last build, before its next step.
#[derive(Drop)]
pub struct World {
    course: Course,
    due: u32,
    /// By ascending id.
    bodies: Vec<Forced>,
    last: LastBuild,
}

impl Model for World {
    ghost use Rattle.std.specs.Coded.{codes};
    ghost use Rattle.kern_tree.specs.contracts.kernel.Kernel as kernel_type;
    ghost use Rattle.rank_step.specs.World.{Standing, IsSound};

    ghost Value = { Standing };

    ghost coded = { Prim.hlevel (codes, kernel_type.the_row.coded) };

    ghost view = { λ w. record {
      kernel = w.course.kernel;
      grid = w.course.grid;
      theta = w.course.theta;
      group = w.course.group;
      dt = w.course.dt;
      reuse = w.course.reuse;
      due = w.due;
      bodies = w.bodies.items;
      last = w.last;
    } };

    ghost invariant = { λ w.
        IsSound w.course.grid w.course.theta w.course.group w.course.reuse w.due w.bodies.items w.last };
}

impl World {
    /// The world of particles as they were read, before step 0.
    pub fn open(alloc: Global, s: WorldSetup, t: Typed) -> Result<World, OutOfMemory>
        requires particles { AreBodies s.bodies.items }
        requires some_steps { 1 ≤ s.reuse }
        requires some { 1 ≤ s.group }
        requires most { s.group ≤ MOST_GROUP }
        ensures due { IfOk result (λ w. w.due ≡ 0) }
        ensures stands { (steps : ℕ) → IfOk result (λ w. StandsFor w (record {
          kernel = t;
          particles = s.bodies.items;
          grid = s.grid;
          theta = s.theta;
          group = s.group;
          steps = steps;
          dt = s.dt;
          reuse = s.reuse;
        })) }
    {
        read_laws();
        let mut bodies = s.bodies;
        sort_by_id(&mut bodies);
        Ok(World {
            course: Course {
                kernel: t,
                grid: s.grid,
                theta: s.theta,
                group: s.group,
                dt: s.dt,
                reuse: s.reuse,
            },
            due: 0,
            bodies: without_forces(alloc, &bodies)?,
            last: as_read(alloc, bodies, s.grid)?,
        })
    }

    /// The next step, from 0: the world after it, and what it tells. `Numeric` and `Lists` exactly where
    /// that is its first fault. After a refusal the world is gone. Workers drive the ranks, and then
    /// claim groups; each passes the gate at the start of each phase.
    pub fn step<R: Threads + Wait + Sync, G: Gate>(
        self,
        rt: &R,
        alloc: Global,
        workers: u32,
        gate: &G,
    ) -> Result<(World, StepReport), StepFault>
        requires due { self.due < 2 ^ 31 }
        requires some_workers { 1 ≤ workers }
        requires most_workers { workers ≤ 64 }
        ensures ok { IfOk result (λ r. (u : Setup) → StandsFor self u → Steps u self.due r.0 r.1.text) }
        ensures arrivals { IfOk result (λ r. AreArrivals (rank_count self.grid) r.1.arrivals.items) }
        ensures claims { IfOk result (λ r.
            HaveAllGroups workers (groups_told r.1.text.ranks) r.1.claims.items) }
        ensures fault { IfErr result (λ f. (u : Setup) → StandsFor self u → StopsBy u self.due f) }
    {
        let World {
            course,
            due,
            bodies,
            last,
        } = self;
        let taken = course.taken(rt, alloc, workers, gate, due, &bodies, last)?;
        after(alloc, course, due, taken)
    }
}

// The world after a step, and what the step tells.
fn after(
    alloc: Global,
    course: Course,
    due: u32,
    taken: Taken,
) -> Result<(World, StepReport), StepFault>
    requires few { due < 2 ^ 31 }
    requires sound { IsSound course.grid course.theta course.group course.reuse (due + 1) taken.bodies.items taken.last }
    ensures ok { IfOk result (λ r. (u : Setup) → Follows course u → AreBodies u.particles
        → Reaches u due taken.bodies.items taken.counts.items taken.last → Steps u due r.0 r.1.text) }
    ensures arrivals { IfOk result (λ r. r.1.arrivals.items ≡ taken.arrivals.items) }
    ensures claims { (workers : ℕ) → HaveAllGroups workers (groups_told taken.counts.items) taken.claims.items
        → IfOk result (λ r. HaveAllGroups workers (groups_told r.1.text.ranks) r.1.claims.items) }
    ensures fault { IfErr result (λ f. f ≡ StepFault.Memory) }
{
    now_laws();
    let text = told(alloc, due, taken.counts, &taken.last.owners, &taken.bodies)?;
    let after = World {
        course,
        due: due + 1,
        bodies: taken.bodies,
        last: taken.last,
    };
    let report = StepReport {
        text,
        arrivals: taken.arrivals,
        claims: taken.claims,
    };
    Ok((after, report))
}

// Particles by ascending id before step 0, each with the rank to which it is dealt.
fn as_read(alloc: Global, bodies: Vec<Body>, grid: Grid) -> Result<LastBuild, AllocError>
    requires { IsStrictlyIncreasing (map (λ p. p.id) bodies.items) }
    ensures bodies { IfOk result (λ last. last.bodies.items ≡ bodies.items) }
    ensures first { IfOk result (λ last. last.ranks.items ≡ first_ranks grid bodies.items) }
    ensures together { IfOk result (λ last. HaveTogether grid bodies.items last.ranks.items) }
{
    let ranks = first_ranks(alloc, &bodies, grid)?;
    Ok(LastBuild {
        bodies,
        owners: Vec::new(alloc),
        ranks,
        kept: Vec::new(alloc),
    })
}

// Puts the particles into the order of their ids.
fn sort_by_id(bodies: &mut [Body])
    ensures same_bodies { IsPermutation bodies.old bodies.new }
    ensures sorted { IsNonDecreasingBy (λ p. p.id) bodies.new }
{
    bodies.sort_unstable_by_key(|body| body.id);
}

fn without_forces(alloc: Global, bodies: &[Body]) -> Result<Vec<Forced>, AllocError>
    ensures { IfOk result (λ forced. forced.items ≡ map without_forces bodies.now) }
{
    let mut forced = Vec::with_capacity(alloc, bodies.len())?;
    for body in bodies {
        forced.push(Forced {
            body: *body,
            forces: Row::from_vec(Vec::new(alloc)),
        })?;
    }
    Ok(forced)
}
