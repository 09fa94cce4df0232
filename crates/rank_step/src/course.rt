ghost use Rattle.std.specs.Prelude.{◌≡◌, ◌+◌, ◌≤◌, ◌%◌, IfOk, IfErr, map};
ghost use Rattle.std.specs.List.Sorted.{IsStrictlyIncreasing};
ghost use Rattle.pf_model.specs.Particles.{AreBodies, by_id};
ghost use Rattle.pf_model.specs.Division.{rank_count};
ghost use Rattle.tree_phase.specs.Trees.{AreArrivals};
ghost use Rattle.force_phase.specs.Claims.{HaveAllGroups};
ghost use Rattle.run_model.specs.Setup.{Setup};
ghost use Rattle.run_model.specs.Run.{is_build};
ghost use Rattle.rank_step.specs.Answers.{StopsBy};
ghost use Rattle.run_model.specs.Answers.{StopsAt};
ghost use Rattle.rank_step.specs.LastBuild.{IsBuildOf, IsLastBefore, IsLastFor, built_from};
ghost use Rattle.rank_step.specs.Ranks.{HaveTogether, held_now};
ghost use Rattle.rank_step.specs.Taken.{Takes, taking_fault};
ghost use Rattle.rank_step.specs.Told.{Reaches, groups_told};
ghost use Rattle.rank_step.specs.World.{Follows, IsBefore, IsSound};

use crate::forces::{Taken, build_and_take, take_again};
use crate::held_now::held_now;
use crate::last_build::LastBuild;
use crate::laws::now_laws;
use exchange::RankState;
use kern_types::Typed;
use pf_io::Gate;
use pf_model::{Body, Grid, MOST_GROUP, Theta};
use pf_num::OutOfMemory;
use run_model::StepFault;
use run_moves::{Forced, Motion, kick_again, moved};
use std::alloc::Global;
use std::sync::Wait;
use std::thread::Threads;

/// What all steps of a run follow.
#[derive(Drop)]
pub(crate) struct Course {
    pub(crate) kernel: Typed,
    pub(crate) grid: Grid,
    pub(crate) theta: Theta,
    pub(crate) group: u32,
    pub(crate) dt: u32,
    pub(crate) reuse: u32,
}

impl Course {
    /// The particles after the next step, with the forces on them.
    pub(crate) fn taken<R: Threads + Wait + Sync, G: Gate>(
        &self,
        rt: &R,
        alloc: Global,
        workers: u32,
        gate: &G,
        due: u32,
        bodies: &[Forced],
        last: LastBuild,
    ) -> Result<Taken, StepFault>
        requires sound { IsSound self.now.grid self.now.theta self.now.group self.now.reuse due bodies.now last }
        requires some_workers { 1 ≤ workers }
        requires most_workers { workers ≤ 64 }
        ensures sound { IfOk result (λ taken. IsSound self.now.grid self.now.theta self.now.group self.now.reuse
            (due + 1) taken.bodies.items taken.last) }
        ensures ok { (u : Setup) → Follows self.now u → IsBefore u due bodies.now last.bodies.items
            → IsLastBefore u due last
            → IfOk result (λ taken. Reaches u due taken.bodies.items taken.counts.items taken.last) }
        ensures arrivals { IfOk result (λ taken. AreArrivals (rank_count self.now.grid) taken.arrivals.items) }
        ensures claims { IfOk result (λ taken.
            HaveAllGroups workers (groups_told taken.counts.items) taken.claims.items) }
        ensures fault { (u : Setup) → Follows self.now u → IsBefore u due bodies.now last.bodies.items
            → IfErr result (StopsBy u due) }
    {
        now_laws();
        if due == 0 {
            self.first(rt, alloc, workers, gate, last)
        } else {
            self.next(rt, alloc, workers, gate, due, bodies, last)
        }
    }

    // Step 0: a build on the particles as they were read, and the forces.
    fn first<R: Threads + Wait + Sync, G: Gate>(
        &self,
        rt: &R,
        alloc: Global,
        workers: u32,
        gate: &G,
        read: LastBuild,
    ) -> Result<Taken, StepFault>
        requires particles { AreBodies read.bodies.items }
        requires ascending { IsStrictlyIncreasing (map (λ p. p.id) read.bodies.items) }
        requires together { HaveTogether self.now.grid read.bodies.items read.ranks.items }
        requires some { 1 ≤ self.now.group }
        requires most { self.now.group ≤ MOST_GROUP }
        requires some_workers { 1 ≤ workers }
        requires most_workers { workers ≤ 64 }
        ensures ids { IfOk result (λ taken.
            map (λ b. b.body.id) taken.bodies.items ≡ map (λ p. p.id) read.bodies.items) }
        ensures last { IfOk result (λ taken. IsLastFor self.now.grid self.now.theta self.now.group self.now.reuse
            1 (map (λ p. p.id) read.bodies.items) taken.last) }
        ensures ok { (u : Setup) → Follows self.now u → read.bodies.items ≡ by_id u.particles
            → IfOk result (λ taken. Reaches u 0 taken.bodies.items taken.counts.items taken.last) }
        ensures arrivals { IfOk result (λ taken. AreArrivals (rank_count self.now.grid) taken.arrivals.items) }
        ensures claims { IfOk result (λ taken.
            HaveAllGroups workers (groups_told taken.counts.items) taken.claims.items) }
        ensures fault { (u : Setup) → Follows self.now u → read.bodies.items ≡ by_id u.particles
            → IfErr result (StopsBy u 0) }
    {
        build_and_take(rt, alloc, workers, gate, self, read.ranks, read.bodies)
    }

    // A step past 0: half a kick, a drift, the forces where particles are then, and half a kick.
    fn next<R: Threads + Wait + Sync, G: Gate>(
        &self,
        rt: &R,
        alloc: Global,
        workers: u32,
        gate: &G,
        due: u32,
        bodies: &[Forced],
        last: LastBuild,
    ) -> Result<Taken, StepFault>
        requires due { 1 ≤ due }
        requires sound { IsSound self.now.grid self.now.theta self.now.group self.now.reuse due bodies.now last }
        requires some_workers { 1 ≤ workers }
        requires most_workers { workers ≤ 64 }
        ensures ids { IfOk result (λ taken.
            map (λ b. b.body.id) taken.bodies.items ≡ map (λ b. b.body.id) bodies.now) }
        ensures last { IfOk result (λ taken. IsLastFor self.now.grid self.now.theta self.now.group self.now.reuse
            (due + 1) (map (λ b. b.body.id) bodies.now) taken.last) }
        ensures ok { (u : Setup) → Follows self.now u → IsBefore u due bodies.now last.bodies.items
            → IsBuildOf u last
            → IfOk result (λ taken. Reaches u due taken.bodies.items taken.counts.items taken.last) }
        ensures arrivals { IfOk result (λ taken. AreArrivals (rank_count self.now.grid) taken.arrivals.items) }
        ensures claims { IfOk result (λ taken.
            HaveAllGroups workers (groups_told taken.counts.items) taken.claims.items) }
        ensures fault { (u : Setup) → Follows self.now u → IsBefore u due bodies.now last.bodies.items
            → IfErr result (StopsBy u due) }
    {
        now_laws();
        let motion = Motion::of(&self.kernel, self.theta, self.dt);
        let now = moved(alloc, motion, bodies)?;
        let mut taken = self.forced(rt, alloc, workers, gate, due, last, now)?;
        kick_again(motion, &mut taken.bodies)?;
        Ok(taken)
    }

    // The forces on particles where they are now, by a build where one is due, else by the lists of the last build.
    fn forced<R: Threads + Wait + Sync, G: Gate>(
        &self,
        rt: &R,
        alloc: Global,
        workers: u32,
        gate: &G,
        due: u32,
        last: LastBuild,
        now: Vec<Body>,
    ) -> Result<Taken, StepFault>
        requires particles { AreBodies now.items }
        requires ascending { IsStrictlyIncreasing (map (λ p. p.id) now.items) }
        requires last { IsLastFor self.now.grid self.now.theta self.now.group self.now.reuse due
            (map (λ p. p.id) now.items) last }
        requires some_steps { 1 ≤ self.now.reuse }
        requires some { 1 ≤ self.now.group }
        requires most { self.now.group ≤ MOST_GROUP }
        requires some_workers { 1 ≤ workers }
        requires most_workers { workers ≤ 64 }
        ensures built { IfOk result (λ taken.
            taken.last.bodies.items ≡ built_from self.now.reuse due now.items last.bodies.items) }
        ensures taken { (u : Setup) → Follows self.now u → IfOk result (λ taken.
            Takes u (is_build u due) (built_from self.now.reuse due now.items last.bodies.items) now.items
            taken.bodies.items taken.counts.items) }
        ensures last { IfOk result (λ taken. IsLastFor self.now.grid self.now.theta self.now.group self.now.reuse
            (due + 1) (map (λ p. p.id) now.items) taken.last) }
        ensures build { (u : Setup) → Follows self.now u → IsBuildOf u last
            → IfOk result (λ taken. IsBuildOf u taken.last) }
        ensures arrivals { IfOk result (λ taken. AreArrivals (rank_count self.now.grid) taken.arrivals.items) }
        ensures claims { IfOk result (λ taken.
            HaveAllGroups workers (groups_told taken.counts.items) taken.claims.items) }
        ensures fault { (u : Setup) → Follows self.now u → IfErr result (StopsAt
            (taking_fault u (is_build u due) (built_from self.now.reuse due now.items last.bodies.items) now.items)) }
    {
        now_laws();
        if due % self.reuse == 0 {
            let ranks = ranks_now(alloc, last, &now)?;
            build_and_take(rt, alloc, workers, gate, self, ranks, now)
        } else {
            take_again(rt, alloc, workers, gate, self, last, &now)
        }
    }
}

// What the ranks of the last build have, where the particles, which are given by ascending id, are now. The lists of
// that build are dropped, before those of the next are made.
fn ranks_now(alloc: Global, last: LastBuild, now: &[Body]) -> Result<Vec<RankState>, OutOfMemory>
    requires { IsStrictlyIncreasing (map (λ p. p.id) now.now) }
    ensures { IfOk result (λ ranks. ranks.items ≡ map (held_now now.now) last.ranks.items) }
{
    held_now(alloc, &last.ranks, now)
}
