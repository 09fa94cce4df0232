ghost use Rattle.std.specs.Prelude.{◌≡◌, ◌≤◌, ℕ, IfOk, flat_map, length, map};
ghost use Rattle.std.specs.List.Sorted.{IsStrictlyIncreasing};
ghost use Rattle.pf_model.specs.Division.{rank_count};
ghost use Rattle.pf_model.specs.Particles.{AreBodies};
ghost use Rattle.tree_phase.specs.Trees.{AreArrivals};
ghost use Rattle.refresh_phase.specs.Kept.{AreKept};
ghost use Rattle.run_model.specs.Setup.{Setup};
ghost use Rattle.run_model.specs.Text.{ranks as all_ranks, rank_counts};
ghost use Rattle.rank_step.specs.Build.{AreListsOf};
ghost use Rattle.rank_step.specs.LastBuild.{AreKeptSince};
ghost use Rattle.rank_step.specs.Told.{groups_told};
ghost use Rattle.rank_step.specs.World.{Follows};

use crate::course::Course;
use crate::laws::build_laws;
use pf_io::Gate;
use pf_model::{Body, Build, Terms};
use pf_num::OutOfMemory;
use refresh_phase::{KeptRank, Refreshed, kept_groups_have_their_lists, refresh_all};
use std::alloc::Global;
use std::marker::Brand;
use std::sync::Wait;
use std::thread::Threads;

/// The ranks of the last build, which was on particles by ascending id, with their trees and lists as these particles
/// are now, and in which order refreshed values came.
pub(crate) fn refreshed<R: Threads + Wait + Sync, G: Gate>(
    rt: &R,
    alloc: Global,
    workers: u32,
    gate: &G,
    course: &Course,
    built: &[Body],
    kept: Vec<KeptRank>,
    now: &[Body],
) -> Result<Refreshed, OutOfMemory>
    requires workers { 1 ≤ workers }
    requires bodies { AreBodies built.now }
    requires same { map (λ p. p.id) built.now ≡ map (λ p. p.id) now.now }
    requires ascending { IsStrictlyIncreasing (map (λ p. p.id) now.now) }
    requires kept { AreKeptSince course.now.group course.now.theta course.now.grid built.now kept.items }
    ensures kept { IfOk result (λ r.
        AreKept course.now.group course.now.theta course.now.grid built.now now.now r.ranks.items) }
    ensures lists { (u : Setup) → Follows course.now u
        → IfOk result (λ r. AreListsOf u built.now now.now (flat_map (λ k. k.lists.groups) r.ranks.items)) }
    ensures counts { (u : Setup) → Follows course.now u
        → IfOk result (λ r. map (λ k. k.line) r.ranks.items ≡ map (rank_counts u built.now) (all_ranks u)) }
    ensures groups { IfOk result (λ r.
        groups_told (map (λ k. k.line) r.ranks.items) ≡ length (flat_map (λ k. k.lists.groups) r.ranks.items)) }
    ensures arrivals { IfOk result (λ r. AreArrivals (rank_count course.now.grid) r.arrivals.items) }
{
    build_laws();
    kept_groups_have_their_lists();
    let build = Build::of(built, course.grid, course.theta);
    refreshed_by::<R, Brand, G>(rt, alloc, workers, gate, build, kept, now)
}

// The same, in the terms of the build.
fn refreshed_by<R: Threads + Wait + Sync, T: Terms + Send + Sync, G: Gate>(
    rt: &R,
    alloc: Global,
    workers: u32,
    gate: &G,
    _build: Build<'_>,
    kept: Vec<KeptRank>,
    now: &[Body],
) -> Result<Refreshed, OutOfMemory>
    requires workers { 1 ≤ workers }
    requires same { map (λ p. p.id) T.particles ≡ map (λ p. p.id) now.now }
    requires ascending { IsStrictlyIncreasing (map (λ p. p.id) now.now) }
    requires kept { (limit : ℕ) × AreKeptSince limit T.theta T.grid T.particles kept.items }
    ensures kept { (limit : ℕ) → AreKeptSince limit T.theta T.grid T.particles kept.items
        → IfOk result (λ r. AreKept limit T.theta T.grid T.particles now.now r.ranks.items) }
    ensures arrivals { IfOk result (λ r. AreArrivals (rank_count T.grid) r.arrivals.items) }
{
    refresh_all::<R, T, G>(rt, alloc, workers, gate, kept, now)
}
