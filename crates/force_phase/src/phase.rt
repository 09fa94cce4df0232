ghost use Rattle.std.specs.Prelude.{◌≡◌, ◌≤◌, [], OnOk, IfOk, IfErr, flat_map, length};
ghost use Rattle.pf_model.specs.Particles.{AreBodies};
ghost use Rattle.force_phase.specs.Claims.{HaveAllGroups, groups_claimed};
ghost use Rattle.force_phase.specs.Finished.{IsFoundIn};
ghost use Rattle.force_phase.specs.Phase.{StopsPhase, faults_in, bodies_in, rows_by_id};
ghost use Rattle.force_phase.specs.Working.{groups_at};

use crate::found::Found;
use crate::numbered::group_count;
use crate::together::taken_together;
use crate::worker::{Shared, work_in_threads, workers_of};
use claim_board::{Board, numbers_once_stand_in_some_order};
use group_lists::HasLists;
use kern_types::Typed;
use model_laws::distinct_ids_ignore_order;
use order_laws::{lists_in_order_are_one, parts_keep_permutations};
use pf_geom::Edge;
use pf_io::Gate;
use pf_model::Body;
use pf_num::OutOfMemory;
use run_model::{Fault, PhaseFault, Row};
use std::alloc::{AllocError, Global};
use std::thread::Threads;

/// The forces on a particle.
#[derive(Debug, Drop)]
pub struct IdRow {
    pub id: u32,
    pub row: Row,
}

/// The groups that a worker claimed, in order.
#[derive(Debug, Drop)]
pub struct Claims {
    pub worker: u32,
    pub groups: Vec<u32>,
}

/// The forces on all particles by ascending id, and what each worker claimed, by number.
#[derive(Debug, Drop)]
pub struct PhaseOut {
    pub rows: Vec<IdRow>,
    pub claims: Vec<Claims>,
}

/// The forces on the particles of all groups, of all ranks, by ascending id, found by workers that are numbered from 0.
/// The particles have distinct ids and are at most `MOST_PARTICLES` together. Groups are numbered over the ranks; each
/// worker first passes the gate. `Numeric` exactly where one of the particles has a fault.
pub fn forces<R: Threads + Sync, H: HasLists + Sync, G: Gate>(
    rt: &R,
    alloc: Global,
    workers: u32,
    t: &Typed,
    lists: &[H],
    edge: Edge,
    gate: &G,
) -> Result<PhaseOut, PhaseFault>
    requires some { 1 ≤ workers }
    requires most { workers ≤ 64 }
    requires particles { AreBodies (bodies_in (flat_map H.has lists.now)) }
    ensures rows { IfOk result (λ out. out.rows.items ≡ rows_by_id edge t.now (flat_map H.has lists.now)) }
    ensures no_fault { OnOk result (faults_in edge t.now (flat_map H.has lists.now) ≡ []) }
    ensures fault { IfErr result (StopsPhase edge t.now (flat_map H.has lists.now)) }
    ensures claims { IfOk result (λ out.
        HaveAllGroups workers (length (flat_map H.has lists.now)) out.claims.items) }
{
    numbers_once_stand_in_some_order();
    distinct_ids_ignore_order();
    lists_in_order_are_one::<IdRow>();
    parts_keep_permutations::<u32, Body>();
    parts_keep_permutations::<u32, IdRow>();
    parts_keep_permutations::<u32, Fault>();
    let (found, claims) = found_by_workers(rt, alloc, workers, t, lists, edge, gate)?;
    Ok(PhaseOut {
        rows: found.answer()?,
        claims,
    })
}

// What workers find in all groups, and what each of them claimed.
fn found_by_workers<R: Threads + Sync, H: HasLists + Sync, G: Gate>(
    rt: &R,
    alloc: Global,
    workers: u32,
    t: &Typed,
    lists: &[H],
    edge: Edge,
    gate: &G,
) -> Result<(Found, Vec<Claims>), OutOfMemory>
    requires some { 1 ≤ workers }
    requires most { workers ≤ 64 }
    ensures claims { IfOk result (λ r. HaveAllGroups workers (length (flat_map H.has lists.now)) r.1.items) }
    ensures found { IfOk result (λ r.
        IsFoundIn edge t.now (groups_at (flat_map H.has lists.now) (groups_claimed r.1.items)) r.0) }
{
    let Some(total) = group_count(lists) else {
        return Err(OutOfMemory);
    };
    let (board, seats) = Board::open(alloc, total, workers)?;
    let shared = Shared {
        alloc,
        board: &board,
        t,
        lists,
        edge,
        gate,
    };
    let mut workers = workers_of(&shared, seats)?;
    work_in_threads(rt, &shared, &mut workers);
    taken_together(alloc, board, workers)
}
