ghost use Rattle.std.specs.Prelude.{◌≡◌, ◌<◌, ◌≤◌, List, Some, All, IfOk, OnOk, IfErr, length, map};
ghost use Rattle.pf_model.specs.declared.entry.Entry.{Entry as ListEntry};
ghost use Rattle.group_lists.specs.Whole.{GroupList};
ghost use Rattle.kern_types.specs.Declarations.{forces_of};
ghost use Rattle.run_model.specs.Force.{force_fault};
ghost use Rattle.force_phase.specs.Forces.{AreForces};
ghost use Rattle.force_phase.specs.Gathered.{IsReady};
ghost use Rattle.force_phase.specs.Outcome as rules;
ghost use Rattle.force_phase.specs.Outcome.{IsOutFor, IsOutcome, IsOutcomeAt, IsWorkFor};
ghost use Rattle.force_phase.specs.Partner.{partner_of};

use crate::force::{PairRoom, Work, forces_on};
use crate::found::lesser;
use crate::partner::{Partner, partners};
use crate::row::row_width;
use group_lists::Lists;
use kern_types::{Typed, forces, forces_and_slots_are_few, kernel};
use pf_geom::Edge;
use pf_model::{Body, MOST_PARTICLES};
use pf_num::OutOfMemory;
use run_model::{Fault, Row, What};
use std::alloc::{AllocError, Global};
use std::mem;

/// The forces on the particles of a group, in the group's order, and what is kept to find them.
#[derive(Drop)]
pub struct GroupOut {
    pub rows: Vec<Row>,
    pub(crate) partners: Vec<Partner>,
    pub(crate) alloc: Global,
}

/// What the particles of a group give.
#[derive(Clone, Copy, Debug, PartialEq, Eq)]
pub enum Outcome {
    /// Each has its forces.
    Done,
    /// The least fault by id.
    Fault(Fault),
}

/// Room for the forces on a group.
pub fn out_for(alloc: Global, t: &Typed, lists: &Lists, group: u32) -> Result<GroupOut, OutOfMemory>
    requires { group < length lists.now.groups }
    ensures { IfOk result (IsOutFor t.now lists.now.groups group) }
{
    forces_and_slots_are_few();
    let _kernel = kernel(t);
    let width = row_width(forces(t));
    Ok(GroupOut {
        rows: rows_of(alloc, lists.group(group).len(), width)?,
        partners: partners(alloc, lists.entries(group))?,
        alloc,
    })
}

// So many rows of a width.
fn rows_of(alloc: Global, count: usize, width: usize) -> Result<Vec<Row>, AllocError>
    ensures count { IfOk result (λ rows. length rows.items ≡ count) }
    ensures widths { IfOk result (λ rows. All (λ row. length row ≡ width) rows.items) }
{
    let mut rows = Vec::with_capacity(alloc, count)?;
    for _row in 0..count {
        rows.push(Row::from_vec(Vec::from_elem(alloc, 0, width)?))?;
    }
    Ok(rows)
}

/// Finds the forces on the particles of a group. `Fault` exactly where one of them has a fault. It takes no memory.
pub fn evaluate(
    t: &Typed,
    lists: &Lists,
    group: u32,
    work: &mut Work,
    out: &mut GroupOut,
) -> Outcome
    requires group { group < length lists.now.groups }
    requires work { IsWorkFor t.now work.old }
    requires out { IsOutFor t.now lists.now.groups group out.old }
    ensures work { IsWorkFor t.now work.new }
    ensures edge { work.new.edge ≡ work.old.edge }
    ensures out { IsOutFor t.now lists.now.groups group out.new }
    ensures outcome { IsOutcomeAt work.old.edge t.now lists.now.groups group out.new.rows.items result }
{
    let _entries = lists.entries(group);
    evaluate_all(
        out.alloc,
        t,
        work.edge,
        &out.partners,
        lists.group(group),
        &mut work.room,
        &mut out.rows,
    )
}

// The forces on particles that have the same partners.
fn evaluate_all(
    alloc: Global,
    t: &Typed,
    edge: Edge,
    partners: &[Partner],
    bodies: &[Body],
    work: &mut PairRoom,
    rows: &mut [Row],
) -> Outcome
    requires few { length partners.now ≤ MOST_PARTICLES }
    requires ready { IsReady t.now work.old.scratch work.old.targets.items (length work.old.tallies.items) }
    requires rows { length rows.old ≡ length bodies.now }
    requires widths { All (λ row. length row ≡ rules.row_width (forces_of t.now.decls)) rows.old }
    ensures ready { IsReady t.now work.new.scratch work.new.targets.items (length work.new.tallies.items) }
    ensures rows { length rows.new ≡ length rows.old }
    ensures widths { All (λ row. length row ≡ rules.row_width (forces_of t.now.decls)) rows.new }
    ensures outcome { (g : GroupList) → partners.now ≡ map partner_of g.entries
        → IsOutcome edge t.now (record g { bodies = bodies.now }) rows.new result }
{
    let mut least = None;
    for k in 0..bodies.len() {
        let body = &bodies[k];
        let stop = fill(alloc, t, edge, partners, body, work, &mut rows[k]);
        least = with_stop(least, body.id, stop);
    }
    match least {
        None => Outcome::Done,
        Some(fault) => Outcome::Fault(fault),
    }
}

// Writes the forces on a particle into its row.
fn fill(
    alloc: Global,
    t: &Typed,
    edge: Edge,
    partners: &[Partner],
    i: &Body,
    work: &mut PairRoom,
    row: &mut Row,
) -> Result<(), What>
    requires few { length partners.now ≤ MOST_PARTICLES }
    requires ready { IsReady t.now work.old.scratch work.old.targets.items (length work.old.tallies.items) }
    requires width { length row.old ≡ rules.row_width (forces_of t.now.decls) }
    ensures ready { IsReady t.now work.new.scratch work.new.targets.items (length work.new.tallies.items) }
    ensures width { length row.new ≡ length row.old }
    ensures ok { OnOk result ((entries : List ListEntry) → partners.now ≡ map partner_of entries
        → AreForces edge t.now entries i.now row.new) }
    ensures fault { IfErr result (λ what. (entries : List ListEntry) → partners.now ≡ map partner_of entries
        → force_fault edge t.now entries i.now ≡ Some what) }
{
    let mut numbers = mem::replace(row, Row::from_vec(Vec::new(alloc))).into_vec();
    let stop = forces_on(t, edge, partners, i, work, &mut numbers);
    *row = Row::from_vec(numbers);
    stop
}

// The least fault so far, after a particle.
fn with_stop(least: Option<Fault>, id: u32, stop: Result<(), What>) -> Option<Fault>
    ensures { result ≡ rules.with_stop least id stop }
{
    match stop {
        Ok(()) => least,
        Err(what) => Some(lesser(least, Fault { id, what })),
    }
}
