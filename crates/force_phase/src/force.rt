ghost use Rattle.std.specs.Prelude.{◌≡◌, ◌≤◌, ◌^◌, ◌<◌, List, None, Some, OnOk, IfOk, IfErr, length, map};
ghost use Rattle.pf_model.specs.declared.entry.Entry.{Entry as ListEntry};
ghost use Rattle.kern_types.specs.Declarations.{forces_of};
ghost use Rattle.run_model.specs.Force.{first_given, force_fault, pair_fault};
ghost use Rattle.force_phase.specs.Forces.{AreForces};
ghost use Rattle.force_phase.specs.Gathered.{IsReady, each_with, with_pairs, nothing_yet as nothing_of};
ghost use Rattle.force_phase.specs.Outcome.{IsWorkFor, row_width};
ghost use Rattle.force_phase.specs.Partner.{is_another, pairs_by, partner_of};

use crate::gathered::{clear, gather, nothing_yet};
use crate::partner::Partner;
use crate::row::row;
use crate::tally::Tally;
use kern_meaning::{Scratch, for_kernel, pair};
use kern_token::Name;
use kern_types::{Typed, forces, forces_and_slots_are_few, kernel, slots, targets};
use pf_geom::Edge;
use pf_model::{Body, MOST_PARTICLES};
use pf_num::OutOfMemory;
use run_model::{What, exerted, received};
use std::alloc::Global;

/// What is kept for the pairs of a kernel.
#[derive(Drop)]
pub(crate) struct PairRoom {
    pub(crate) scratch: Scratch,
    pub(crate) targets: Vec<Name>,
    pub(crate) tallies: Vec<Tally>,
}

/// What a worker keeps for the forces by a kernel, in a box of this edge.
#[derive(Drop)]
pub struct Work {
    pub(crate) edge: Edge,
    pub(crate) room: PairRoom,
}

/// Room for the pairs of a kernel, in a box of this edge.
pub fn work_for(alloc: Global, t: &Typed, edge: Edge) -> Result<Work, OutOfMemory>
    ensures work { IfOk result (IsWorkFor t.now) }
    ensures edge { IfOk result (λ work. work.edge ≡ edge) }
{
    Ok(Work {
        edge,
        room: PairRoom {
            scratch: for_kernel(alloc, t)?,
            targets: targets(alloc, t)?,
            tallies: nothing_yet(alloc, forces(t))?,
        },
    })
}

/// Writes the forces on a particle by its partners, which a list of entries has: the numbers of all FORCE
/// variables, in order of declaration. Its fault is the first pair that faults, by list place, or where
/// none does the first FORCE variable whose sum isn't an `i64`.
pub(crate) fn forces_on(
    t: &Typed,
    edge: Edge,
    partners: &[Partner],
    i: &Body,
    work: &mut PairRoom,
    numbers: &mut [i64],
) -> Result<(), What>
    requires few { length partners.now ≤ MOST_PARTICLES }
    requires ready { IsReady t.now work.old.scratch work.old.targets.items (length work.old.tallies.items) }
    requires width { length numbers.old ≡ row_width (forces_of t.now.decls) }
    ensures ready { IsReady t.now work.new.scratch work.new.targets.items (length work.new.tallies.items) }
    ensures width { length numbers.new ≡ length numbers.old }
    ensures ok { OnOk result ((entries : List ListEntry) → partners.now ≡ map partner_of entries
        → AreForces edge t.now entries i.now numbers.new) }
    ensures fault { IfErr result (λ what. (entries : List ListEntry) → partners.now ≡ map partner_of entries
        → force_fault edge t.now entries i.now ≡ Some what) }
{
    forces_and_slots_are_few();
    let _kernel = kernel(t);
    match gather_pairs(t, edge, partners, i, work) {
        Ok(()) => row(forces(t), &work.tallies, numbers),
        Err(what) => Err(what),
    }
}

// Adds up the pairs of a particle, or finds the first that faults.
fn gather_pairs(
    t: &Typed,
    edge: Edge,
    partners: &[Partner],
    i: &Body,
    work: &mut PairRoom,
) -> Result<(), What>
    requires few { length partners.now ≤ MOST_PARTICLES }
    requires ready { IsReady t.now work.old.scratch work.old.targets.items (length work.old.tallies.items) }
    ensures ready { IsReady t.now work.new.scratch work.new.targets.items (length work.new.tallies.items) }
    ensures no_fault { OnOk result (first_given pair_fault (pairs_by edge t.now i.now partners.now) ≡ None) }
    ensures gathered { OnOk result (work.new.tallies.items
        ≡ each_with (with_pairs t.now (pairs_by edge t.now i.now partners.now)) (forces_of t.now.decls)
        (nothing_of (forces_of t.now.decls))) }
    ensures fault { IfErr result (λ what. first_given pair_fault (pairs_by edge t.now i.now partners.now) ≡ Some what) }
{
    let received = received(edge, i);
    clear(forces(t), &mut work.tallies);
    for partner in partners {
        if is_another(i.id, partner.id) {
            let item = exerted(edge, i.at, &partner.item);
            match pair(t, &received, &item, &mut work.scratch) {
                Ok(()) => gather(
                    forces(t),
                    &work.targets,
                    slots(t),
                    &work.scratch,
                    &mut work.tallies,
                ),
                Err(fault) => return Err(What::Pair(fault.kind, fault.statement)),
            }
        }
    }
    Ok(())
}

fn is_another(id: u32, own: Option<u32>) -> bool
    ensures { result ≡ is_another id own }
{
    own != Some(id)
}
