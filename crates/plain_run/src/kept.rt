ghost use Rattle.std.specs.Prelude.{◌≡◌, ◌≤◌, All, IfOk, find, filter, length, nat_eq, unwrap_or};
ghost use Rattle.std.specs.List.{list_any};
ghost use Rattle.pf_model.specs.declared.limits.TheConstants.{MOST_PARTICLES};
ghost use Rattle.pf_model.specs.Particles.{AreBodies};
ghost use Rattle.pf_model.specs.Interaction.{leads_to_cell, members_of};
ghost use Rattle.pf_model.specs.Reuse as rules;
ghost use Rattle.pf_model.specs.Sums.{moment_of};
ghost use Rattle.plain_run.specs.Lists.{HasMembers, HaveOneOrder, is_of_cell};

use model_laws::{lists_are_short, lists_hold_their_entries, moments_add_up};
use pf_geom::{Box3, Cell};
use pf_model::{Body, Entry, MOST_PARTICLES, Moment, Theta, slow_list};
use pf_num::OutOfMemory;
use std::alloc::Global;
use std::slice::from_ref;

// The list of a box over the bodies of a build, with its cells and members as they are now.
pub(crate) fn kept_list(
    alloc: Global,
    theta: Theta,
    around: Box3,
    built: &[Body],
    now: &[Body],
) -> Result<Vec<Entry>, OutOfMemory>
    requires built { AreBodies built.now }
    requires same { HaveOneOrder built.now now.now }
    ensures value { IfOk result (λ kept. kept.items ≡ rules.kept_list theta around built.now now.now) }
    ensures some { IfOk result (λ kept. All HasMembers kept.items) }
    ensures few { IfOk result (λ kept. length kept.items ≤ length built.now) }
{
    lists_are_short();
    lists_hold_their_entries();
    let entries = slow_list(alloc, built, around, theta)?;
    let mut kept = Vec::new(alloc);
    for entry in &entries {
        kept.push(present_entry(alloc, theta, around, built, now, entry)?)?;
    }
    Ok(kept)
}

// An entry of the build as it is now.
fn present_entry(
    alloc: Global,
    theta: Theta,
    around: Box3,
    built: &[Body],
    now: &[Body],
    entry: &Entry,
) -> Result<Entry, OutOfMemory>
    requires { length now.now ≤ MOST_PARTICLES }
    ensures { IfOk result (λ e.
        e ≡ rules.present_entry now.now (members_of theta around built.now entry.now) entry.now) }
{
    match entry {
        Entry::Cell(cell, _) => {
            let members = members_of_cell(alloc, theta, around, built, *cell)?;
            let present = present(alloc, now, &members)?;
            Ok(Entry::Cell(*cell, moment_of(&present)))
        }
        Entry::One(body) => Ok(Entry::One(found(now, body))),
    }
}

// The bodies that lead to a cell.
fn members_of_cell(
    alloc: Global,
    theta: Theta,
    around: Box3,
    built: &[Body],
    cell: Cell,
) -> Result<Vec<Body>, OutOfMemory>
    ensures { IfOk result (λ members. members.items ≡ filter (leads_to_cell theta around cell) built.now) }
{
    let mut members = Vec::new(alloc);
    for body in built {
        if leads_to_cell(alloc, theta, around, cell, body)? {
            members.push(*body)?;
        }
    }
    Ok(members)
}

// Whether a body leads to a cell: its list, of it alone, is this cell.
fn leads_to_cell(
    alloc: Global,
    theta: Theta,
    around: Box3,
    cell: Cell,
    body: &Body,
) -> Result<bool, OutOfMemory>
    ensures { IfOk result (λ leads. leads ≡ leads_to_cell theta around cell body.now) }
{
    let entries = slow_list(alloc, from_ref(body), around, theta)?;
    Ok(has_cell(&entries, cell))
}

fn has_cell(entries: &[Entry], cell: Cell) -> bool
    ensures { result ≡ list_any (is_of_cell cell) entries.now }
{
    entries.iter().any(|entry| is_of_cell(entry, cell))
}

fn is_of_cell(entry: &Entry, cell: Cell) -> bool
    ensures { result ≡ is_of_cell cell entry.now }
{
    match entry {
        Entry::Cell(own, _) => cell.level == own.level && cell.key == own.key,
        Entry::One(_) => false,
    }
}

// Some bodies as they are now: those with their ids.
fn present(alloc: Global, now: &[Body], some: &[Body]) -> Result<Vec<Body>, OutOfMemory>
    ensures value { IfOk result (λ present. present.items ≡ rules.present now.now some.now) }
    ensures few { IfOk result (λ present. length present.items ≤ length now.now) }
{
    Ok(
        now.iter()
            .filter(|body| has_id(some, body.id))
            .copied()
            .collect(alloc)?,
    )
}

fn has_id(some: &[Body], id: u32) -> bool
    ensures { result ≡ list_any (λ j. nat_eq id j.id) some.now }
{
    some.iter().any(|body| id == body.id)
}

// The body of the same id, or else the body itself.
pub(crate) fn found(bodies: &[Body], body: &Body) -> Body
    ensures { result ≡ unwrap_or (find (λ b. nat_eq body.now.id b.id) bodies.now) body.now }
{
    for other in bodies {
        if body.id == other.id {
            return *other;
        }
    }
    *body
}

fn moment_of(bodies: &[Body]) -> Moment
    requires { length bodies.now ≤ MOST_PARTICLES }
    ensures { result ≡ moment_of bodies.now }
{
    moments_add_up();
    let mut moment = Moment::none();
    for body in bodies {
        moment = moment.merge(Moment::of_one(body));
    }
    moment
}
