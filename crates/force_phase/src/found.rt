ghost use Rattle.std.specs.Prelude.{◌≡◌, ◌++◌, OnOk, IfOk, IfErr, None, map, nat_eq};
ghost use Rattle.std.specs.List.{IsDistinct};
ghost use Rattle.force_phase.specs.Found as rules;

use crate::phase::IdRow;
use order_laws::distinct_keys_rise;
use pf_model::Body;
use run_model::{Fault, PhaseFault, Row};
use std::alloc::{AllocError, Global};
use std::marker::Model;

/// What the groups finished so far gave: the forces on those without a fault, and the least fault by id.
#[derive(Drop)]
pub(crate) struct Found {
    pub(crate) rows: Vec<IdRow>,
    pub(crate) least: Option<Fault>,
}

impl Model for Found {
    ghost use Rattle.force_phase.specs.Found.{FoundSoFar};

    ghost Value = { FoundSoFar };

    ghost view = { λ f. record { rows = f.rows.items; least = f.least } };
}

impl Found {
    /// Nothing yet.
    pub(crate) fn nothing(alloc: Global) -> Found
        ensures { result ≡ rules.nothing }
    {
        Found {
            rows: Vec::new(alloc),
            least: None,
        }
    }

    /// Adds the forces on the particles of a group, in their order.
    pub(crate) fn add_rows(
        &mut self,
        alloc: Global,
        bodies: &[Body],
        rows: Vec<Row>,
    ) -> Result<(), AllocError>
        ensures { OnOk result (self.new ≡ rules.with_rows self.old bodies.now rows.items) }
    {
        add_all(&mut self.rows, under_ids(alloc, bodies, rows)?)
    }

    /// Adds the least fault of a group.
    pub(crate) fn add_fault(&mut self, fault: Fault)
        ensures { self.new ≡ rules.with_fault self.old fault }
    {
        self.least = Some(lesser(self.least, fault));
    }

    /// Adds what other groups gave.
    pub(crate) fn take_in(&mut self, other: Found) -> Result<(), AllocError>
        ensures { OnOk result (self.new ≡ rules.of_both self.old other) }
    {
        if let Some(fault) = other.least {
            self.add_fault(fault);
        }
        add_all(&mut self.rows, other.rows)
    }

    /// The forces by ascending id, or the least fault.
    pub(crate) fn answer(self) -> Result<Vec<IdRow>, PhaseFault>
        requires { self.least ≡ None → IsDistinct nat_eq (map (λ r. r.id) self.rows) }
        ensures none { OnOk result (self.least ≡ None) }
        ensures rows { IfOk result (λ rows. rules.AreInOrderOfId self.rows rows.items) }
        ensures fault { IfErr result (λ stop. rules.IsLeastOf self.least stop) }
    {
        match self.least {
            Some(fault) => Err(PhaseFault::Numeric(fault)),
            None => {
                let mut rows = self.rows;
                sort_by_id(&mut rows);
                Ok(rows)
            }
        }
    }
}

// Adds rows after those that are there.
fn add_all(rows: &mut Vec<IdRow>, more: Vec<IdRow>) -> Result<(), AllocError>
    ensures { OnOk result (rows.new.items ≡ rows.old.items ++ more.items) }
{
    for row in more {
        rows.push(row)?;
    }
    Ok(())
}

// The rows of particles, which stand in the same order, under their ids.
fn under_ids(alloc: Global, bodies: &[Body], rows: Vec<Row>) -> Result<Vec<IdRow>, AllocError>
    ensures { IfOk result (λ named. named.items ≡ rules.under_ids bodies.now rows.items) }
{
    bodies
        .iter()
        .zip(rows)
        .map(|(body, row)| IdRow { id: body.id, row })
        .collect(alloc)
}

/// The fault of the lesser id.
pub(crate) fn lesser(least: Option<Fault>, fault: Fault) -> Fault
    ensures { result ≡ rules.lesser least fault }
{
    match least {
        Some(earlier) if earlier.id <= fault.id => earlier,
        _ => fault,
    }
}

fn sort_by_id(rows: &mut [IdRow])
    requires { IsDistinct nat_eq (map (λ r. r.id) rows.old) }
    ensures { rules.AreInOrderOfId rows.old rows.new }
{
    distinct_keys_rise::<IdRow>();
    rows.sort_unstable_by_key(|row| row.id);
}
