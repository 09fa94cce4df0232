ghost use Rattle.std.specs.Prelude.{◌≡◌, ◌+◌, ◌*◌, ◌<◌, ◌≤◌, ◌^◌, ℕ, true, IfOk, OnOk, OnErr, All, length, vec_len, map};
ghost use Rattle.std.specs.Option.{is_some};
ghost use Rattle.pf_num.specs.Exact.{exact};
ghost use Rattle.kern_types.specs.Declarations.{forces_of};
ghost use Rattle.lane_code.specs.Validity.{is_shifted_little};
ghost use Rattle.lane_machine.specs.Block.{SomeLaneFaults};
ghost use Rattle.lane_machine.specs.Columns.{start_of};
ghost use Rattle.lane_machine.specs.Contributions.{contributions_at, outcome_at};
ghost use Rattle.lane_machine.specs.Gathered.{AddsLanes, total_at};
ghost use Rattle.lane_machine.specs.Sums.{AddsItems, IsCleared, IsMadeFor, number_of_force};
ghost use Rattle.lane_machine.specs.Total.{AreFew, along, nothing};

use crate::number::Faulted;
use crate::registers::Registers;
use crate::run::run_all;
use crate::total::Total;
use kern_token::Name;
use kern_types::{ForceVar, Typed, forces, forces_and_slots_are_few, kernel, targets};
use lane_code::Instr;
use pf_geom::Axis;
use pf_model::{Body, Item};
use pf_num::{NumFault, OutOfMemory};
use std::alloc::{AllocError, Global};
use std::marker::Model;

/// What has been given to the FORCE variables of a kernel so far, exact.
#[derive(Debug, Drop)]
pub struct Sums {
    // The variable of each slot.
    slots: Vec<u32>,
    totals: Vec<Total>,
    // Room for the totals as they were before a run.
    kept: Vec<Total>,
    // How many items it is of.
    items: u32,
}

impl Model for Sums {
    ghost use Rattle.lane_machine.specs.Sums.{Collected, IsCollected};

    ghost Value = { Collected };

    ghost view = { λ s. record { slots = s.slots.items; totals = s.totals.items; items = s.items } };

    ghost invariant = { λ s. IsCollected s.totals.items s.kept.items s.items };
}

impl Sums {
    /// Nothing yet for the FORCE variables of a kernel.
    pub fn of(alloc: Global, t: &Typed) -> Result<Sums, OutOfMemory>
        ensures { IfOk result (IsMadeFor t.now) }
    {
        forces_and_slots_are_few();
        let _kernel = kernel(t);
        let totals = nothing_yet(alloc, forces(t))?;
        let kept = nothing_yet(alloc, forces(t))?;
        let slots = forces_of_slots(alloc, forces(t), &targets(alloc, t)?)?;
        Ok(Sums {
            slots,
            totals,
            kept,
            items: 0,
        })
    }

    /// Makes it one of nothing. It takes no memory.
    pub fn clear(&mut self)
        ensures { IsCleared self.old self.new }
    {
        clear_all(self.totals.as_mut_slice());
        self.items = 0;
    }

    /// What was given to a FORCE variable along an axis: `Overflow` exactly where that isn't an `i64`. Variables count
    /// from 0 in order of declaration, and a number stands along x. It takes no memory.
    pub fn close(&self, force: u32, axis: Axis) -> Result<i64, NumFault>
        requires { force < length self.now.totals }
        ensures { result ≡ exact (along axis (total_at self.now.totals force)) }
    {
        narrowed(self.totals[force as usize].along(axis))
    }

    /// Adds what instructions give for items, or nothing where a lane faults.
    pub(crate) fn run(
        &mut self,
        i: &Body,
        items: &[Item],
        steps: &[Instr],
        registers: &mut Registers,
    ) -> Result<(), Faulted>
        requires shift { All (λ x. is_shifted_little x.act ≡ true) steps.now }
        requires steps { length steps.now < 2 ^ 32 }
        requires few { self.old.items + length items.now ≤ 65536 }
        ensures fine { OnOk result ((n : ℕ) → n < length items.now → is_some (outcome_at i.now items.now steps.now
            (start_of (vec_len registers.old.numbers) (vec_len registers.old.masks)) n) ≡ true) }
        ensures added { OnOk result (AddsLanes self.old.slots (contributions_at i.now items.now steps.now
            (start_of (vec_len registers.old.numbers) (vec_len registers.old.masks)))
            (length items.now) (length items.now * 2 ^ 38) self.old.totals self.new.totals) }
        ensures items { OnOk result (self.new.items ≡ self.old.items + length items.now) }
        ensures slots { self.new.slots ≡ self.old.slots }
        ensures fault { OnErr result (SomeLaneFaults (length items.now) (outcome_at i.now items.now steps.now
            (start_of (vec_len registers.old.numbers) (vec_len registers.old.masks)))) }
        ensures kept { OnErr result (self.new ≡ self.old) }
        ensures numbers { vec_len registers.new.numbers ≡ vec_len registers.old.numbers }
        ensures masks { vec_len registers.new.masks ≡ vec_len registers.old.masks }
    {
        let totals = self.totals.as_mut_slice();
        let kept = self.kept.as_mut_slice();
        run_or_keep(i, items, steps, registers, &self.slots, totals, kept)?;
        self.items += items.len() as u32;
        Ok(())
    }
}

// Adds what instructions give for items, or nothing where a lane faults. `kept` is room for the totals as they were.
fn run_or_keep(
    i: &Body,
    items: &[Item],
    steps: &[Instr],
    registers: &mut Registers,
    slots: &[u32],
    totals: &mut [Total],
    kept: &mut [Total],
) -> Result<(), Faulted>
    requires shift { All (λ x. is_shifted_little x.act ≡ true) steps.now }
    requires steps { length steps.now < 2 ^ 32 }
    requires few { length items.now ≤ 65536 }
    requires room { All (AreFew (2 ^ 55)) totals.old }
    requires kept { length kept.old ≡ length totals.old }
    ensures fine { OnOk result ((n : ℕ) → n < length items.now → is_some (outcome_at i.now items.now steps.now
        (start_of (vec_len registers.old.numbers) (vec_len registers.old.masks)) n) ≡ true) }
    ensures added { OnOk result (AddsLanes slots.now (contributions_at i.now items.now steps.now
        (start_of (vec_len registers.old.numbers) (vec_len registers.old.masks)))
        (length items.now) (length items.now * 2 ^ 38) totals.old totals.new) }
    ensures fault { OnErr result (SomeLaneFaults (length items.now) (outcome_at i.now items.now steps.now
        (start_of (vec_len registers.old.numbers) (vec_len registers.old.masks)))) }
    ensures unchanged { OnErr result (totals.new ≡ totals.old) }
    ensures numbers { vec_len registers.new.numbers ≡ vec_len registers.old.numbers }
    ensures masks { vec_len registers.new.masks ≡ vec_len registers.old.masks }
{
    kept.copy_from_slice(totals);
    let done = run_all(i, items, steps, registers, slots, totals);
    if done.is_err() {
        totals.copy_from_slice(kept);
    }
    done
}

// No contribution yet to any variable.
fn nothing_yet(alloc: Global, forces: &[ForceVar]) -> Result<Vec<Total>, AllocError>
    ensures totals { IfOk result (λ totals. totals.items ≡ map (λ v. nothing v.combine) forces.now) }
    ensures few { IfOk result (λ totals. All (AreFew 0) totals.items) }
{
    let mut totals = Vec::with_capacity(alloc, forces.len())?;
    for v in forces {
        totals.push(Total::nothing(v.combine))?;
    }
    Ok(totals)
}

fn clear_all(totals: &mut [Total])
    ensures totals { (f : ℕ) → f < length totals.old → total_at totals.new f ≡ nothing (total_at totals.old f).combine }
    ensures few { All (AreFew 0) totals.new }
{
    for k in 0..totals.len() {
        let total = totals[k];
        totals[k] = Total::nothing(total.combine);
    }
}

// The number of the variable that each of these names is of.
fn forces_of_slots(
    alloc: Global,
    forces: &[ForceVar],
    names: &[Name],
) -> Result<Vec<u32>, AllocError>
    requires { length forces.now < 2 ^ 31 }
    ensures { IfOk result (λ slots. slots.items ≡ map (number_of_force forces.now) names.now) }
{
    let mut slots = Vec::with_capacity(alloc, names.len())?;
    for name in names {
        slots.push(force_of(forces, name))?;
    }
    Ok(slots)
}

// The number of the variable of a name, or how many there are where none has it.
fn force_of(forces: &[ForceVar], name: &Name) -> u32
    requires { length forces.now < 2 ^ 31 }
    ensures { result ≡ number_of_force forces.now name.now }
{
    for (n, v) in forces.iter().enumerate() {
        if v.name == *name {
            return n as u32;
        }
    }
    forces.len() as u32
}

#[tactic(auto, using(crate::proofs::ExactLemmas::narrow_answers))]
fn narrowed(value: i128) -> Result<i64, NumFault>
    ensures { result ≡ exact value }
{
    i64::try_from(value).or(Err(NumFault::Overflow))
}
