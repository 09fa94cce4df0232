ghost use Rattle.std.specs.Prelude.{◌≡◌, IfOk, OnOk};
ghost use Rattle.lane_codegen.specs.Writing as rules;

use crate::acts::{Acts, alike};
use crate::place::{Place, Registers};
use kern_tree::Kind;
use kern_types::{ExprType, TypeFault};
use lane_code::{Instr, Instructions, Lane, RawCode};
use pf_geom::Axis;
use pf_num::OutOfMemory;
use std::alloc::Global;
use std::marker::Model;

/// The code as far as it is written. Registers are counted upward, and each number of an expression and each mask is
/// written once.
#[derive(Drop)]
pub(crate) struct Writer {
    numbers: u32,
    masks: u32,
    slots: u32,
    steps: Vec<Instr>,
}

impl Model for Writer {
    ghost use Rattle.lane_code.specs.declared.code.RawCode.{RawCode};

    ghost Value = { RawCode };

    ghost view = { λ w. record { numbers = w.numbers; masks = w.masks; slots = w.slots; steps = w.steps.items } };
}

impl Writer {
    pub(crate) fn new(alloc: Global) -> Writer
        ensures { result ≡ rules.nothing_written }
    {
        Writer {
            numbers: 0,
            masks: 1,
            slots: 0,
            steps: Vec::new(alloc),
        }
    }

    pub(crate) fn into_raw(self) -> RawCode
        ensures { result ≡ self }
    {
        RawCode {
            numbers: self.numbers,
            masks: self.masks,
            slots: self.slots,
            steps: Instructions::from_vec(self.steps),
        }
    }

    /// Writes a new number register.
    fn number(&mut self, under: u32, act: Lane) -> Result<u32, OutOfMemory>
        ensures register { IfOk result (λ out. out ≡ self.old.numbers) }
        ensures code { OnOk result (self.new ≡ rules.with_number under act self.old) }
    {
        let out = self.numbers;
        self.numbers = out.checked_add(1).ok_or(OutOfMemory)?;
        self.steps.push(Instr { under, out, act })?;
        Ok(out)
    }

    /// Writes a new mask register.
    pub(crate) fn mask(&mut self, under: u32, act: Lane) -> Result<u32, OutOfMemory>
        ensures register { IfOk result (λ out. out ≡ self.old.masks) }
        ensures code { OnOk result (self.new ≡ rules.with_mask under act self.old) }
    {
        let out = self.masks;
        self.masks = out.checked_add(1).ok_or(OutOfMemory)?;
        self.steps.push(Instr { under, out, act })?;
        Ok(out)
    }

    /// Writes new registers for a num or a vec.
    pub(crate) fn numbers(
        &mut self,
        under: u32,
        kind: Kind,
        acts: Acts,
    ) -> Result<Registers, OutOfMemory>
        ensures registers { IfOk result (λ at. at ≡ rules.new_registers kind self.old.numbers) }
        ensures code { OnOk result (self.new ≡ rules.with_numbers kind acts under self.old) }
    {
        let x = self.number(under, acts.x)?;
        match kind {
            Kind::Num => Ok(Registers { x, y: x, z: x }),
            Kind::Vec3 => {
                let y = self.number(under, acts.y)?;
                let z = self.number(under, acts.z)?;
                Ok(Registers { x, y, z })
            }
        }
    }

    /// Writes a value of this type.
    pub(crate) fn value(
        &mut self,
        under: u32,
        type_: ExprType,
        acts: Acts,
    ) -> Result<Place, OutOfMemory>
        ensures { rules.Writes result self.new (rules.value_made type_ acts under self.old) }
    {
        match type_ {
            ExprType::Scaled(kind, scale) => {
                let at = self.numbers(under, kind, acts)?;
                Ok(Place::Scaled(kind, scale, at))
            }
            ExprType::Condition => {
                let mask = self.mask(under, acts.x)?;
                Ok(Place::Condition(mask))
            }
        }
    }

    /// Writes a value of this type, where there is one.
    pub(crate) fn typed(
        &mut self,
        under: u32,
        type_: Result<ExprType, TypeFault>,
        acts: Acts,
    ) -> Result<Place, OutOfMemory>
        ensures { rules.Writes result self.new (rules.typed_made type_ acts under self.old) }
    {
        match type_ {
            Ok(type_) => self.value(under, type_, acts),
            Err(_) => self.nothing(under),
        }
    }

    /// Writes a number that nobody reads: what has no type has no value.
    pub(crate) fn nothing(&mut self, under: u32) -> Result<Place, OutOfMemory>
        ensures { rules.Writes result self.new (rules.nothing_made under self.old) }
    {
        self.value(under, ExprType::Scaled(Kind::Num, 0), alike(Lane::Const(0)))
    }

    /// Copies registers to others that were written before.
    pub(crate) fn copy_to(
        &mut self,
        under: u32,
        kind: Kind,
        to: Registers,
        from: Registers,
    ) -> Result<(), OutOfMemory>
        ensures { OnOk result (self.new ≡ rules.with_copies kind to from under self.old) }
    {
        self.copy(under, to.x, from.x)?;
        match kind {
            Kind::Num => Ok(()),
            Kind::Vec3 => {
                self.copy(under, to.y, from.y)?;
                self.copy(under, to.z, from.z)
            }
        }
    }

    fn copy(&mut self, under: u32, out: u32, from: u32) -> Result<(), OutOfMemory>
        ensures { OnOk result (self.new ≡ rules.with_copy under out from self.old) }
    {
        self.steps.push(Instr {
            under,
            out,
            act: Lane::Copy(from),
        })?;
        Ok(())
    }

    /// Gives a value to the next slot.
    pub(crate) fn give(&mut self, under: u32, place: Place) -> Result<(), OutOfMemory>
        ensures { OnOk result (self.new ≡ rules.with_gift place under self.old) }
    {
        let next = self.slots.checked_add(1).ok_or(OutOfMemory)?;
        match place {
            Place::Scaled(Kind::Num, _, at) => self.give_along(under, Axis::X, at.x)?,
            Place::Scaled(Kind::Vec3, _, at) => {
                self.give_along(under, Axis::X, at.x)?;
                self.give_along(under, Axis::Y, at.y)?;
                self.give_along(under, Axis::Z, at.z)?;
            }
            Place::Condition(_) => {}
        }
        self.slots = next;
        Ok(())
    }

    fn give_along(&mut self, under: u32, axis: Axis, from: u32) -> Result<(), OutOfMemory>
        ensures { OnOk result (self.new ≡ rules.with_part axis from under self.old) }
    {
        self.steps.push(Instr {
            under,
            out: 0,
            act: Lane::Give(self.slots, axis, from),
        })?;
        Ok(())
    }
}
