ghost use Rattle.std.specs.Prelude.{◌≡◌, ◌+◌, ◌^◌, ◌<◌, Some, drop, length, slice_set};
ghost use Rattle.kern_types.specs.Names.{declaration as declaration_of};
ghost use Rattle.kern_meaning.specs.Expressions as meanings;
ghost use Rattle.kern_meaning.specs.Links as resolved;
ghost use Rattle.kern_meaning.specs.Names.{known_at_start};
ghost use Rattle.kern_meaning.specs.Pair as rules;
ghost use Rattle.kern_meaning.specs.Walks.{HavePlaces, WritesAt, Runs, assigned_by, assigned_in, known_by, pair_state};

use crate::expression::{contribution_of, number_value_of, truth_of};
use crate::link::{Link, assigned_number, force_at, later, split};
use crate::{PairFault, PairKind, PairStop, Stop, Value};
use kern_token::Name;
use kern_tree::{Act, Decl, Expr, Stmt};
use pf_model::{Body, Item};
use pf_num::NumFault;

/// What the statements of a kernel need for a pair. A statement is called with its number and with the
/// count of `+=` before it, and answers those of the next.
#[derive(Clone, Copy)]
pub(crate) struct Walk<'s> {
    /// What the contracts read: the links say the same.
    pub(crate) decls: &'s [Decl],
    pub(crate) names: &'s [Name],
    pub(crate) i: &'s Body,
    pub(crate) j: &'s Item,
    /// Whether the item's centre is the particle's position.
    pub(crate) coincident: bool,
}

impl Walk<'_> {
    #[cycle(statements)]
    pub(crate) fn block(
        &self,
        block: &[Stmt],
        links: &[Link],
        first: u32,
        before: u32,
        values: &mut [Option<Value>],
        slots: &mut [Option<Value>],
    ) -> Result<(u32, u32), PairStop>
        requires numbers { first
            + (rules.block_meaning self.now.decls.now self.now.coincident block.now).count < 2 ^ 32 }
        requires slots { before
            + (rules.block_meaning self.now.decls.now self.now.coincident block.now).slots < 2 ^ 32 }
        requires places { HavePlaces self.now.names.now values.old (assigned_in block.now) }
        requires links { links.now ≡ resolved.links_of_block self.now.names.now self.now.decls.now block.now }
        ensures { Runs result (rules.block_meaning self.now.decls.now self.now.coincident block.now) first before
            (pair_state (known_at_start self.now.decls.now self.now.i.now self.now.j.now)
            self.now.names.now values.old slots.old)
            (pair_state (known_at_start self.now.decls.now self.now.i.now self.now.j.now)
            self.now.names.now values.new slots.new) }
    {
        let mut number = first;
        let mut slot = before;
        let mut rest = links;
        for stmt in block {
            let parts = split(rest);
            let next = self.act(&stmt.act, parts.0, number, slot, values, slots)?;
            rest = parts.1;
            number = next.0;
            slot = next.1;
        }
        Ok((number, slot))
    }

    #[cycle(statements)]
    fn act(
        &self,
        act: &Act,
        links: &[Link],
        number: u32,
        slot: u32,
        values: &mut [Option<Value>],
        slots: &mut [Option<Value>],
    ) -> Result<(u32, u32), PairStop>
        requires numbers { number
            + (rules.act_meaning self.now.decls.now self.now.coincident act.now).count < 2 ^ 32 }
        requires slots { slot
            + (rules.act_meaning self.now.decls.now self.now.coincident act.now).slots < 2 ^ 32 }
        requires places { HavePlaces self.now.names.now values.old (assigned_by act.now) }
        requires links { links.now ≡ resolved.links_of_act self.now.names.now self.now.decls.now act.now }
        ensures { Runs result (rules.act_meaning self.now.decls.now self.now.coincident act.now) number slot
            (pair_state (known_at_start self.now.decls.now self.now.i.now self.now.j.now)
            self.now.names.now values.old slots.old)
            (pair_state (known_at_start self.now.decls.now self.now.i.now self.now.j.now)
            self.now.names.now values.new slots.new) }
    {
        match act {
            Act::Set(_, value) => {
                let mut held = Value::Condition(false);
                self.hold(value, later(links), number, values, &mut held)?;
                assign(values, assigned_number(links), held);
                Ok((number + 1, slot))
            }
            Act::Give(_, value) => {
                let mut given = Value::Condition(false);
                self.contribute(value, links, number, values, &mut given)?;
                give(slots, slot, given);
                Ok((number + 1, slot + 1))
            }
            Act::If(condition, body, others) => {
                let parts = split(links);
                let blocks = split(parts.1);
                let holds = truth_of(condition, parts.0, self, values);
                if at_statement(self.coincident, number, holds)? {
                    let end = self.block(
                        body.as_slice(),
                        blocks.0,
                        number + 1,
                        slot,
                        values,
                        slots,
                    )?;
                    Ok(self.past(others.as_slice(), end.0, end.1))
                } else {
                    let start = self.past(body.as_slice(), number + 1, slot);
                    self.block(others.as_slice(), blocks.1, start.0, start.1, values, slots)
                }
            }
        }
    }

    // Writes the value that the statement of this number assigns.
    fn hold(
        &self,
        expr: &Expr,
        links: &[Link],
        number: u32,
        values: &[Option<Value>],
        held: &mut Value,
    ) -> Result<(), PairStop>
        requires links { links.now ≡ resolved.links_of self.now.names.now self.now.decls.now expr.now }
        requires same { length values.now ≡ length self.now.names.now }
        ensures { WritesAt result (rules.at_statement self.now.coincident number (meanings.number_value_of (known_by
            (known_at_start self.now.decls.now self.now.i.now self.now.j.now) self.now.names.now values.now)
            expr.now)) held.new }
    {
        match number_value_of(expr, links, self, values, held) {
            Ok(()) => Ok(()),
            Err(stop) => Err(pair_stop(self.coincident, number, stop)),
        }
    }

    // Writes what the statement of this number contributes.
    fn contribute(
        &self,
        expr: &Expr,
        links: &[Link],
        number: u32,
        values: &[Option<Value>],
        given: &mut Value,
    ) -> Result<(), PairStop>
        requires links { drop 1 links.now ≡ resolved.links_of self.now.names.now self.now.decls.now expr.now }
        requires same { length values.now ≡ length self.now.names.now }
        ensures { WritesAt result (rules.at_statement self.now.coincident number (meanings.contribution_of (known_by
            (known_at_start self.now.decls.now self.now.i.now self.now.j.now) self.now.names.now values.now)
            (resolved.force_at links.now) expr.now)) given.new }
    {
        match contribution_of(expr, force_at(links), later(links), self, values, given) {
            Ok(()) => Ok(()),
            Err(stop) => Err(pair_stop(self.coincident, number, stop)),
        }
    }

    // The next number and the count of `+=`, after statements that aren't run.
    #[cycle(skipped)]
    fn past(&self, block: &[Stmt], first: u32, before: u32) -> (u32, u32)
        requires numbers { first
            + (rules.block_meaning self.now.decls.now self.now.coincident block.now).count < 2 ^ 32 }
        requires slots { before
            + (rules.block_meaning self.now.decls.now self.now.coincident block.now).slots < 2 ^ 32 }
        ensures number { result.0
            ≡ first + (rules.block_meaning self.now.decls.now self.now.coincident block.now).count }
        ensures slot { result.1
            ≡ before + (rules.block_meaning self.now.decls.now self.now.coincident block.now).slots }
    {
        let mut number = first;
        let mut slot = before;
        for stmt in block {
            let next = self.past_act(&stmt.act, number, slot);
            number = next.0;
            slot = next.1;
        }
        (number, slot)
    }

    #[cycle(skipped)]
    fn past_act(&self, act: &Act, number: u32, slot: u32) -> (u32, u32)
        requires numbers { number
            + (rules.act_meaning self.now.decls.now self.now.coincident act.now).count < 2 ^ 32 }
        requires slots { slot
            + (rules.act_meaning self.now.decls.now self.now.coincident act.now).slots < 2 ^ 32 }
        ensures number { result.0
            ≡ number + (rules.act_meaning self.now.decls.now self.now.coincident act.now).count }
        ensures slot { result.1
            ≡ slot + (rules.act_meaning self.now.decls.now self.now.coincident act.now).slots }
    {
        match act {
            Act::Set(_, _) => (number + 1, slot),
            Act::Give(_, _) => (number + 1, slot + 1),
            Act::If(_, body, others) => {
                let between = self.past(body.as_slice(), number + 1, slot);
                self.past(others.as_slice(), between.0, between.1)
            }
        }
    }
}

// name = value; by the name's number.
fn assign(values: &mut [Option<Value>], number: Option<usize>, value: Value)
    ensures { values.new ≡ resolved.assigned values.old number value }
{
    if let Some(number) = number {
        if number < values.len() {
            values[number] = Some(value);
        }
    }
}

// name += value;
fn give(slots: &mut [Option<Value>], slot: u32, value: Value)
    ensures { slots.new ≡ slice_set slots.old slot (Some value) }
{
    let slot = slot as usize;
    if slot < slots.len() {
        slots[slot] = Some(value);
    }
}

// As the own expression of the statement of this number.
fn at_statement<T>(coincident: bool, number: u32, answer: Result<T, Stop>) -> Result<T, PairStop>
    ensures { result ≡ rules.at_statement coincident number answer }
{
    match answer {
        Ok(value) => Ok(value),
        Err(stop) => Err(pair_stop(coincident, number, stop)),
    }
}

fn pair_stop(coincident: bool, number: u32, stop: Stop) -> PairStop
    ensures { result ≡ rules.pair_stop coincident number stop }
{
    match stop {
        Stop::Fault(fault) => PairStop::Fault(PairFault {
            kind: pair_kind(coincident, fault),
            statement: number,
        }),
        Stop::NoResult => PairStop::NoResult,
    }
}

fn pair_kind(coincident: bool, fault: NumFault) -> PairKind
    ensures { result ≡ rules.pair_kind coincident fault }
{
    match fault {
        NumFault::Overflow => PairKind::Overflow,
        NumFault::ZeroDivisor if coincident => PairKind::Coincident,
        NumFault::ZeroDivisor => PairKind::ZeroDivisor,
        NumFault::NegativeRoot => PairKind::NegativeRoot,
    }
}
