ghost use Rattle.std.specs.Prelude.{◌≡◌, OnOk};
ghost use Rattle.lane_codegen.specs.Statements as rules;

use crate::acts::copies;
use crate::expression::expression_code;
use crate::place::Place;
use crate::variable::{Assigned, entry_of};
use crate::writer::Writer;
use kern_token::Name;
use kern_tree::{Act, Decl, Expr, Stmt};
use lane_code::Lane;
use pf_num::OutOfMemory;

/// Writes statements in text order. The table has the names that are assigned earlier in the text.
#[cycle(statements)]
pub(crate) fn block_code(
    decls: &[Decl],
    table: &mut Vec<Assigned>,
    writer: &mut Writer,
    under: u32,
    block: &[Stmt],
) -> Result<(), OutOfMemory>
    ensures { OnOk result (rules.block_code decls.now block.now under
        (record { table = table.old.items; code = writer.old })
        ≡ record { table = table.new.items; code = writer.new }) }
{
    for stmt in block {
        act_code(decls, table, writer, under, &stmt.act)?;
    }
    Ok(())
}

#[cycle(statements)]
fn act_code(
    decls: &[Decl],
    table: &mut Vec<Assigned>,
    writer: &mut Writer,
    under: u32,
    act: &Act,
) -> Result<(), OutOfMemory>
    ensures { OnOk result (rules.act_code decls.now act.now under
        (record { table = table.old.items; code = writer.old })
        ≡ record { table = table.new.items; code = writer.new }) }
{
    match act {
        Act::Set(name, value) => set_code(decls, table, writer, under, name, value),
        Act::Give(_, value) => give_code(decls, table, writer, under, value),
        Act::If(condition, body, others) => {
            let place = expression_code(decls, table, writer, under, condition)?;
            let Place::Condition(mask) = place else {
                return Ok(());
            };
            let rest = writer.mask(under, Lane::AndNot(under, mask))?;
            block_code(decls, table, writer, mask, body.as_slice())?;
            block_code(decls, table, writer, rest, others.as_slice())
        }
    }
}

fn set_code(
    decls: &[Decl],
    table: &mut Vec<Assigned>,
    writer: &mut Writer,
    under: u32,
    name: &Name,
    value: &Expr,
) -> Result<(), OutOfMemory>
    ensures { OnOk result (rules.set_written decls.now name.now value.now under
        (record { table = table.old.items; code = writer.old })
        ≡ record { table = table.new.items; code = writer.new }) }
{
    let place = expression_code(decls, table, writer, under, value)?;
    hold(table, writer, under, name, place)
}

fn give_code(
    decls: &[Decl],
    table: &[Assigned],
    writer: &mut Writer,
    under: u32,
    value: &Expr,
) -> Result<(), OutOfMemory>
    ensures { OnOk result (writer.new ≡ rules.gift_written decls.now value.now under table.now writer.old) }
{
    let place = expression_code(decls, table, writer, under, value)?;
    writer.give(under, place)
}

// Assigns a value to a name. It is copied, as it may stand in the registers of other names or of this one.
fn hold(
    table: &mut Vec<Assigned>,
    writer: &mut Writer,
    under: u32,
    name: &Name,
    place: Place,
) -> Result<(), OutOfMemory>
    ensures { OnOk result (rules.held name.now under table.old.items place writer.old
        ≡ record { table = table.new.items; code = writer.new }) }
{
    let Place::Scaled(kind, scale, from) = place else {
        return Ok(());
    };
    let at = writer.numbers(under, kind, copies(from))?;
    match entry_of(table, name) {
        Some(old) => writer.copy_to(under, kind, old.at, at),
        None => {
            table.push(Assigned {
                name: name.clone()?,
                kind,
                scale,
                at,
            })?;
            Ok(())
        }
    }
}
