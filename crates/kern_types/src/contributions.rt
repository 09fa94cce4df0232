ghost use Rattle.std.specs.Prelude.{◌≡◌, ◌+◌, ◌-◌, ◌^◌, ◌≤◌, ◌++◌, IfOk, OnOk, length, flat_map, min};
ghost use Rattle.kern_tree.specs.Nodes.{stmt_nodes};
ghost use Rattle.kern_types.specs.Statements.{slots_in, slots_in_act, nodes_in_act, targets_in, targets_in_act};

use kern_token::Name;
use kern_tree::{Act, Stmt};
use std::alloc::{AllocError, Global};

/// The number of statements `+=` among these and in their blocks.
#[cycle(slots)]
pub(crate) fn count_slots(block: &[Stmt]) -> u32
    ensures value { result ≡ min (slots_in block.now) (2 ^ 32 - 1) }
    // Each is a node.
    ensures within { slots_in block.now ≤ length (flat_map stmt_nodes block.now) }
{
    let mut count: u32 = 0;
    for stmt in block {
        count = count.saturating_add(slots_of(&stmt.act));
    }
    count
}

#[cycle(slots)]
fn slots_of(act: &Act) -> u32
    ensures value { result ≡ min (slots_in_act act.now) (2 ^ 32 - 1) }
    ensures within { slots_in_act act.now ≤ length (nodes_in_act act.now) + 1 }
{
    match act {
        Act::Set(_, _) => 0,
        Act::Give(_, _) => 1,
        Act::If(_, block, other) => {
            count_slots(block.as_slice()).saturating_add(count_slots(other.as_slice()))
        }
    }
}

/// The names that the statements `+=` among these and in their blocks give to, in text order.
pub(crate) fn targets_of(alloc: Global, block: &[Stmt]) -> Result<Vec<Name>, AllocError>
    ensures { IfOk result (λ names. names.items ≡ targets_in block.now) }
{
    let mut names = Vec::new(alloc);
    push_targets(&mut names, block)?;
    Ok(names)
}

#[cycle(targets)]
fn push_targets(names: &mut Vec<Name>, block: &[Stmt]) -> Result<(), AllocError>
    ensures { OnOk result (names.new.items ≡ names.old.items ++ targets_in block.now) }
{
    for stmt in block {
        push_targets_by(names, &stmt.act)?;
    }
    Ok(())
}

#[cycle(targets)]
fn push_targets_by(names: &mut Vec<Name>, act: &Act) -> Result<(), AllocError>
    ensures { OnOk result (names.new.items ≡ names.old.items ++ targets_in_act act.now) }
{
    match act {
        Act::Set(_, _) => Ok(()),
        Act::Give(name, _) => {
            names.push(name.clone()?)?;
            Ok(())
        }
        Act::If(_, body, others) => {
            push_targets(names, body.as_slice())?;
            push_targets(names, others.as_slice())
        }
    }
}
