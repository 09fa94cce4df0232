ghost use Rattle.std.specs.Prelude.{◌≡◌, ◌+◌, ◌*◌, ◌++◌, codes, map, replicate, OnOk};
ghost use Rattle.std.specs.List.{flat_map};
ghost use Rattle.kern_print.specs.Canonical.{act_text, else_lines, stmt_text};
ghost use Rattle.kern_print.specs.Expressions.{expr_text};

use crate::expr::push_expr;
use crate::pushing::push_text;
use kern_token::Name;
use kern_tree::{Act, Expr, Stmt};
use pf_num::OutOfMemory;

// The depth is the number of blocks around the statements.
#[cycle(blocks)]
pub(crate) fn push_block(out: &mut Vec<u8>, block: &[Stmt], depth: usize) -> Result<(), OutOfMemory>
    ensures { OnOk result
        (out.new.items ≡ out.old.items ++ flat_map (λ stmt. stmt_text stmt depth) block.now) }
{
    for stmt in block {
        push_act(out, &stmt.act, depth)?;
    }
    Ok(())
}

#[cycle(blocks)]
fn push_act(out: &mut Vec<u8>, act: &Act, depth: usize) -> Result<(), OutOfMemory>
    ensures { OnOk result (out.new.items ≡ out.old.items ++ act_text act.now depth) }
{
    push_indent(out, depth)?;
    match act {
        Act::Set(name, value) => push_assignment(out, name, b" = ", value),
        Act::Give(name, value) => push_assignment(out, name, b" += ", value),
        Act::If(condition, block, other) => {
            push_head(out, condition)?;
            push_inner(out, block.as_slice(), depth)?;
            push_else(out, other.as_slice(), depth)?;
            push_indent(out, depth)?;
            push_text(out, b"}\n")
        }
    }
}

// The statements of a block in a statement of this depth. No memory holds 2^64 blocks.
#[cycle(blocks)]
fn push_inner(out: &mut Vec<u8>, block: &[Stmt], depth: usize) -> Result<(), OutOfMemory>
    ensures { OnOk result
        (out.new.items ≡ out.old.items ++ flat_map (λ stmt. stmt_text stmt (depth + 1)) block.now) }
{
    let inner = depth.checked_add(1).ok_or(OutOfMemory)?;
    push_block(out, block, inner)
}

// An empty block of `else` isn't written.
#[cycle(blocks)]
fn push_else(out: &mut Vec<u8>, other: &[Stmt], depth: usize) -> Result<(), OutOfMemory>
    ensures { OnOk result
        (out.new.items ≡ out.old.items ++ else_lines (map stmt_text other.now) depth) }
{
    if other.is_empty() {
        return Ok(());
    }
    push_indent(out, depth)?;
    push_text(out, b"} else {\n")?;
    push_inner(out, other, depth)
}

// `if`, its condition and the bracket that opens the block
fn push_head(out: &mut Vec<u8>, condition: &Expr) -> Result<(), OutOfMemory>
    ensures { OnOk result
        (out.new.items ≡ out.old.items ++ codes "if " ++ expr_text condition.now ++ codes " {\n") }
{
    push_text(out, b"if ")?;
    push_expr(out, condition)?;
    push_text(out, b" {\n")
}

fn push_assignment(
    out: &mut Vec<u8>,
    name: &Name,
    sign: &[u8],
    value: &Expr,
) -> Result<(), OutOfMemory>
    ensures { OnOk result
        (out.new.items ≡ out.old.items ++ name.now ++ sign.now ++ expr_text value.now ++ codes ";\n") }
{
    push_text(out, name.as_bytes())?;
    push_text(out, sign)?;
    push_expr(out, value)?;
    push_text(out, b";\n")
}

fn push_indent(out: &mut Vec<u8>, depth: usize) -> Result<(), OutOfMemory>
    ensures { OnOk result (out.new.items ≡ out.old.items ++ replicate (2 * depth) 32) }
{
    for _ in 0..depth {
        push_text(out, b"  ")?;
    }
    Ok(())
}
