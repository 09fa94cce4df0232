ghost use Rattle.std.specs.Prelude.{◌≡◌, ◌++◌, OnOk};
ghost use Rattle.kern_tree.specs.declared.expr.Form.{out-Form};
ghost use Rattle.kern_print.specs.Expressions.{Operand, axis_text, expr_text, form_operand, level, literal_text};
ghost use Rattle.kern_print.specs.Expressions.{one_text, operand_text, operator_level, prefix_level, three_text};
ghost use Rattle.kern_print.specs.Expressions.{two_text};

use crate::frame::{axis_bytes, frame_of_one, frame_of_two, head_of_three};
use crate::pushing::{push_number, push_text};
use kern_tree::{Expr, Form, Op1, Op2};
use pf_num::OutOfMemory;

pub(crate) fn push_expr(out: &mut Vec<u8>, expr: &Expr) -> Result<(), OutOfMemory>
    ensures { OnOk result (out.new.items ≡ out.old.items ++ expr_text expr.now) }
{
    push_operand(out, expr, 1)
}

// In brackets where the level that is needed is above the expression's.
#[cycle(operands)]
fn push_operand(out: &mut Vec<u8>, expr: &Expr, needed: u32) -> Result<(), OutOfMemory>
    ensures { OnOk result (out.new.items ≡ out.old.items ++ operand_text expr.now needed) }
{
    if level_of(&expr.form) < needed {
        push_text(out, b"(")?;
        push_form(out, &expr.form)?;
        push_text(out, b")")
    } else {
        push_form(out, &expr.form)
    }
}

#[cycle(operands)]
fn push_form(out: &mut Vec<u8>, form: &Form) -> Result<(), OutOfMemory>
    ensures { OnOk result (out.new.items ≡ out.old.items ++ form_operand form.now 1) }
{
    match form {
        Form::Number(mantissa, scale) => push_literal(out, *mantissa, *scale),
        Form::Name(name) => push_text(out, name.as_bytes()),
        Form::Part(a, axis) => {
            push_operand(out, a.get(), 7)?;
            push_text(out, b".")?;
            push_text(out, axis_bytes(*axis))
        }
        Form::One(op, a) => {
            let frame = frame_of_one(*op);
            push_then(out, frame.open, a.get(), frame.needed)?;
            push_text(out, frame.close)
        }
        Form::Two(op, a, b) => {
            let frame = frame_of_two(*op);
            push_then(out, frame.open, a.get(), frame.left)?;
            push_then(out, frame.between, b.get(), frame.right)?;
            push_text(out, frame.close)
        }
        Form::Three(op, a, b, c) => {
            push_then(out, head_of_three(*op), a.get(), 1)?;
            push_then(out, b", ", b.get(), 1)?;
            push_then(out, b", ", c.get(), 1)?;
            push_text(out, b")")
        }
        Form::To(scale, a) => {
            push_text(out, b"to(")?;
            push_number(out, u64::from(*scale))?;
            push_then(out, b", ", a.get(), 1)?;
            push_text(out, b")")
        }
    }
}

#[cycle(operands)]
fn push_then(out: &mut Vec<u8>, text: &[u8], expr: &Expr, needed: u32) -> Result<(), OutOfMemory>
    ensures { OnOk result
        (out.new.items ≡ out.old.items ++ text.now ++ operand_text expr.now needed) }
{
    push_text(out, text)?;
    push_operand(out, expr, needed)
}

fn push_literal(out: &mut Vec<u8>, mantissa: u64, scale: u32) -> Result<(), OutOfMemory>
    ensures { OnOk result (out.new.items ≡ out.old.items ++ literal_text mantissa scale) }
{
    push_number(out, mantissa)?;
    if scale == 0 {
        return Ok(());
    }
    push_text(out, b" S")?;
    push_number(out, u64::from(scale))
}

fn level_of(form: &Form) -> u32
    ensures { result ≡ level (out-Form form.now) }
{
    match form {
        Form::One(op, _) => match op {
            Op1::Neg | Op1::Not => 6,
            Op1::Isqrt | Op1::Abs => 7,
        },
        Form::Two(op, _, _) => match op {
            Op2::Or => 1,
            Op2::And => 2,
            Op2::Lt | Op2::Le | Op2::Gt | Op2::Ge | Op2::Eq | Op2::Ne => 3,
            Op2::Add | Op2::Sub => 4,
            Op2::Mul | Op2::Div => 5,
            Op2::Least | Op2::Most => 7,
        },
        Form::Number(_, _)
        | Form::Name(_)
        | Form::Part(_, _)
        | Form::Three(_, _, _, _)
        | Form::To(_, _) => 7,
    }
}
