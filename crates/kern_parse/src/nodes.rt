ghost use Rattle.std.specs.Prelude.{◌≡◌, MatchResult};
ghost use Rattle.kern_token.specs.declared.fault.KernFault.TheVariants.{Memory};
ghost use Rattle.kern_tree.specs.Grammar.{node};

use crate::KernFault;
use kern_tree::{Expr, Form, Op1, Op2, Op3};
use pf_geom::Axis;
use sqlite_items::Boxed;
use std::alloc::Global;

pub(crate) fn part(alloc: Global, place: u32, a: Expr, axis: Axis) -> Result<Expr, KernFault>
    ensures { MatchResult result (λ e. e ≡ node place (Form.Part a axis)) (λ fault. fault ≡ Memory) }
{
    Ok(Expr {
        place,
        form: Form::Part(Boxed::new(alloc, a)?, axis),
    })
}

pub(crate) fn one(alloc: Global, place: u32, op: Op1, a: Expr) -> Result<Expr, KernFault>
    ensures { MatchResult result (λ e. e ≡ node place (Form.One op a)) (λ fault. fault ≡ Memory) }
{
    Ok(Expr {
        place,
        form: Form::One(op, Boxed::new(alloc, a)?),
    })
}

pub(crate) fn two(alloc: Global, place: u32, op: Op2, a: Expr, b: Expr) -> Result<Expr, KernFault>
    ensures { MatchResult result (λ e. e ≡ node place (Form.Two op a b)) (λ fault. fault ≡ Memory) }
{
    Ok(Expr {
        place,
        form: Form::Two(op, Boxed::new(alloc, a)?, Boxed::new(alloc, b)?),
    })
}

pub(crate) fn three(
    alloc: Global,
    place: u32,
    op: Op3,
    a: Expr,
    b: Expr,
    c: Expr,
) -> Result<Expr, KernFault>
    ensures { MatchResult result (λ e. e ≡ node place (Form.Three op a b c)) (λ fault. fault ≡ Memory) }
{
    let a = Boxed::new(alloc, a)?;
    let b = Boxed::new(alloc, b)?;
    let c = Boxed::new(alloc, c)?;
    Ok(Expr {
        place,
        form: Form::Three(op, a, b, c),
    })
}

pub(crate) fn to(alloc: Global, place: u32, scale: u32, a: Expr) -> Result<Expr, KernFault>
    ensures { MatchResult result (λ e. e ≡ node place (Form.To scale a)) (λ fault. fault ≡ Memory) }
{
    Ok(Expr {
        place,
        form: Form::To(scale, Boxed::new(alloc, a)?),
    })
}
