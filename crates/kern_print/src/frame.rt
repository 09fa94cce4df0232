ghost use Rattle.std.specs.Prelude.{◌≡◌, [], ◌++◌, codes};
ghost use Rattle.kern_print.specs.Expressions.{Operand, axis_text, one_text, three_text, two_text};

use kern_tree::{Op1, Op2, Op3};
use pf_geom::Axis;

/// How an operator or a call of one operand is written, and the level that the operand needs.
#[derive(Drop)]
pub(crate) struct OneFrame {
    pub(crate) open: &'static [u8],
    pub(crate) needed: u32,
    pub(crate) close: &'static [u8],
}

/// How an operator or a call of two operands is written, and the levels that they need.
#[derive(Drop)]
pub(crate) struct TwoFrame {
    pub(crate) open: &'static [u8],
    pub(crate) left: u32,
    pub(crate) between: &'static [u8],
    pub(crate) right: u32,
    pub(crate) close: &'static [u8],
}

pub(crate) fn frame_of_one(op: Op1) -> OneFrame
    ensures { (a : Operand) → one_text op a ≡ result.open.now ++ a result.needed ++ result.close.now }
{
    let (open, needed, close): (&'static [u8], u32, &'static [u8]) = match op {
        Op1::Neg => (b"-", 7, b""),
        Op1::Not => (b"!", 7, b""),
        Op1::Isqrt => (b"isqrt(", 1, b")"),
        Op1::Abs => (b"abs(", 1, b")"),
    };
    OneFrame {
        open,
        needed,
        close,
    }
}

pub(crate) fn frame_of_two(op: Op2) -> TwoFrame
    ensures { (a b : Operand) → two_text op a b
        ≡ result.open.now ++ a result.left ++ result.between.now ++ b result.right ++ result.close.now }
{
    match op {
        Op2::Or => infix(1, b" || ", 2),
        Op2::And => infix(2, b" && ", 3),
        Op2::Lt => infix(4, b" < ", 4),
        Op2::Le => infix(4, b" <= ", 4),
        Op2::Gt => infix(4, b" > ", 4),
        Op2::Ge => infix(4, b" >= ", 4),
        Op2::Eq => infix(4, b" == ", 4),
        Op2::Ne => infix(4, b" != ", 4),
        Op2::Add => infix(4, b" + ", 5),
        Op2::Sub => infix(4, b" - ", 5),
        Op2::Mul => infix(5, b" * ", 6),
        Op2::Div => infix(5, b" / ", 6),
        Op2::Least => call(b"min("),
        Op2::Most => call(b"max("),
    }
}

fn infix(left: u32, between: &'static [u8], right: u32) -> TwoFrame
    ensures open { result.open.now ≡ [] }
    ensures left { result.left ≡ left }
    ensures between { result.between.now ≡ between.now }
    ensures right { result.right ≡ right }
    ensures close { result.close.now ≡ [] }
{
    TwoFrame {
        open: b"",
        left,
        between,
        right,
        close: b"",
    }
}

fn call(head: &'static [u8]) -> TwoFrame
    ensures open { result.open.now ≡ head.now }
    ensures left { result.left ≡ 1 }
    ensures between { result.between.now ≡ codes ", " }
    ensures right { result.right ≡ 1 }
    ensures close { result.close.now ≡ codes ")" }
{
    TwoFrame {
        open: head,
        left: 1,
        between: b", ",
        right: 1,
        close: b")",
    }
}

pub(crate) fn head_of_three(op: Op3) -> &'static [u8]
    ensures { (a b c : Operand) → three_text op a b c
        ≡ result.now ++ a 1 ++ codes ", " ++ b 1 ++ codes ", " ++ c 1 ++ codes ")" }
{
    match op {
        Op3::Muldiv => b"muldiv(",
        Op3::Build => b"vec(",
    }
}

pub(crate) fn axis_bytes(axis: Axis) -> &'static [u8]
    ensures { result.now ≡ axis_text axis }
{
    match axis {
        Axis::X => b"x",
        Axis::Y => b"y",
        Axis::Z => b"z",
    }
}
