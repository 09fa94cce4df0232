use super::parsing::told;
use super::read;
use kern_print::print;
use kern_token::Name;
use kern_tree::{Act, Decl, DeclKind, Expr, Form, Kernel, Kind, Op1, Op2, Stmt};
use sqlite_items::{Boxed, Items};
use std::alloc::{AllocError, Global};
use std::process::Abort;
use std::test::Fail;

// The text is read, and printed as this.
fn is_printed_as(rt: &impl Abort, alloc: Global, text: &str, wanted: &str) -> Result<(), Fail> {
    let kernel = read(rt, alloc, text)?;
    let printed = print(alloc, &kernel)?;
    assert_eq!(rt; printed.as_slice(), wanted.as_bytes(), "of {text}");
    Ok(())
}

// Each text is read as its tree, which is printed as the text.
fn are_printed(rt: &impl Abort, alloc: Global, cases: &[(&str, &str)]) -> Result<(), Fail> {
    for (text, tree) in cases {
        assert_eq!(rt; told(rt, alloc, text)?.as_str(), *tree, "of {text}");
        is_printed_as(rt, alloc, text, text)?;
    }
    Ok(())
}

fn are_canonical(rt: &impl Abort, alloc: Global, texts: &[&str]) -> Result<(), Fail> {
    for text in texts {
        is_printed_as(rt, alloc, text, text)?;
    }
    Ok(())
}

const DECLARATIONS: [(&str, &str); 5] = [
    (
        "EPI vec S0 xi : pos;\nFORCE vec S16 pull sum;\npull += xj - xi;\n",
        "0:Epi xi Vec3 0 pos; 21:Force pull Vec3 16 Sum; 45:pull += 56:(53:xj Sub 58:xi); ",
    ),
    ("EPJ num S0 mj : mass;\n", "0:Epj mj Num 0 mass; "),
    ("FORCE num S0 top max;\n", "0:Force top Num 0 Max; "),
    ("PARAM S16 g = 1000000;\n", "0:Param g 16 1000000; "),
    ("PARAM S0 h = -5;\n", "0:Param h 0 -5; "),
];

#[test]
fn declarations_come_before_statements(rt: HostRuntime) -> Result<(), Fail> {
    are_printed(&rt, rt.alloc(), &DECLARATIONS)
}

const STATEMENTS: [(&str, &str); 9] = [
    (
        "w = muldiv(g * mj, d, r2) / r;\n",
        "0:w = 26:(4:Muldiv(13:(11:g Mul 15:mj), 19:d, 22:r2) Div 28:r); ",
    ),
    (
        "if mi == 9 {\n  n += to(22, cj);\n}\n",
        "0:if 6:(3:mi Eq 9:9S0) {15:n += 20:To(22, 27:cj); } {} ",
    ),
    (
        "if a {\n  if b {\n    u = 1;\n  }\n} else {\n  u = 2;\n}\n",
        "0:if 3:a {9:if 12:b {20:u = 24:1S0; } {} } {42:u = 46:2S0; } ",
    ),
    (
        "w = (a + b) * c - -d;\n",
        "0:w = 16:(12:(7:(5:a Add 9:b) Mul 14:c) Sub 18:Neg(19:d)); ",
    ),
    (
        "w = a - (b - c);\n",
        "0:w = 6:(4:a Sub 11:(9:b Sub 13:c)); ",
    ),
    ("w = a - b - c;\n", "0:w = 10:(6:(4:a Sub 8:b) Sub 12:c); "),
    ("w = a < b && c;\n", "0:w = 10:(6:(4:a Lt 8:b) And 13:c); "),
    ("w = -(a + b);\n", "0:w = 4:Neg(8:(6:a Add 10:b)); "),
    ("w = (a + 3 S4).x;\n", "0:w = 14:(7:(5:a Add 9:3S4).X); "),
];

#[test]
fn operands_have_the_brackets_that_they_need_and_blocks_are_indented(
    rt: HostRuntime,
) -> Result<(), Fail> {
    are_printed(&rt, rt.alloc(), &STATEMENTS)
}

const KERNELS: [&str; 11] = [
    example_kernels::PULL,
    example_kernels::GRAVITY,
    example_kernels::SOFT_GRAVITY,
    example_kernels::FARTHEST,
    example_kernels::OVER_MASS,
    example_kernels::GREAT_SUM,
    example_kernels::GUARDED_GRAVITY,
    example_kernels::OVER_OWN_MASS,
    example_kernels::ROOT_OF_MASS,
    example_kernels::GREAT_PRODUCT,
    SHORT,
];

#[test]
fn canonical_kernels_are_printed_as_they_were_read(rt: HostRuntime) -> Result<(), Fail> {
    are_canonical(&rt, rt.alloc(), &KERNELS)
}

/// What the text without blanks and with needless brackets is printed as.
const SHORT: &str = "w = (a + b) * c - -d;\nif w > 0 {\n  n += 1;\n}\n";

#[test]
fn blanks_and_needless_brackets_go(rt: HostRuntime) -> Result<(), Fail> {
    let text = "w=((a+b))*c- -d;if((w>0)){n+=1 S0;}else{}";
    is_printed_as(&rt, rt.alloc(), text, SHORT)
}

fn name(alloc: Global, text: &str) -> Result<Name, AllocError> {
    Ok(Name::from_bytes(text.as_bytes().to_vec(alloc)?))
}

fn expr(place: u32, form: Form) -> Expr {
    Expr { place, form }
}

// The tree of `-xi * 2`, whose `-` stands at 25.
fn product(alloc: Global) -> Result<Expr, AllocError> {
    let operand = Boxed::new(alloc, expr(26, Form::Name(name(alloc, "xi")?)))?;
    let left = Boxed::new(alloc, expr(25, Form::One(Op1::Neg, operand)))?;
    let right = Boxed::new(alloc, expr(31, Form::Number(2, 0)))?;
    Ok(expr(29, Form::Two(Op2::Mul, left, right)))
}

#[test]
fn a_product_stands_at_its_operator(rt: HostRuntime) -> Result<(), Fail> {
    let text = format!(in rt.alloc(); "{:?}", product(rt.alloc())?)?;
    assert_eq!(rt;
        text.as_str(),
        "Expr { place: 29, form: Two(Mul, Boxed { inner: Expr { place: 25, form: One(Neg, \
        Boxed { inner: Expr { place: 26, form: Name(Name { bytes: [120, 105] }) } }) } }, \
        Boxed { inner: Expr { place: 31, form: Number(2, 0) } }) }"
    );
    Ok(())
}

// The declaration of the position of the particle that takes.
fn position(alloc: Global) -> Result<Decl, AllocError> {
    Ok(Decl {
        place: 0,
        name: name(alloc, "xi")?,
        what: DeclKind::Epi(Kind::Vec3, 0, name(alloc, "pos")?),
    })
}

fn kernel(alloc: Global, decl: Decl) -> Result<Kernel, AllocError> {
    let mut decls = Items::new(alloc);
    decls.push(decl)?;
    let act = Act::Set(name(alloc, "d")?, product(alloc)?);
    let mut body = Items::new(alloc);
    body.push(Stmt { place: 21, act })?;
    Ok(Kernel { decls, body })
}

#[test]
fn a_kernel_made_by_hand_has_its_declaration_and_its_statement(
    rt: HostRuntime,
) -> Result<(), Fail> {
    let alloc = rt.alloc();
    let decl = position(alloc)?;
    let copied = decl.clone()?;
    let kernel = kernel(alloc, decl)?;
    assert_eq!(rt; kernel.decls.as_slice(), [copied].as_slice());
    assert_eq!(rt;
        print(alloc, &kernel)?.as_slice(),
        b"EPI vec S0 xi : pos;\nd = -xi * 2;\n".as_slice()
    );
    Ok(())
}
