use super::read;
use super::shown::{shown, shown_decls};
use std::alloc::{AllocError, Global};
use std::process::Abort;
use std::test::Fail;

// The declarations and the statements of a text, or the first fault.
pub(super) fn told(rt: &impl Abort, alloc: Global, text: &str) -> Result<String, AllocError> {
    match read(rt, alloc, text) {
        Ok(kernel) => {
            let mut trees = shown_decls(alloc, kernel.decls.as_slice())?;
            trees.push_str(shown(alloc, 99, kernel.body.as_slice())?.as_str())?;
            Ok(trees)
        }
        Err(fault) => format!(in alloc; "{fault:?}"),
    }
}

// Each text with what is told of it.
fn are_told(rt: &impl Abort, alloc: Global, cases: &[(&str, &str)]) -> Result<(), Fail> {
    for (text, wanted) in cases {
        assert_eq!(rt; told(rt, alloc, text)?.as_str(), *wanted, "of {text}");
    }
    Ok(())
}

const DECLARATIONS: [(&str, &str); 3] = [
    (
        example_kernels::PULL,
        "0:Epi xi Vec3 0 pos; 21:Epj xj Vec3 0 pos; 42:Force acc Vec3 16 Sum; 65:Force pull Vec3 0 Sum; \
         88:pull += 99:(96:xj Sub 101:xi); ",
    ),
    (
        example_kernels::GRAVITY,
        "0:Epi xi Vec3 0 pos; 21:Epj xj Vec3 0 pos; 42:Epj mj Num 0 mass; 64:Force acc Vec3 16 Sum; \
         87:Param g 16 1000000; \
         110:d = 117:(114:xj Sub 119:xi); 123:r2 = 130:(128:d Mul 132:d); 135:r = 139:Isqrt(145:r2); \
         150:acc += 179:(157:Muldiv(166:(164:g Mul 168:mj), 172:d, 175:r2) Div 181:r); ",
    ),
    (
        "EPI num S16 a : c0; EPJ num S3 b : mass; FORCE num S0 p max; FORCE num S1 q min; PARAM S2 r = -5; \
         PARAM S0 s = 9223372036854775807;",
        "0:Epi a Num 16 c0; 20:Epj b Num 3 mass; 41:Force p Num 0 Max; 61:Force q Num 1 Min; 81:Param r 2 -5; \
         98:Param s 0 9223372036854775807; ",
    ),
];

#[test]
fn declarations_stand_before_statements(rt: HostRuntime) -> Result<(), Fail> {
    are_told(&rt, rt.alloc(), &DECLARATIONS)
}

const LEVELS: [(&str, &str); 10] = [
    ("a=b-c-d;", "0:a = 5:(3:(2:b Sub 4:c) Sub 6:d); "),
    ("a=b-(c-d);", "0:a = 3:(2:b Sub 6:(5:c Sub 7:d)); "),
    ("a=b/c*d;", "0:a = 5:(3:(2:b Div 4:c) Mul 6:d); "),
    (
        "a=b&&c&&d||e||f;",
        "0:a = 12:(9:(6:(3:(2:b And 5:c) And 8:d) Or 11:e) Or 14:f); ",
    ),
    ("a=b+c*d;", "0:a = 3:(2:b Add 5:(4:c Mul 6:d)); "),
    ("a=!b==c;", "0:a = 4:(2:Not(3:b) Eq 6:c); "),
    ("a=-b.x*-c;", "0:a = 6:(2:Neg(4:(3:b.X)) Mul 7:Neg(8:c)); "),
    (
        "a=b||c&&d<e+f;",
        "0:a = 3:(2:b Or 6:(5:c And 9:(8:d Lt 11:(10:e Add 12:f)))); ",
    ),
    ("a=b.x.y.z;", "0:a = 7:(5:(3:(2:b.X).Y).Z); "),
    (
        "d = ((((((((((((((((((((((((((((((((1))))))))))))))))))))))))))))))));",
        "0:d = 36:1S0; ",
    ),
];

#[test]
fn stronger_operators_bind_first_and_equal_ones_from_the_left(rt: HostRuntime) -> Result<(), Fail> {
    are_told(&rt, rt.alloc(), &LEVELS)
}

const CALLS: [(&str, &str); 5] = [
    ("a=1 S4+2;", "0:a = 6:(2:1S4 Add 7:2S0); "),
    ("a=to(22,b);", "0:a = 2:To(22, 8:b); "),
    (
        "a=to(4294967296,b)+to(4294967295,b);",
        "0:a = 18:(2:To(63, 16:b) Add 19:To(4294967295, 33:b)); ",
    ),
    (
        "a=min(b,c)+max(d,e);",
        "0:a = 10:(2:(6:b Least 8:c) Add 11:(15:d Most 17:e)); ",
    ),
    (
        "a=vec(1,abs(b),c).z;",
        "0:a = 17:(2:Build(6:1S0, 8:Abs(12:b), 15:c).Z); ",
    ),
];

#[test]
fn calls_take_expressions_in_brackets(rt: HostRuntime) -> Result<(), Fail> {
    are_told(&rt, rt.alloc(), &CALLS)
}

const BLOCKS: [(&str, &str); 3] = [
    (
        "w=((a+b))*c- -d;if((w>0)){n+=1 S0;}else{}",
        "0:w = 11:(9:(5:(4:a Add 6:b) Mul 10:c) Sub 13:Neg(14:d)); 16:if 21:(20:w Gt 22:0S0) {26:n += 29:1S0; } {} ",
    ),
    (
        "if a < b { if c { d = 1; } else { e = 2; } }",
        "0:if 5:(3:a Lt 7:b) {11:if 14:c {18:d = 22:1S0; } {34:e = 38:2S0; } } {} ",
    ),
    (
        "if a { if b { } } else { c = 1; }",
        "0:if 3:a {7:if 10:b {} {} } {25:c = 29:1S0; } ",
    ),
];

#[test]
fn an_else_belongs_to_the_block_before_it(rt: HostRuntime) -> Result<(), Fail> {
    are_told(&rt, rt.alloc(), &BLOCKS)
}

const STATEMENTS: [(&str, &str); 7] = [
    ("r2 = d * d + e;", "0:r2 = 11:(7:(5:d Mul 9:d) Add 13:e); "),
    (
        "n += 1 / (mj - 5);",
        "0:n += 7:(5:1S0 Div 13:(10:mj Sub 15:5S0)); ",
    ),
    (
        "n += isqrt(0 - mj);",
        "0:n += 5:Isqrt(13:(11:0S0 Sub 15:mj)); ",
    ),
    (
        "n += mj * 9223372036854775807;",
        "0:n += 8:(5:mj Mul 10:9223372036854775807S0); ",
    ),
    (
        "if mi == 9 {\n  n += to(22, cj);\n}\n",
        "0:if 6:(3:mi Eq 9:9S0) {15:n += 20:To(22, 27:cj); } {} ",
    ),
    ("", ""),
    (" # nothing\n", ""),
];

#[test]
fn statements_have_their_trees_and_no_tokens_are_a_kernel(rt: HostRuntime) -> Result<(), Fail> {
    are_told(&rt, rt.alloc(), &STATEMENTS)
}

const UNEXPECTED: [(&str, &str); 23] = [
    ("d = ;", "Unexpected(4)"),
    ("1", "Unexpected(0)"),
    ("d = 1; EPI", "Unexpected(7)"),
    ("d = 1; }", "Unexpected(7)"),
    ("if a { EPI", "Unexpected(7)"),
    ("if a { d = 1; } else if b { }", "Unexpected(21)"),
    ("d = a < b < c;", "Unexpected(10)"),
    ("d = --1;", "Unexpected(5)"),
    ("d = -!1;", "Unexpected(5)"),
    ("d = a.w;", "Unexpected(6)"),
    ("d = 1 S0 S1;", "Unexpected(9)"),
    ("d = sum(1);", "Unexpected(4)"),
    ("d = min(1);", "Unexpected(9)"),
    ("d = isqrt(1, 2);", "Unexpected(11)"),
    ("d = to(a, 2);", "Unexpected(7)"),
    ("EPI vec xi : pos;", "Unexpected(8)"),
    ("EPI vec S63 xi : pos;", "Unexpected(8)"),
    ("FORCE vec S0 acc add;", "Unexpected(17)"),
    ("PARAM S0 g = --1;", "Unexpected(14)"),
    ("PARAM S0 g = 1 S0;", "Unexpected(15)"),
    // tokens that run out, at the end of the last
    ("d = 1", "Unexpected(5)"),
    ("d = 1 # more", "Unexpected(5)"),
    ("d", "Unexpected(1)"),
];

#[test]
fn a_token_that_the_grammar_does_not_go_on_with_is_unexpected(rt: HostRuntime) -> Result<(), Fail> {
    are_told(&rt, rt.alloc(), &UNEXPECTED)
}

// A text's front, what follows it so many times, its back, and the fault, or nothing.
type Repeated = (
    &'static str,
    &'static str,
    usize,
    &'static str,
    &'static str,
);

// A text whose front is followed by a piece so many times, and then by its back.
fn repeated(alloc: Global, case: &Repeated) -> Result<String, AllocError> {
    let mut text = String::from_str(alloc, case.0)?;
    for _ in 0..case.2 {
        text.push_str(case.1)?;
    }
    text.push_str(case.3)?;
    Ok(text)
}

// The first fault of a text, or nothing.
fn fault_of(rt: &impl Abort, alloc: Global, text: &str) -> Result<String, AllocError> {
    match read(rt, alloc, text) {
        Ok(_) => Ok(String::new(alloc)),
        Err(fault) => format!(in alloc; "{fault:?}"),
    }
}

fn have_faults(rt: &impl Abort, alloc: Global, cases: &[Repeated]) -> Result<(), Fail> {
    for case in cases {
        let text = repeated(alloc, case)?;
        let fault = fault_of(rt, alloc, text.as_str())?;
        assert_eq!(rt; fault.as_str(), case.4, "of {text}");
    }
    Ok(())
}

const DEEP: [Repeated; 6] = [
    ("d = ((((((((((((((((((((((((((((((((1", ")", 32, ";", ""),
    ("d = ", "(", 33, "", "TooDeep(36)"),
    ("d = ", "(", 32, "{", "Unexpected(36)"),
    // closed ones don't count
    ("d = (1)", "+(1)", 32, ";", ""),
    // blocks count among the brackets
    ("", "if a{", 33, "", "TooDeep(164)"),
    ("", "if a{", 32, "b=1;c=(", "TooDeep(166)"),
];

#[test]
fn at_most_32_brackets_and_blocks_are_open(rt: HostRuntime) -> Result<(), Fail> {
    have_faults(&rt, rt.alloc(), &DEEP)
}

const LONG: [Repeated; 5] = [
    // a statement, 256 literals and 255 operators
    ("d = 1", "+1", 255, ";", ""),
    ("d = 1", "+1", 256, ";", "TooManyNodes(515)"),
    // an unexpected token is no node
    ("d = 1", "+1", 255, " a;", "Unexpected(516)"),
    // a declaration is one
    (
        "FORCE vec S16 acc sum;\nd = 1",
        "+1",
        255,
        ";",
        "TooManyNodes(537)",
    ),
    ("FORCE vec S16 acc sum;\nd = 1", "+1", 254, ";", ""),
];

#[test]
fn at_most_512_nodes_are_read(rt: HostRuntime) -> Result<(), Fail> {
    have_faults(&rt, rt.alloc(), &LONG)
}
