use kern_token::{MOST_TEXT, Token, TokenKind, tokens};
use std::alloc::{AllocError, Global};
use std::process::Abort;
use std::str;
use std::test::Fail;

// The tokens of a text, each after the places where it begins and ends, or the first fault.
fn told(rt: &impl Abort, alloc: Global, text: &str) -> Result<String, AllocError> {
    assert!(rt; text.len() <= MOST_TEXT);
    match tokens(alloc, text.as_bytes()) {
        Ok(found) => listed(alloc, found.as_slice()),
        Err(fault) => format!(in alloc; "{fault:?}"),
    }
}

fn listed(alloc: Global, found: &[Token]) -> Result<String, AllocError> {
    let mut list = String::new(alloc);
    for token in found {
        list.push_str(shown(alloc, token)?.as_str())?;
    }
    Ok(list)
}

fn shown(alloc: Global, token: &Token) -> Result<String, AllocError> {
    let (place, end) = (token.place, token.end);
    match &token.kind {
        TokenKind::Name(name) => {
            let name = str::from_utf8(name.as_bytes()).unwrap_or("?");
            format!(in alloc; "{place}-{end} {name}; ")
        }
        kind => format!(in alloc; "{place}-{end} {kind:?}; "),
    }
}

// Each text with what is told of it.
fn are_told(rt: &impl Abort, alloc: Global, cases: &[(&str, &str)]) -> Result<(), Fail> {
    for (text, wanted) in cases {
        assert_eq!(rt; told(rt, alloc, text)?.as_str(), *wanted, "of {text}");
    }
    Ok(())
}

const STATEMENT: (&str, &str) = (
    "if r2 <= 10 S2 { n += vec.x; }",
    "0-2 Word(If); 3-5 r2; 6-8 Symbol(Le); 9-11 Number(10); 12-14 Scale(2); 15-16 Symbol(OpenCurly); 17-18 n; \
     19-21 Symbol(Add); 22-25 Word(Vec); 25-26 Symbol(Dot); 26-27 x; 27-28 Symbol(Semicolon); \
     29-30 Symbol(CloseCurly); ",
);

const LONGEST: [(&str, &str); 5] = [
    STATEMENT,
    ("1a", "0-1 Number(1); 1-2 a; "),
    ("a.b", "0-1 a; 1-2 Symbol(Dot); 2-3 b; "),
    ("! =", "0-1 Symbol(Not); 2-3 Symbol(Assign); "),
    ("<==", "0-2 Symbol(Le); 2-3 Symbol(Assign); "),
];

#[test]
fn a_token_ends_where_nothing_longer_fits(rt: HostRuntime) -> Result<(), Fail> {
    are_told(&rt, rt.alloc(), &LONGEST)
}

const BLANKS: [(&str, &str); 6] = [
    ("", ""),
    (" \t\r\n", ""),
    ("# if $", ""),
    ("#", ""),
    ("# a\r\n\r\n", ""),
    ("a\r\n# b\nc # d", "0-1 a; 7-8 c; "),
];

#[test]
fn blanks_and_comments_only_separate(rt: HostRuntime) -> Result<(), Fail> {
    are_told(&rt, rt.alloc(), &BLANKS)
}

const NAMES_AND_NUMBERS: [(&str, &str); 12] = [
    ("S0", "0-2 Scale(0); "),
    ("S62", "0-3 Scale(62); "),
    ("S63", "0-3 S63; "),
    ("S062", "0-4 S062; "),
    ("S", "0-1 S; "),
    ("S7_", "0-3 S7_; "),
    ("iff", "0-3 iff; "),
    ("epi", "0-3 epi; "),
    ("_0", "0-2 _0; "),
    ("00", "0-2 Number(0); "),
    ("9223372036854775807", "0-19 Number(9223372036854775807); "),
    (
        "000009223372036854775807",
        "0-24 Number(9223372036854775807); ",
    ),
];

#[test]
fn each_text_is_one_token(rt: HostRuntime) -> Result<(), Fail> {
    are_told(&rt, rt.alloc(), &NAMES_AND_NUMBERS)
}

const WORDS_AND_SYMBOLS: [(&str, &str); 2] = [
    (
        "EPI EPJ FORCE PARAM num vec sum max min if else to muldiv isqrt abs",
        "0-3 Word(Epi); 4-7 Word(Epj); 8-13 Word(Force); 14-19 Word(Param); 20-23 Word(Num); 24-27 Word(Vec); \
         28-31 Word(Sum); 32-35 Word(Max); 36-39 Word(Min); 40-42 Word(If); 43-47 Word(Else); 48-50 Word(To); \
         51-57 Word(Muldiv); 58-63 Word(Isqrt); 64-67 Word(Abs); ",
    ),
    (
        "+ - * / ( ) { } , ; : . = += < <= > >= == != && || !",
        "0-1 Symbol(Plus); 2-3 Symbol(Minus); 4-5 Symbol(Star); 6-7 Symbol(Slash); 8-9 Symbol(OpenRound); \
         10-11 Symbol(CloseRound); 12-13 Symbol(OpenCurly); 14-15 Symbol(CloseCurly); 16-17 Symbol(Comma); \
         18-19 Symbol(Semicolon); 20-21 Symbol(Colon); 22-23 Symbol(Dot); 24-25 Symbol(Assign); 26-28 Symbol(Add); \
         29-30 Symbol(Lt); 31-33 Symbol(Le); 34-35 Symbol(Gt); 36-38 Symbol(Ge); 39-41 Symbol(Eq); \
         42-44 Symbol(Ne); 45-47 Symbol(And); 48-50 Symbol(Or); 51-52 Symbol(Not); ",
    ),
];

#[test]
fn words_and_symbols_have_their_kinds(rt: HostRuntime) -> Result<(), Fail> {
    are_told(&rt, rt.alloc(), &WORDS_AND_SYMBOLS)
}

const FAULTS: [(&str, &str); 11] = [
    ("d = $;", "BadByte(4)"),
    ("n += 9223372036854775808;", "NumberTooLarge(5)"),
    ("&", "BadByte(0)"),
    ("a&b", "BadByte(1)"),
    ("a&&&b", "BadByte(3)"),
    ("a | b", "BadByte(2)"),
    ("x # $\n@", "BadByte(6)"),
    ("é", "BadByte(0)"),
    ("00009223372036854775808 $", "NumberTooLarge(0)"),
    ("$ 9223372036854775808", "BadByte(0)"),
    ("99999999999999999999999999999999", "NumberTooLarge(0)"),
];

#[test]
fn the_first_fault_has_its_place(rt: HostRuntime) -> Result<(), Fail> {
    are_told(&rt, rt.alloc(), &FAULTS)
}
