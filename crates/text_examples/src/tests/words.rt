use command_line::read;
use std::alloc::{AllocError, Global};
use std::process::Abort;
use std::test::Fail;

// The command of words with such a mark between them, if they give one.
fn told(alloc: Global, line: &str, mark: char) -> Result<String, AllocError> {
    let words: Vec<&str> = line.split(mark).collect(alloc)?;
    shown(alloc, words.as_slice())
}

fn shown(alloc: Global, words: &[&str]) -> Result<String, AllocError> {
    let command = read(alloc, words);
    format!(in alloc; "{command:?}")
}

// Each line, with such a mark between its words, with what is told of it.
fn are_told(
    rt: &impl Abort,
    alloc: Global,
    mark: char,
    cases: &[(&str, &str)],
) -> Result<(), Fail> {
    for (line, wanted) in cases {
        assert_eq!(rt; told(alloc, line, mark)?.as_str(), *wanted, "of {line}");
    }
    Ok(())
}

const COMMANDS: [(&str, &str); 15] = [
    ("run d", "Ok(Some(Run(\"d\", 1)))"),
    ("run d --workers=8", "Ok(Some(Run(\"d\", 8)))"),
    ("run --workers 8 d", "Ok(Some(Run(\"d\", 8)))"),
    ("run d --workers 1", "Ok(Some(Run(\"d\", 1)))"),
    ("run --workers=64 d", "Ok(Some(Run(\"d\", 64)))"),
    ("run d --workers 0064", "Ok(Some(Run(\"d\", 64)))"),
    ("run run", "Ok(Some(Run(\"run\", 1)))"),
    ("run -", "Ok(Some(Run(\"-\", 1)))"),
    ("run -- d", "Ok(Some(Run(\"d\", 1)))"),
    ("run -- --help", "Ok(Some(Run(\"--help\", 1)))"),
    ("bench 0 0", "Ok(Some(Bench(0, 0, 1)))"),
    ("bench --workers 2 1 2", "Ok(Some(Bench(1, 2, 2)))"),
    ("bench 07 --workers=3 08", "Ok(Some(Bench(7, 8, 3)))"),
    (
        "bench 65536 18446744073709551615",
        "Ok(Some(Bench(65536, 18446744073709551615, 1)))",
    ),
    (
        "bench 1 00000000000000000000000000000000000000000000000002",
        "Ok(Some(Bench(1, 2, 1)))",
    ),
];

#[test]
fn words_give_commands(rt: HostRuntime) -> Result<(), Fail> {
    are_told(&rt, rt.alloc(), ' ', &COMMANDS)
}

fn are_refused(rt: &impl Abort, alloc: Global, lines: &[&str]) -> Result<(), Fail> {
    for line in lines {
        assert_eq!(rt; told(alloc, line, ' ')?.as_str(), "Ok(None)", "of {line}");
    }
    Ok(())
}

const OTHERS: [&str; 35] = [
    "run",
    "walk d",
    "Run d",
    "convert a b",
    "--help",
    "--workers 4",
    "run --",
    "run d e",
    "run -x",
    "run --help",
    "run d -h",
    "run d --version",
    "run d --worker 4",
    "run d --workers",
    "run --workers d",
    "run d --workers=",
    "run d --workers 0",
    "run d --workers 65",
    "run d --workers 18446744073709551617",
    "run d --workers +4",
    "run d --workers=+4",
    "run d --workers -4",
    "run d --workers 4.0",
    "run d --workers x",
    "run d --workers 4 --workers 4",
    "run d --workers=4 --workers 5",
    "bench",
    "bench 1",
    "bench 1 2 3",
    "bench 65537 0",
    "bench 0 18446744073709551616",
    "bench +1 2",
    "bench -- -1 2",
    "bench 1 -2",
    "bench 1 two",
];

#[test]
fn other_words_give_no_command(rt: HostRuntime) -> Result<(), Fail> {
    are_refused(&rt, rt.alloc(), &OTHERS)
}

/// Words that may be empty or have blanks.
const BLANKS: [(&str, &str); 6] = [
    ("|d", "Ok(None)"),
    ("run|", "Ok(Some(Run(\"\", 1)))"),
    ("run|a b", "Ok(Some(Run(\"a b\", 1)))"),
    ("run|d|--workers|", "Ok(None)"),
    ("run|d|--workers| 4", "Ok(None)"),
    ("bench|1 |2", "Ok(None)"),
];

#[test]
fn empty_words_and_blanks_are_words(rt: HostRuntime) -> Result<(), Fail> {
    are_told(&rt, rt.alloc(), '|', &BLANKS)
}

#[test]
fn no_words_give_no_command(rt: HostRuntime) -> Result<(), Fail> {
    assert_eq!(rt; shown(rt.alloc(), &[])?.as_str(), "Ok(None)");
    Ok(())
}
