// Good words and bad words.
use crate::{Command, WordsEnd, read_words};
use std::alloc::{AllocError, Global};
use std::test::Fail;

// The words of a line, separated by spaces.
fn words_of(alloc: Global, line: &str) -> Result<Vec<String>, AllocError> {
    let mut words = Vec::new(alloc);
    for word in line.split(' ') {
        words.push(String::from_str(alloc, word)?)?;
    }
    Ok(words)
}

#[test]
fn reads_a_run_with_its_options_in_any_place(rt: HostRuntime) -> Result<(), Fail> {
    let words = words_of(
        rt.alloc(),
        "run --limit=5 d.kore --proof=-x t.kore --calls 00000007",
    )?;
    match read_words(rt.alloc(), words.as_slice()) {
        Ok(Command::Run(run)) => {
            assert_eq!(rt; run.definition, "d.kore");
            assert_eq!(rt; run.term, "t.kore");
            assert_eq!(rt; run.limit, 5);
            assert_eq!(rt; run.calls, 7);
            assert_eq!(rt; run.proof, Some("-x"));
        }
        Ok(_other) => assert!(rt; false),
        Err(_end) => assert!(rt; false),
    }
    Ok(())
}

#[test]
fn takes_a_million_calls_where_none_are_stated(rt: HostRuntime) -> Result<(), Fail> {
    let words = words_of(rt.alloc(), "run d t --limit 0")?;
    match read_words(rt.alloc(), words.as_slice()) {
        Ok(Command::Run(run)) => {
            assert_eq!(rt; run.calls, 1_000_000);
            assert!(rt; run.proof.is_none());
            assert!(rt; run.hints.is_none());
            assert!(rt; !run.stuck);
        }
        Ok(_other) => assert!(rt; false),
        Err(_end) => assert!(rt; false),
    }
    Ok(())
}

#[test]
fn reads_a_run_that_shows_its_end(rt: HostRuntime) -> Result<(), Fail> {
    let words = words_of(rt.alloc(), "run --stuck d t --limit 5 --proof p")?;
    match read_words(rt.alloc(), words.as_slice()) {
        Ok(Command::Run(run)) => {
            assert_eq!(rt; run.proof, Some("p"));
            assert!(rt; run.stuck);
        }
        Ok(_other) => assert!(rt; false),
        Err(_end) => assert!(rt; false),
    }
    Ok(())
}

#[test]
fn reads_a_run_with_hints(rt: HostRuntime) -> Result<(), Fail> {
    let words = words_of(rt.alloc(), "run d t --hints=h --limit 5 --proof p")?;
    match read_words(rt.alloc(), words.as_slice()) {
        Ok(Command::Run(run)) => {
            assert_eq!(rt; run.proof, Some("p"));
            assert_eq!(rt; run.hints, Some("h"));
        }
        Ok(_other) => assert!(rt; false),
        Err(_end) => assert!(rt; false),
    }
    Ok(())
}

static BAD_LINES: [&str; 41] = [
    "",
    "Run d t --limit 5",
    "run d t",
    "run d --limit 5",
    "run d t u --limit 5",
    "run d t --limit 1000001",
    "run d t --limit 000000005",
    "run d t --limit +5",
    "run d t --limit 5 --limit 5",
    "run d t --lim 5",
    "run d t --limit 5 --calls 10000001",
    "run d t --limit 5 --proof",
    "run d t --limit 5 --proof -x",
    "run d t --limit 5 --hints",
    "run d t --limit 5 --hints h --hints i",
    "run d t --limit 5 --hints p --proof p",
    "run --proof=p d t --limit 5 --hints=p",
    "run d t --limit 5 --stuck",
    "run d t --limit 5 --hints h --stuck",
    "run d t --limit 5 --proof p --stuck --stuck",
    "run d t --limit 5 --proof p --stuck=true",
    "verify --stuck p",
    "run d t --limit 5 --help",
    "verify",
    "verify a b",
    "verify -h",
    "check",
    "check d",
    "check d p.mm q.mm",
    "check d p.mm --limit 5",
    "prove d h",
    "prove d h --proof",
    "prove d --proof p",
    "prove d h x --proof p",
    "prove d h --proof p --limit 5",
    "prove d h --proof p --calls 10000001",
    "drill 5",
    "drill 0 p.mm",
    "drill 1001 p.mm",
    "drill 000000001 p.mm",
    "drill 5 --help",
];

#[test]
fn refuses_bad_words(rt: HostRuntime) -> Result<(), Fail> {
    for line in &BAD_LINES {
        let words = words_of(rt.alloc(), line)?;
        let is_bad = matches!(read_words(rt.alloc(), words.as_slice()), Err(WordsEnd::Bad));
        assert!(rt; is_bad, "{line}");
    }
    Ok(())
}

#[test]
fn reads_the_file_to_be_verified(rt: HostRuntime) -> Result<(), Fail> {
    let words = words_of(rt.alloc(), "verify -- --help")?;
    match read_words(rt.alloc(), words.as_slice()) {
        Ok(Command::Verify(file)) => assert_eq!(rt; file, "--help"),
        Ok(_other) => assert!(rt; false),
        Err(_end) => assert!(rt; false),
    }
    Ok(())
}

#[test]
fn reads_what_is_to_be_checked(rt: HostRuntime) -> Result<(), Fail> {
    let words = words_of(rt.alloc(), "check d.kore p.mm")?;
    match read_words(rt.alloc(), words.as_slice()) {
        Ok(Command::Check(check)) => {
            assert_eq!(rt; check.definition, "d.kore");
            assert_eq!(rt; check.file, "p.mm");
        }
        Ok(_other) => assert!(rt; false),
        Err(_end) => assert!(rt; false),
    }
    Ok(())
}

#[test]
fn reads_what_is_to_be_proved(rt: HostRuntime) -> Result<(), Fail> {
    let words = words_of(rt.alloc(), "prove d.kore h.hints --proof p.mm --calls 7")?;
    match read_words(rt.alloc(), words.as_slice()) {
        Ok(Command::Prove(prove)) => {
            assert_eq!(rt; prove.definition, "d.kore");
            assert_eq!(rt; prove.hints, "h.hints");
            assert_eq!(rt; prove.proof, "p.mm");
            assert_eq!(rt; prove.calls, 7);
        }
        Ok(_other) => assert!(rt; false),
        Err(_end) => assert!(rt; false),
    }
    Ok(())
}

#[test]
fn takes_a_million_calls_where_a_proof_states_none(rt: HostRuntime) -> Result<(), Fail> {
    let words = words_of(rt.alloc(), "prove --proof=p d h")?;
    match read_words(rt.alloc(), words.as_slice()) {
        Ok(Command::Prove(prove)) => assert_eq!(rt; prove.calls, 1_000_000),
        Ok(_other) => assert!(rt; false),
        Err(_end) => assert!(rt; false),
    }
    Ok(())
}

#[test]
fn reads_a_drill(rt: HostRuntime) -> Result<(), Fail> {
    let words = words_of(rt.alloc(), "drill 007 p.mm")?;
    match read_words(rt.alloc(), words.as_slice()) {
        Ok(Command::Drill(drill)) => {
            assert_eq!(rt; drill.steps, 7);
            assert_eq!(rt; drill.file, "p.mm");
        }
        Ok(_other) => assert!(rt; false),
        Err(_end) => assert!(rt; false),
    }
    Ok(())
}
