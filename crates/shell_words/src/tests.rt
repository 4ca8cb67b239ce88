use crate::{Options, WordsError, read_words};
use std::alloc::Global;
use std::test::Fail;

// What the words of a line with spaces between them say.
fn read(alloc: Global, line: &str) -> Result<Result<Options, WordsError>, Fail> {
    let mut words = Vec::new(alloc);
    for word in line.split(' ') {
        if !word.is_empty() {
            words.push(String::from_str(alloc, word)?)?;
        }
    }
    Ok(read_words(alloc, words.as_slice()))
}

#[test]
fn reads_plain_lines_and_clap_s_other_forms(rt: HostRuntime) -> Result<(), Fail> {
    let alloc = rt.alloc();
    let none = Options {
        ttl: 300_000,
        tick: None,
        rounds: 1,
    };
    assert_eq!(rt; read(alloc, "mem script")?, Ok(none));
    assert_eq!(rt; read(alloc, "mem script --")?, Ok(none));
    let all = Options {
        ttl: 9_223_372_036_854_775_807,
        tick: Some(1),
        rounds: 1000,
    };
    assert_eq!(rt;
        read(
            alloc,
            "mem script --tick 1 --rounds 1000 --ttl 9223372036854775807"
        )?,
        Ok(all)
    );
    let tick = Options {
        tick: Some(1_000_000),
        rounds: 0,
        ..none
    };
    assert_eq!(rt;
        read(alloc, "mem script --rounds 0 --tick 1000000")?,
        Ok(tick)
    );
    let five = Options { ttl: 5, ..none };
    for line in [
        "mem script --ttl=5",
        "--ttl 5 mem script",
        "mem --ttl 5 script",
        "mem script --ttl 005",
        "mem script --ttl +5",
        "--ttl 5 -- mem script",
    ] {
        assert_eq!(rt; read(alloc, line)?, Ok(five));
    }
    Ok(())
}

#[test]
fn refuses_other_lines(rt: HostRuntime) -> Result<(), Fail> {
    let alloc = rt.alloc();
    for line in [
        "",
        "mem",
        "mem script more",
        "Mem script",
        "dir script",
        "mem run",
        "script mem",
        "mem script --ttl 9223372036854775808",
        "mem script --tick 0",
        "mem script --tick 1000001",
        "mem script --rounds 1001",
        "mem script --ttl",
        "mem script --ttl -5",
        "mem script --ttl 5 --ttl 5",
        "--help",
        "mem script --help",
        "mem script -h",
        "--version",
        "-V",
        "mem script --tt 5",
        "mem script --ttl=",
        "help",
        "mem script --ttl 5 -- --tick 5",
        "mem script --ttl 5x",
    ] {
        assert_eq!(rt; read(alloc, line)?, Err(WordsError::Usage));
    }
    Ok(())
}
