//! Reads a script whose lines put a cell each, with the time on standard error. An argument says how many lines it has:
//! 200,000 where there is none.
#![tactic(auto)]

use hb_wire::NoMemory;
use shell_line::LineKind;
use shell_script::parse_script;
use std::alloc::Global;
use std::env::Env;
use std::time::Instant;
use std::{env, io};

/// How many lines there are where no argument says so.
const LINES: u32 = 200_000;

/// The greatest length of an input.
const MAX_INPUT: usize = 16_777_216;

/// A script of so many lines, which put cells in rows of their own.
fn script(alloc: Global, lines: u32) -> Result<String, NoMemory> {
    let mut text = String::new(alloc);
    for number in 0..lines {
        let line = format!(in alloc;
            "put 'table','row {number:08}','f:qualifier','a value of thirty-two bytes here',{number}\n"
        )?;
        text.push_str(line.as_str())?;
    }
    Ok(text)
}

/// How many lines the script has: what the last word says, if it is a number.
fn lines_of_script<R: Env + AllocGlobal>(rt: &R) -> io::Result<u32> {
    let mut lines = LINES;
    for word in env::args(rt)? {
        if let Ok(said) = word.parse::<u32>() {
            lines = said;
        }
    }
    Ok(lines)
}

fn main(rt: HostRuntime) -> io::Result<()> {
    let Ok(text) = script(rt.alloc(), lines_of_script(&rt)?) else {
        return Ok(());
    };
    println!(rt; "{} bytes", text.len())?;
    if text.len() > MAX_INPUT {
        return Ok(());
    }
    let start = Instant::now(&rt)?;
    let found = parse_script(rt.alloc(), &[LineKind::Put], text.as_bytes(), false);
    eprintln!(rt; "parse {} ms", start.elapsed(&rt)?.as_millis())?;
    if let Ok(script) = found {
        for session in script.sessions.as_slice() {
            println!(rt; "{} jobs", session.lines.len())?;
        }
    }
    Ok(())
}
