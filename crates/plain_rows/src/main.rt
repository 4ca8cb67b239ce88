//! Runs rows of tables on the plain machine, and prints how many rows of each table answer as they must, and each row
//! that doesn't. The tables have beside each row what it must answer, worked out by hand.
#![tactic(auto)]

mod conflicts;
mod events;
mod jobs;
mod names;
mod rows;
mod run;
mod scripts;
mod stops;
mod views;

use crate::conflicts::{conflict_faults, conflicts};
use crate::names::Made;
use crate::rows::{Fault, Script, Stopped};
use crate::run::{faults, stop_faults};
use std::io;

fn print_faults<R: Print>(rt: &R, faults: &[Fault]) -> io::Result<()> {
    for fault in faults {
        println!(rt; "row {} answers {}", fault.row, fault.found)?;
    }
    Ok(())
}

/// Prints the faults of a table, and how many of its rows have none.
fn print_table<R: Print>(
    rt: &R,
    title: &str,
    count: usize,
    found: Made<Vec<Fault>>,
) -> io::Result<()> {
    match found {
        Ok(faults) => {
            print_faults(rt, faults.as_slice())?;
            let right = count.saturating_sub(faults.len());
            println!(rt; "{title}: {right} of {count} rows")
        }
        Err(error) => println!(rt; "{title}: {error}"),
    }
}

fn print_script<R: Print + AllocGlobal>(rt: &R, script: &Script) -> io::Result<()> {
    let found = faults(rt.alloc(), script.rows);
    print_table(rt, script.title, script.rows.len(), found)
}

fn print_stopped<R: Print + AllocGlobal>(rt: &R, stopped: &Stopped) -> io::Result<()> {
    let found = stop_faults(rt.alloc(), stopped);
    print_table(rt, stopped.title, stopped.rows.len(), found)
}

fn print_conflicts<R: Print + AllocGlobal>(rt: &R) -> io::Result<()> {
    let found = conflict_faults(rt.alloc());
    print_table(rt, "kinds of holds", conflicts().len(), found)
}

fn print_scripts_on_cells<R: Print + AllocGlobal>(rt: &R) -> io::Result<()> {
    print_script(rt, scripts::put_and_scan())?;
    print_script(rt, scripts::flush_and_stop())?;
    print_script(rt, scripts::markers())?;
    print_script(rt, scripts::markers_are_compacted())?;
    print_script(rt, scripts::compaction_and_later_cells())?;
    print_script(rt, scripts::versions())?;
    print_script(rt, scripts::numbers())
}

fn print_scripts_on_tables<R: Print + AllocGlobal>(rt: &R) -> io::Result<()> {
    print_script(rt, scripts::create())?;
    print_script(rt, scripts::no_table())?;
    print_script(rt, scripts::enabled_and_disabled())?;
    print_script(rt, scripts::disable_and_drop())?;
    print_script(rt, scripts::split())?;
    print_script(rt, scripts::load())?;
    print_script(rt, scripts::too_many_regions())
}

fn print_scripts_on_snapshots<R: Print + AllocGlobal>(rt: &R) -> io::Result<()> {
    print_script(rt, scripts::snapshots())?;
    print_script(rt, scripts::captures_are_copies())?;
    print_script(rt, scripts::clone_after_drop())?;
    print_script(rt, scripts::restore())?;
    print_script(rt, scripts::used_and_taken())?;
    print_script(rt, scripts::live_after_a_stop())
}

fn print_stops<R: Print + AllocGlobal>(rt: &R) -> io::Result<()> {
    print_stopped(rt, stops::puts_and_flushes())?;
    print_stopped(rt, stops::frozen_and_flushed_again())?;
    print_stopped(rt, stops::markers())?;
    print_stopped(rt, stops::split())?;
    print_stopped(rt, stops::snapshot_and_clone())?;
    print_stopped(rt, stops::restore())?;
    print_stopped(rt, stops::load())?;
    print_stopped(rt, stops::major_compaction())?;
    print_stopped(rt, stops::drop_and_create())?;
    print_stopped(rt, stops::two_regions())
}

fn main(rt: HostRuntime) -> io::Result<()> {
    println!(rt; "scripts")?;
    print_scripts_on_cells(&rt)?;
    print_scripts_on_tables(&rt)?;
    print_scripts_on_snapshots(&rt)?;
    println!(rt; "a stop after each event")?;
    print_stops(&rt)?;
    println!(rt; "conflicts of holds")?;
    print_conflicts(&rt)
}
