//! Runs scripts, and finds the rows that answer otherwise than they must.

use crate::events::{actor_event, region_event, table_event};
use crate::jobs::job;
use crate::names::{Made, bytes, push, region_key, snap_name, table_name};
use crate::rows::{Asked, ByActor, Fault, InRegion, Region, Row, Stopped, ToTable};
use crate::views::{
    copies_text, line_of, no_text, number_text, regions_text, reply_text, scan_text, short_text,
};
use hb_wire::{Blob, Copied, NoMemory};
use plain_machine::Plain;
use plain_model::{Event, Job, Reply};
use std::alloc::Global;

/// Makes an event happen. There is no answer, but for one without a number.
fn happen(alloc: Global, machine: &mut Plain, event: &Event) -> Made<Blob> {
    if !machine.has_number(event) {
        return Ok(bytes(alloc, "no number")?);
    }
    machine.apply(event)?;
    Ok(no_text(alloc))
}

/// The text of a copy of a reply.
fn copied_text(alloc: Global, reply: &Reply) -> Result<Blob, NoMemory> {
    let copy = reply.copy()?;
    reply_text(alloc, &copy)
}

fn reply(alloc: Global, machine: &Plain, job: &Job) -> Result<Blob, NoMemory> {
    let reply = machine.reply(job)?;
    copied_text(alloc, &reply)
}

/// The reply to a copy of a job.
fn copied_reply(alloc: Global, machine: &Plain, job: &Job) -> Result<Blob, NoMemory> {
    let copy = job.copy()?;
    reply(alloc, machine, &copy)
}

fn ask(alloc: Global, machine: &Plain, asked: &Asked) -> Made<Blob> {
    let job = job(alloc, asked)?;
    Ok(copied_reply(alloc, machine, &job)?)
}

fn happen_in_region(
    alloc: Global,
    machine: &mut Plain,
    region: &Region,
    happens: &InRegion,
) -> Made<Blob> {
    let event = region_event(alloc, machine, region, happens)?;
    happen(alloc, machine, &event)
}

fn happen_to_table(
    alloc: Global,
    machine: &mut Plain,
    table: &str,
    happens: &ToTable,
) -> Made<Blob> {
    let event = table_event(alloc, table, happens)?;
    happen(alloc, machine, &event)
}

fn happen_by_actor(alloc: Global, machine: &mut Plain, actor: u32, act: &ByActor) -> Made<Blob> {
    let event = actor_event(alloc, actor, act)?;
    happen(alloc, machine, &event)
}

fn delete(alloc: Global, machine: &mut Plain, snapshot: &str) -> Made<Blob> {
    let event = Event::Delete(snap_name(alloc, snapshot)?);
    happen(alloc, machine, &event)
}

fn stop(alloc: Global, machine: &mut Plain) -> Made<Blob> {
    let event = Event::Stop;
    happen(alloc, machine, &event)
}

fn scan(alloc: Global, machine: &Plain, table: &str) -> Made<Blob> {
    Ok(scan_text(alloc, machine, &table_name(alloc, table)?)?)
}

fn number(alloc: Global, machine: &Plain, region: &Region) -> Made<Blob> {
    Ok(number_text(alloc, machine, region_key(alloc, region)?)?)
}

fn regions(alloc: Global, machine: &Plain, table: &str) -> Made<Blob> {
    Ok(regions_text(alloc, machine, &table_name(alloc, table)?)?)
}

fn copies(alloc: Global, machine: &Plain, snapshot: &str) -> Made<Blob> {
    Ok(copies_text(alloc, machine, &snap_name(alloc, snapshot)?)?)
}

/// What a row answers.
fn answer(alloc: Global, machine: &mut Plain, row: &Row) -> Made<Blob> {
    match row {
        Row::At(region, happens) => happen_in_region(alloc, machine, region, happens),
        Row::On(table, happens) => happen_to_table(alloc, machine, *table, happens),
        Row::By(actor, act) => happen_by_actor(alloc, machine, *actor, act),
        Row::Deletes(name) => delete(alloc, machine, *name),
        Row::Stops => stop(alloc, machine),
        Row::Ask(asked, _) => ask(alloc, machine, asked),
        Row::Shows(table, _) => scan(alloc, machine, *table),
        Row::Number(region, _) => number(alloc, machine, region),
        Row::Regions(table, _) => regions(alloc, machine, *table),
        Row::Copies(name, _) => copies(alloc, machine, *name),
    }
}

/// What a row must answer.
fn expected(row: &Row) -> &'static str {
    match row {
        Row::Ask(_, text) => *text,
        Row::Shows(_, text) => *text,
        Row::Number(_, text) => *text,
        Row::Regions(_, text) => *text,
        Row::Copies(_, text) => *text,
        _ => "",
    }
}

/// The rows of a script that answer otherwise than they must, counted from 1.
pub(crate) fn faults(alloc: Global, rows: &[Row]) -> Made<Vec<Fault>> {
    let mut machine = Plain::new(alloc);
    let mut faults = Vec::new(alloc);
    for (i, row) in rows.iter().enumerate() {
        let answer = answer(alloc, &mut machine, row)?;
        let found = line_of(alloc, answer.as_slice())?;
        if found.as_str() != expected(row) {
            push(
                &mut faults,
                Fault {
                    row: i.saturating_add(1),
                    found,
                },
            )?;
        }
    }
    Ok(faults)
}

/// Lets the events of some rows happen.
fn happens(alloc: Global, machine: &mut Plain, rows: &[Row]) -> Made<()> {
    for row in rows {
        answer(alloc, machine, row)?;
    }
    Ok(())
}

/// What there is after the rows of a list up to a place, a stop, and the rows behind it.
fn left(alloc: Global, stopped: &Stopped, rows: &[(Row, &'static str)]) -> Made<String> {
    let mut machine = Plain::new(alloc);
    happens(alloc, &mut machine, stopped.before)?;
    for row in rows {
        answer(alloc, &mut machine, &row.0)?;
    }
    stop(alloc, &mut machine)?;
    happens(alloc, &mut machine, stopped.behind)?;
    let text = short_text(alloc, &machine, &table_name(alloc, stopped.table)?)?;
    Ok(line_of(alloc, text.as_slice())?)
}

/// The rows of a list after which a stop leaves something else than it must, counted from 1.
pub(crate) fn stop_faults(alloc: Global, stopped: &Stopped) -> Made<Vec<Fault>> {
    let mut faults = Vec::new(alloc);
    for (i, row) in stopped.rows.iter().enumerate() {
        let found = left(alloc, stopped, &stopped.rows[..=i])?;
        if found.as_str() != row.1 {
            push(
                &mut faults,
                Fault {
                    row: i.saturating_add(1),
                    found,
                },
            )?;
        }
    }
    Ok(faults)
}
