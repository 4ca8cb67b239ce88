//! The answer to the lines of a script.
ghost use Rattle.std.specs.Prelude.{◌≡◌, ◌<◌, ◌≤◌, ◌⊎◌, ◌++◌, ℕ, List, IfOk, IfErr, OnOk, false, length};
ghost use Rattle.std.specs.List.{AllByRecursion, flat_map};
ghost use Rattle.std.specs.Result.{IsErrOf};
ghost use Rattle.hb_causes.specs.Faults.{Rose};
ghost use Rattle.plain_model.specs.declared.job.Job.TheVariants as job;
ghost use Rattle.shell_script.specs.declared.session.NumberedJob.{NumberedJob};
ghost use Rattle.shell_script.specs.Script.{AreParsed};
ghost use Rattle.hbase_shell.specs.Script.{run_kinds};
ghost use Rattle.hbase_shell.specs.Snapshots.{AreAnswered, AskForSnapshots};

use crate::run_error::RunError;
use crate::snapshots::list_snapshots;
use hb_wire::{Blob, NoMemory};
use ns_tree::Namespace;
use plain_model::Job;
use shell_script::{NumberedJob, Script};
use std::alloc::Global;

/// What the lines of a script ask for that has one session.
pub(crate) fn lines_of(script: &Script) -> &[NumberedJob]
    ensures { (lines : List (ℕ × List ℕ)) → AreParsed run_kinds false lines script.now.sessions
        → AskForSnapshots result.now × (length result.now ≡ length lines) }
{
    match script.sessions.as_slice() {
        [session, ..] => session.lines.as_slice(),
        [] => &[],
    }
}

// Adds the listing for each of the lines.
fn add_listings(lines: &[NumberedJob], listing: &[u8], text: &mut Blob) -> Result<(), NoMemory>
    requires { AskForSnapshots lines.now }
    ensures { OnOk result (text.new ≡ text.old ++ flat_map (λ (line : NumberedJob). listing.now) lines.now) }
{
    for line in lines {
        match line.job {
            Job::ListSnapshots => text.add(listing)?,
            _ => unreachable!(),
        }
    }
    Ok(())
}

/// Answers lines from the store, which is listed once if there is any.
pub(crate) fn answer_lines<N: Namespace>(
    alloc: Global,
    lines: &[NumberedJob],
    store: &mut N,
) -> Result<Blob, RunError>
    requires { AskForSnapshots lines.now }
    ensures ok { IfOk result (AreAnswered (N.told store.old) lines.now) }
    ensures fault { IsErrOf result RunError.NsFault → Rose (N.faults store.old) (N.faults store.new) }
    ensures only { IfErr result (λ error. (error ≡ RunError.NsFault) ⊎ (error ≡ RunError.NoMemory)) }
    ensures same { N.told store.new ≡ N.told store.old }
    ensures later { N.faults store.old ≤ N.faults store.new }
{
    let mut text = Blob::from_vec(Vec::new(alloc));
    if lines.is_empty() {
        return Ok(text);
    }
    let listing = list_snapshots(alloc, store)?;
    add_listings(lines, listing.as_slice(), &mut text)?;
    Ok(text)
}
