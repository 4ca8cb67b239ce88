//! What a line of each kind asks for.
ghost use Rattle.std.specs.Prelude.{◌≡◌, IfOk};
ghost use Rattle.shell_line.specs.Line.{IsArguments, arguments};
ghost use Rattle.shell_lang.specs.Jobs.{job_of};

use crate::create::create;
use crate::delete::delete;
use crate::put::put;
use crate::short::{bulk, clone_of, snapshot, snapshot_alone, split, table_alone};
use hb_wire::NoMemory;
use plain_model::Job;
use shell_line::LineKind;
use std::alloc::Global;

/// What a line of a kind asks for, by its arguments.
pub fn read_job(alloc: Global, kind: LineKind, bytes: &[u8]) -> Result<Job, NoMemory>
    requires { IsArguments (arguments kind) bytes.now }
    ensures { IfOk result (λ job. job ≡ job_of kind bytes.now) }
{
    match kind {
        LineKind::Create => create(alloc, bytes),
        LineKind::Put => put(alloc, bytes),
        LineKind::Delete => delete(alloc, bytes),
        LineKind::Scan => Ok(Job::Scan {
            table: table_alone(alloc, bytes)?,
        }),
        LineKind::Flush => Ok(Job::Flush {
            table: table_alone(alloc, bytes)?,
        }),
        LineKind::Compact => Ok(Job::Compact {
            table: table_alone(alloc, bytes)?,
            major: false,
        }),
        LineKind::MajorCompact => Ok(Job::Compact {
            table: table_alone(alloc, bytes)?,
            major: true,
        }),
        LineKind::Disable => Ok(Job::Disable {
            table: table_alone(alloc, bytes)?,
        }),
        LineKind::Enable => Ok(Job::Enable {
            table: table_alone(alloc, bytes)?,
        }),
        LineKind::Drop => Ok(Job::Drop {
            table: table_alone(alloc, bytes)?,
        }),
        LineKind::Split => split(alloc, bytes),
        LineKind::Snapshot => snapshot(alloc, bytes),
        LineKind::ListSnapshots => Ok(Job::ListSnapshots),
        LineKind::DeleteSnapshot => Ok(Job::DeleteSnapshot {
            snapshot: snapshot_alone(alloc, bytes)?,
        }),
        LineKind::CloneSnapshot => clone_of(alloc, bytes),
        LineKind::RestoreSnapshot => Ok(Job::Restore {
            snapshot: snapshot_alone(alloc, bytes)?,
        }),
        LineKind::Bulkload => bulk(alloc, bytes),
        LineKind::CatalogjanitorRun => Ok(Job::Janitor),
        LineKind::CleanerChoreRun => Ok(Job::Clean),
    }
}
