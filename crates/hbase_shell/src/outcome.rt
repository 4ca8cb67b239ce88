//! What a run hands back.
ghost use Rattle.std.specs.Prelude.{◌≡◌};
ghost use Rattle.std.specs.Process.{exit_status};

use std::io::Eprint;
use std::process::{ExitCode, Termination};

/// How a run ended, and what was handed in to it. A program's `main` may return it.
#[derive(Drop)]
pub struct Outcome<N, P, C> {
    /// The exit status.
    pub status: u8,
    /// The store that the run worked on.
    pub store: N,
    /// The store of the peer.
    pub peer: P,
    /// The clock.
    pub clock: C,
}

impl<N: Drop, P: Drop, C: Drop> Termination for Outcome<N, P, C> {
    /// The process ends with the run's status, and nothing is said on standard error.
    fn report<R: Eprint>(self, _rt: &R) -> ExitCode
        ensures { exit_status result ≡ self.status }
    {
        ExitCode::from(self.status)
    }
}
