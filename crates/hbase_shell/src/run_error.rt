//! Why a run ends without its listing.
ghost use Rattle.std.specs.Prelude.{◌≡◌, IfOk};
ghost use Rattle.hbase_shell.specs.RunError.{bad_line, status_of, last_line, error_of};
ghost use Rattle.hbase_shell.specs.declared.run_error.RunError.TheVariants as variant;

use hb_wire::{Blob, NoMemory};
use shell_words::WordsError;
use std::alloc::Global;

/// The first bad line of a script, as it is told.
#[derive(Debug, Drop)]
pub struct BadLine {
    /// How many blocks stand before it: 0 in a script without blocks.
    pub session: u32,
    /// Its number, counted from 1.
    pub line: u32,
    /// The column of its first byte that no line has there, counted from 1.
    pub column: u32,
    /// The line that tells this, with its line feed.
    pub text: Blob,
}

impl BadLine {
    /// The bad line of a place, with the text that tells it.
    pub fn new(alloc: Global, session: u32, line: u32, column: u32) -> Result<BadLine, NoMemory>
        ensures place { IfOk result (λ bad. (bad.session ≡ session) × (bad.line ≡ line) × (bad.column ≡ column)) }
        ensures text { IfOk result (λ bad. bad.text ≡ bad_line session line column) }
    {
        let text = format!(in alloc;
            "error BadScript session {} line {} column {}\n",
            session, line, column
        )?;
        let text = Blob::copy_of(alloc, text.as_bytes())?;
        Ok(BadLine {
            session,
            line,
            column,
            text,
        })
    }
}

/// Why a run ends without its listing.
#[derive(Debug, Drop)]
pub enum RunError {
    /// The input is longer than a script may be.
    TooLong,
    /// The input has a bad line.
    BadScript(BadLine),
    /// The words are not those of a script over a store in memory.
    Usage,
    /// The source failed.
    ReadFault,
    /// The store failed.
    NsFault,
    /// No memory was left.
    NoMemory,
}

impl RunError {
    /// The exit status of a run that ends so.
    pub fn status(&self) -> u8
        ensures { result ≡ status_of self.now }
    {
        match self {
            RunError::TooLong => 1,
            RunError::BadScript(_) => 1,
            RunError::Usage => 2,
            RunError::ReadFault => 3,
            RunError::NsFault => 5,
            RunError::NoMemory => 8,
        }
    }

    /// The line that such a run writes, with its line feed.
    pub fn last_line(&self) -> &[u8]
        ensures { result.now ≡ last_line self.now }
    {
        match self {
            RunError::TooLong => b"error TooLong\n",
            RunError::BadScript(bad) => bad.text.as_slice(),
            RunError::Usage => b"error Usage\n",
            RunError::ReadFault => b"error ReadFault\n",
            RunError::NsFault => b"error NsFault\n",
            RunError::NoMemory => b"error NoMemory\n",
        }
    }
}

impl From<NoMemory> for RunError {
    ghost from_gives = { λ _ error. error ≡ variant.NoMemory };

    fn from(_want: NoMemory) -> RunError {
        RunError::NoMemory
    }
}

impl From<WordsError> for RunError {
    ghost from_gives = { λ words error. error ≡ error_of words };

    fn from(words: WordsError) -> RunError {
        match words {
            WordsError::Usage => RunError::Usage,
            WordsError::NoMemory => RunError::NoMemory,
        }
    }
}
