//! What the words of a command line say.
ghost use Rattle.std.specs.Prelude.{◌≡◌, map};
ghost use Rattle.std.specs.String.{string_bytes};
ghost use Rattle.clap.specs.Words.{found_of, rows_of};
ghost use Rattle.shell_words.specs.Line.{IsPlainLine};
ghost use Rattle.shell_words.specs.Matches.{number_in, options_of};
ghost use Rattle.shell_words.specs.Reading.{IsOrNoMemory, IsReading};

use crate::command::hbase_command;
use crate::options::Options;
use clap::ArgMatches;
use clap::error::ErrorKind;
use std::alloc::Global;

/// Why words are not read.
#[derive(Clone, Copy, Debug, PartialEq, Eq)]
pub enum WordsError {
    /// The command refuses the words.
    Usage,
    /// No memory was left.
    NoMemory,
}

// The number of an option that is read as a `u64`.
fn long_given(matches: &ArgMatches<'_>, id: &str) -> Option<u64>
    ensures { result ≡ number_in 18446744073709551615 id.now (rows_of (found_of matches.now)) }
{
    matches.get_one::<u64>(id)
}

// The number of an option that is read as a `u32`.
fn count_given(matches: &ArgMatches<'_>, id: &str) -> Option<u32>
    ensures { result ≡ number_in 4294967295 id.now (rows_of (found_of matches.now)) }
{
    matches.get_one::<u32>(id)
}

// The options that the matches say.
fn options_given(matches: &ArgMatches<'_>) -> Options
    ensures { result ≡ options_of (rows_of (found_of matches.now)) }
{
    let default = Options::default();
    Options {
        ttl: long_given(matches, "ttl").unwrap_or(default.ttl),
        tick: long_given(matches, "tick"),
        rounds: count_given(matches, "rounds").unwrap_or(default.rounds),
    }
}

/// Reads the words behind the program's name: the store `mem`, the command `script`, and the options `--ttl` (0 to
/// 9,223,372,036,854,775,807), `--tick` (1 to 1,000,000) and `--rounds` (0 to 1,000), each of one number and at most
/// once. It takes the allocator.
///
/// # Errors
///
/// `Usage` exactly where the command refuses the words, but for want of memory; `NoMemory` for that.
pub fn read_words(alloc: Global, words: &[String]) -> Result<Options, WordsError>
    // The command takes the words and says the options, or refuses them.
    ensures reads { IsReading (map string_bytes words.now) result }
    // A line of the store, the command and options behind them is taken, with its values.
    ensures plain { (options : Options) → IsPlainLine (map string_bytes words.now) options
        → IsOrNoMemory options result }
{
    let Ok(command) = hbase_command(alloc) else {
        return Err(WordsError::NoMemory);
    };
    match command.try_get_matches_from(words) {
        Ok(matches) => Ok(options_given(&matches)),
        Err(error) => match error.kind() {
            ErrorKind::OutOfMemory => Err(WordsError::NoMemory),
            _ => Err(WordsError::Usage),
        },
    }
}
