//! What a command line chooses beside the store and the command.
ghost use Rattle.std.specs.Prelude.{◌≡◌};
ghost use Rattle.shell_words.specs.Options.{default_options};

/// What the words of a command line choose beside the store and the command.
#[derive(Clone, Copy, Debug, PartialEq, Eq)]
pub struct Options {
    /// How long an archived file that nothing names is kept, in milliseconds.
    pub ttl: u64,
    /// By how many milliseconds each moment is above the one before it, in place of the clock's moments.
    pub tick: Option<u64>,
    /// How many rounds each background chore does.
    pub rounds: u32,
}

impl Default for Options {
    ghost is_default = { λ options. options ≡ default_options };

    /// The options of a command line that names none: 300,000 milliseconds, the clock's own moments, one round.
    fn default() -> Options {
        Options {
            ttl: 300_000,
            tick: None,
            rounds: 1,
        }
    }
}
