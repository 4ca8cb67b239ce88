//! What the text of an argument may mean.
ghost use Rattle.std.specs.Prelude.{◌≡◌};
ghost use Rattle.shell_text.specs.Argument.{has_byte, is_done, is_open, next, part_next, qualifier_next, run_next};

use hb_grammar::Class;

/// What is left of the meaning of an argument's text.
#[derive(Clone, Copy, Debug, PartialEq, Eq)]
pub enum Argument {
    /// A name, before its first byte: a byte of a class, and up to so many letters, digits and `_ - .`.
    Named(Class, usize),
    /// So many bytes of a class, or of any kind, and up to so many more.
    Run(Option<Class>, usize, usize),
    /// A family's name, a colon and a qualifier, before the first byte.
    Column,
    /// Up to so many bytes of a family's name, a colon and a qualifier.
    Qualifier(usize),
    /// A component of a place, before its first byte.
    Part,
    /// A component behind a dot.
    OneDot,
    /// A component behind two dots.
    TwoDots,
}

/// The greatest length of a qualifier.
pub const MAX_QUALIFIER: usize = 32_767;
/// The greatest length of a value.
pub const MAX_VALUE: usize = 10_485_760;

/// The name of a table or a snapshot: 1 to 100 bytes.
pub const NAME: Argument = Argument::Named(Class::NameStart, 99);
/// The name of a family: 1 to 127 bytes.
pub const FAMILY: Argument = Argument::Named(Class::FamilyStart, 126);
/// A row: 1 to 32,767 bytes.
pub const ROW: Argument = Argument::Run(None, 1, 32_766);
/// A value: up to 10,485,760 bytes.
pub const VALUE: Argument = Argument::Run(None, 0, MAX_VALUE);

/// Whether a run has this byte.
fn has_byte(class: Option<Class>, byte: u8) -> bool
    ensures { result ≡ has_byte class byte }
{
    match class {
        None => true,
        Some(class) => class.has(byte),
    }
}

/// What is left of a run.
fn run_next(class: Option<Class>, least: usize, more: usize) -> Option<Argument>
    ensures { result ≡ run_next class least more }
{
    if least > 0 {
        Some(Argument::Run(class, least - 1, more))
    } else if more > 0 {
        Some(Argument::Run(class, least, more - 1))
    } else {
        None
    }
}

/// What is left of a family's name and a qualifier.
fn qualifier_next(more: usize, byte: u8) -> Option<Argument>
    ensures { result ≡ qualifier_next more byte }
{
    if byte == b':' {
        Some(Argument::Run(None, 0, MAX_QUALIFIER))
    } else if more > 0 && Class::Name.has(byte) {
        Some(Argument::Qualifier(more - 1))
    } else {
        None
    }
}

/// What is left of a component, of which only dots were read, behind another byte.
fn part_next(byte: u8, more: usize) -> Option<Argument>
    ensures { result ≡ part_next byte more }
{
    if Class::Component.has(byte) {
        Some(Argument::Run(Some(Class::Component), 0, more))
    } else {
        None
    }
}

impl Argument {
    /// What is left after a byte.
    pub fn next(self, byte: u8) -> Option<Argument>
        ensures { result ≡ next self byte }
    {
        match self {
            Argument::Named(first, more) => {
                if first.has(byte) {
                    Some(Argument::Run(Some(Class::Name), 0, more))
                } else {
                    None
                }
            }
            Argument::Run(class, least, more) => {
                if has_byte(class, byte) {
                    run_next(class, least, more)
                } else {
                    None
                }
            }
            Argument::Column => {
                if Class::FamilyStart.has(byte) {
                    Some(Argument::Qualifier(126))
                } else {
                    None
                }
            }
            Argument::Qualifier(more) => qualifier_next(more, byte),
            Argument::Part => {
                if byte == b'.' {
                    Some(Argument::OneDot)
                } else {
                    part_next(byte, 254)
                }
            }
            Argument::OneDot => {
                if byte == b'.' {
                    Some(Argument::TwoDots)
                } else {
                    part_next(byte, 253)
                }
            }
            Argument::TwoDots => part_next(byte, 252),
        }
    }

    /// Whether nothing has to come.
    pub fn is_done(self) -> bool
        ensures { result ≡ is_done self }
    {
        match self {
            Argument::Run(_, least, _) => least == 0,
            _ => false,
        }
    }

    /// Whether something may come.
    pub fn is_open(self) -> bool
        ensures { result ≡ is_open self }
    {
        match self {
            Argument::Run(_, least, more) => least > 0 || more > 0,
            _ => true,
        }
    }
}
