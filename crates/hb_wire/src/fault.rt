//! Why bytes could not be read.
use thiserror::Error;

/// Why a number or a field could not be read.
#[derive(Clone, Copy, Debug, PartialEq, Eq, Error)]
pub enum WireError {
    /// At least so many bytes are missing.
    #[error("{0} bytes are missing at least")]
    Short(usize),
    /// The number has a shorter spelling, or is beyond its limit.
    #[error("a number is spelled too long")]
    Overlong,
    /// This tag is of no kind of field that is read.
    #[error("the tag {0} is of no field")]
    BadWire(u32),
    /// No memory was left.
    #[error("no memory was left")]
    NoMemory,
}
