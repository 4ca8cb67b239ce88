//! Where a worker may be held up between two of its steps.

/// A place between two steps of a worker: which worker, which of its lines, and which step of that line.
#[derive(Clone, Copy, Debug, PartialEq, Eq)]
pub struct Point {
    pub worker: u32,
    pub line: u32,
    pub step: u32,
}

/// What each worker passes between its steps. It may hold a worker up, and cannot fail.
pub trait Gate {
    /// Returns when the worker may go on.
    fn between(&self, point: Point);
}

/// The gate that returns at once.
#[derive(Clone, Copy, Debug, PartialEq, Eq)]
pub struct OpenGate;

impl Gate for OpenGate {
    fn between(&self, _point: Point) {}
}
