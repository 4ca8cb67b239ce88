//! The outside as traits: where bytes come from and go to, what time it is, and where a worker may
//! be held up. Beside them stand forms in memory, which tell what they do, and forms over the system.
#![tactic(auto)]

mod calls;
pub mod clock;
pub mod failed;
pub mod gate;
mod history;
pub mod list_clock;
pub mod mem_sink;
pub mod mem_source;
pub mod real_clock;
pub mod sink;
pub mod source;
pub mod std_sink;
pub mod std_source;
pub mod ticker;

pub use clock::Clock;
pub use failed::Failed;
pub use gate::{Gate, OpenGate, Point};
pub use list_clock::ListClock;
pub use mem_sink::MemSink;
pub use mem_source::MemSource;
pub use real_clock::RealClock;
pub use sink::Sink;
pub use source::Source;
pub use std_sink::StdSink;
pub use std_source::StdSource;
pub use ticker::Ticker;

#[cfg(test)]
mod tests {
    use super::*;
    use std::test::Fail;
    use std::thread;

    // Each form may go to another thread.
    #[test]
    fn crosses_threads(rt: HostRuntime) -> Result<(), Fail> {
        let alloc = rt.alloc();
        let mut source = MemSource::new(Vec::from_slice(alloc, b"ab")?, 2, Vec::new(alloc));
        let mut sink = MemSink::new(alloc, 2, 2, Vec::new(alloc))?;
        let mut clock = Ticker::new(ListClock::new(Vec::new(alloc)), Some(3));
        let (moved, moment) = thread::join(
            &rt,
            move || {
                let mut buf = [0; 2];
                (source.read(&mut buf), sink.write(b"cd"))
            },
            || clock.now(),
        );
        assert_eq!(rt; moved, (Ok(2), Ok(2)));
        assert_eq!(rt; moment, 3);
        let (told, sent) = thread::join(
            &rt,
            move || clock.into_inner().now(),
            move || StdSink::new(rt).faults() + StdSource::new(&rt).faults(),
        );
        assert_eq!(rt; (told, sent), (0, 0));
        Ok(())
    }
}
