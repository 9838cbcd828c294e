// Milliseconds since a moment.
use std::io;
use std::time::{Clock, Instant};

/// A watch that shows the milliseconds since it was started.
#[derive(Clone, Copy, Drop)]
pub struct Watch {
    start: Instant,
}

impl Watch {
    pub fn start<C: Clock>(clock: &C) -> io::Result<Watch> {
        Ok(Watch {
            start: Instant::now(clock)?,
        })
    }

    /// The milliseconds since then.
    pub fn millis<C: Clock>(&self, clock: &C) -> io::Result<u64> {
        let time = Instant::now(clock)?.duration_since(self.start);
        Ok(
            time.as_secs()
                .saturating_mul(1_000)
                .saturating_add(time.subsec_millis() as u64),
        )
    }
}
