// By how large batches a case goes on.

// The number of batches that are looked at together.
const MANY: u64 = 4_096;

// The ticks a batch below which they are few.
const SMALL: u64 = 256;

/// How many batches came back since they were last looked at, and how many ticks they had made. No contract depends on it.
#[derive(Drop)]
pub struct Pace {
    batches: u64,
    ticks: u64,
}

impl Pace {
    /// No batch came back.
    pub fn new() -> Pace {
        Pace {
            batches: 0,
            ticks: 0,
        }
    }

    /// One came back with `made` ticks.
    pub fn count(&mut self, made: u64) {
        self.batches = self.batches.saturating_add(1);
        self.ticks = self.ticks.saturating_add(made);
    }

    /// Whether many batches came back, and made few ticks on the average. Where there were many it begins anew.
    pub fn is_slow(&mut self) -> bool {
        if self.batches < MANY {
            return false;
        }
        let slow = self.ticks / SMALL < self.batches;
        self.batches = 0;
        self.ticks = 0;
        slow
    }
}
