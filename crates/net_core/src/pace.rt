// By how large batches a net is driven.

// The ticks a visit from which on batches are large.
const LARGE: u64 = 1_024;

/// The ticks of all instances when they were last summed, and the visits since then. No contract depends on it.
#[derive(Drop)]
pub struct Pace {
    visits: u64,
    ticks: u64,
}

// The ticks of all instances.
fn sum(counts: &Vec<u64>) -> u64 {
    let mut ticks: u64 = 0;
    for i in 0..counts.len() {
        ticks = ticks.saturating_add(counts[i]);
    }
    ticks
}

impl Pace {
    /// Nobody was visited yet.
    pub fn new(counts: &Vec<u64>) -> Pace {
        Pace {
            visits: 0,
            ticks: sum(counts),
        }
    }

    /// Whether the visits so far made large batches on the average. It looks once the number of visits is that of the instances, and
    /// begins anew; then come `more` visits.
    pub fn has_grown(&mut self, more: usize, counts: &Vec<u64>) -> bool {
        let visits = self.visits;
        self.visits = visits.saturating_add(more as u64);
        if visits < counts.len() as u64 {
            return false;
        }
        let ticks = sum(counts);
        let made = ticks.saturating_sub(self.ticks);
        self.visits = more as u64;
        self.ticks = ticks;
        made / LARGE >= visits
    }
}
