// Counters by which workers sleep and are woken.
use std::sync::Wait;
use std::sync::atomic::{AtomicU64, Ordering};

/// Counters that keep a worker from sleeping while there is work, and from waking others if none sleeps. No contract depends on
/// them: a sleep may end at any time.
#[derive(Drop)]
pub struct Signals {
    /// The number of workers that sleep until the turn is free, or are about to.
    pub sleepers: AtomicU64,
    /// The number of workers that wait for the turn with a batch that has made its ticks.
    pub comers: AtomicU64,
    /// The number of times that there was news: another worker may find something to do, or a worker has found the end.
    pub news: AtomicU64,
    /// The number of workers that sleep until there is news, or are about to.
    pub waiters: AtomicU64,
    /// 1 once the workers are to leave the network to one thread.
    pub left: AtomicU64,
}

impl Signals {
    /// Returns counters at which nobody sleeps.
    pub fn new() -> Signals {
        Signals {
            sleepers: AtomicU64::new(0),
            comers: AtomicU64::new(0),
            news: AtomicU64::new(0),
            waiters: AtomicU64::new(0),
            left: AtomicU64::new(0),
        }
    }

    /// Counts one more worker that waits for the turn with a batch.
    pub fn comes(&self) {
        let _ = self.comers.fetch_add(1, Ordering::SeqCst);
    }

    /// Counts one less, as a worker with a batch has the turn.
    pub fn has_come(&self) {
        let _ = self.comers.fetch_sub(1, Ordering::SeqCst);
    }

    /// Checks whether some worker waits for the turn with a batch.
    pub fn is_awaited(&self) -> bool {
        self.comers.load(Ordering::SeqCst) > 0
    }

    /// Signals that all workers are to leave.
    pub fn leave(&self) {
        self.left.store(1, Ordering::SeqCst);
    }

    /// Checks whether the workers are to leave.
    pub fn are_to_leave(&self) -> bool {
        self.left.load(Ordering::SeqCst) == 1
    }

    /// Returns the number of times that there was news.
    pub fn news(&self) -> u64 {
        self.news.load(Ordering::SeqCst)
    }

    /// Sleeps as long as there was news `news` times.
    pub fn wait<R: Wait>(&self, rt: &R, news: u64) {
        let _ = self.waiters.fetch_add(1, Ordering::SeqCst);
        self.news.park(rt, (news % 4_294_967_296) as u32);
        let _ = self.waiters.fetch_sub(1, Ordering::SeqCst);
    }

    /// Counts news, and wakes one worker that sleeps.
    pub fn tell_one(&self) {
        let _ = self.news.fetch_add(1, Ordering::SeqCst);
        if self.waiters.load(Ordering::SeqCst) > 0 {
            self.news.wake_one();
        }
    }

    /// Counts news, and wakes all workers that sleep.
    pub fn tell_all(&self) {
        let _ = self.news.fetch_add(1, Ordering::SeqCst);
        if self.waiters.load(Ordering::SeqCst) > 0 {
            self.news.wake_all();
        }
    }
}
