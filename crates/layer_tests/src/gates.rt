// Gates at which workers see each other.
use net_case::Gate;
use std::hint;
use std::sync::atomic::{AtomicU64, Ordering};

// How often a gate looks for another worker before it lets one through that none has come to meet.
const LOOKS: u64 = 100_000_000;

/// A program of two tasks of which each may begin at once. They make 20 ticks in all.
pub const SHIFTS: &str =
    "void P(tapa::ostream<int64_t>& a) { a << (1L << 40); a << (1 << 40); a << 0xFFFFFFFF + 1; a << 4294967295 + 1; }
void C(tapa::istream<int64_t>& a) { for (int i = 0; i < 4; ++i) a.read(); }
void T() { tapa::stream<int64_t> a; tapa::task().invoke(P, a).invoke(C, a); }
";

/// A program with a task that may be slow to begin, beside two that pass tokens on.
pub const APART: &str = "void A() { int x = 1; }
void B(tapa::ostream<int>& q) { q << 1; q << 2; q << 3; }
void C(tapa::istream<int>& q) { q.read(); q.read(); q.read(); }
void T() { tapa::stream<int, 1> q; tapa::task().invoke(A).invoke(B, q).invoke(C, q); }
";

/// A gate that lets everyone through, and does not say so.
#[derive(Drop)]
pub struct Closed;

impl Gate for Closed {
    fn pass(&self, instance: u32) {
        let _ = instance;
    }
}

/// A gate at which each of the first two instances waits, the first time, until the other one has come often enough, or it has
/// looked too often.
#[derive(Drop)]
pub struct Awaiting {
    first: AtomicU64,
    second: AtomicU64,
    of_first: u64,
    of_second: u64,
    /// How many saw the calls that they awaited.
    pub seen: AtomicU64,
}

impl Awaiting {
    /// Nobody is there. The first instance awaits `of_second` calls of the second, and that `of_first` calls of the first.
    pub fn new(of_second: u64, of_first: u64) -> Awaiting {
        Awaiting {
            first: AtomicU64::new(0),
            second: AtomicU64::new(0),
            of_first,
            of_second,
            seen: AtomicU64::new(0),
        }
    }

    fn wait(&self, own: &AtomicU64, other: &AtomicU64, awaited: u64) {
        if own.fetch_add(1, Ordering::SeqCst) > 0 {
            return;
        }
        for _ in 0..LOOKS {
            if other.load(Ordering::SeqCst) >= awaited {
                self.seen.fetch_add(1, Ordering::SeqCst);
                return;
            }
            hint::spin_loop();
        }
    }
}

impl Gate for Awaiting {
    fn pass(&self, instance: u32) {
        match instance {
            0 => self.wait(&self.first, &self.second, self.of_second),
            1 => self.wait(&self.second, &self.first, self.of_first),
            _ => {}
        }
    }
}
