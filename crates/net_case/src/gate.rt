// What a worker passes before it makes ticks.

/// A gate that a worker passes before each resume that may make a tick.
pub trait Gate: Sync {
    /// Returns when this instance may be resumed.
    fn pass(&self, instance: u32);

    /// Whether it lets everyone through at once, so that who is in a hurry need not pass it.
    fn is_open(&self) -> bool {
        false
    }
}

/// A gate that lets everyone through at once.
#[derive(Drop)]
pub struct OpenGate;

impl Gate for OpenGate {
    fn pass(&self, instance: u32) {
        let _ = instance;
    }

    fn is_open(&self) -> bool {
        true
    }
}
