// What a processor passes before it asks for memory. It has no effect on any answer.

/// It may hold a processor for a while, and changes no answer.
pub trait Gate {
    /// Comes before each access to memory. `number` counts the accesses that this processor has asked for
    /// before, from 0.
    fn before(&self, processor: u8, number: u64);

    /// Whether it may hold a processor. One that it may hold gives the memory back before it passes.
    fn may_hold(&self) -> bool {
        true
    }
}

/// It holds no processor.
#[derive(Clone, Copy, Debug)]
pub struct OpenGate;

impl Gate for OpenGate {
    fn before(&self, _processor: u8, _number: u64) {}

    fn may_hold(&self) -> bool {
        false
    }
}
