// What a pass knows. These are values of contracts alone.
use memory_core::{Entry, MemState};
use std::collections::LinkedList;

/// What a pass was when it was joined.
pub struct Ended {
    pub number: u8,
    pub seen: LinkedList<Entry>,
    pub own: LinkedList<Entry>,
}

/// What a pass knows of the memory.
pub struct View {
    /// The memory as it was handed in.
    pub start: MemState,
    /// A processor's pass lives until it is joined.
    pub lives: bool,
    pub number: u8,
    pub keeps: bool,
    /// 1 while it has the turn; `found` is then the history that it found.
    pub turn: u64,
    pub found: LinkedList<Entry>,
    pub seen: LinkedList<Entry>,
    pub own: LinkedList<Entry>,
    /// Of the keeper: the number to give next, those given, and the passes that were joined.
    pub chosen: u8,
    pub given: LinkedList<u8>,
    pub ended: LinkedList<Ended>,
}
