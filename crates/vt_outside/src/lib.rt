//! What a program is lent of the outside: named files, a source and sinks of bytes, and a gate before memory.
//!
//! Each trait has a meaning: the contents, where the object tells them, and a count of its faults. An answer
//! `Failed` comes only where the count rose, so a caller can say of its own faults whose they were.
#![tactic(auto)]

mod desk;
mod disk;
mod files;
mod gate;
mod memory;
mod replacing;
mod sink;
mod source;
mod system;
mod whole;

pub use desk::{Desk, DeskRead, DeskWrite};
pub use disk::{Disk, Found, Made, Readers};
pub use files::SystemDisk;
pub use gate::{Gate, OpenGate};
pub use memory::desk::MemoryDesk;
pub use memory::sink::MemorySink;
pub use memory::source::MemorySource;
pub use sink::{Put, Sink};
pub use source::{Got, Source};
pub use system::{FileDesk, InSource, OutSink};
pub use whole::{Failed, write_all};
