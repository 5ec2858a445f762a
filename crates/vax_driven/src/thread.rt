// A thread behind a driven run, and how its processor ended.
use vax_form::{Exception, VaxState};

/// A thread as it stands after some instructions. It has exited where the last of them was the exit. It has raised the
/// trap of the last of them, or else the fault of the next.
#[derive(Clone, Copy, Debug, PartialEq, Eq)]
pub struct ThreadRun {
    pub state: VaxState,
    pub exited: bool,
    pub raised: Option<Exception>,
}

/// How the processor of a thread ended.
#[derive(Clone, Copy, Debug, PartialEq, Eq)]
pub enum End {
    /// By the service that ends its thread, with that R0.
    Exit(u32),
    Raised(Exception),
    /// It came to its budget of steps, or the history was full.
    Spent,
}
