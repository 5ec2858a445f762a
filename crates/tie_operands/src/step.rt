// What a step of the interpreter comes to.
ghost use Rattle.std.specs.Prelude.{◌≡◌};

use vax_form::{End, Exception, Reference, Stop, VaxState};

/// What a step of an interpreted instruction comes to.
#[derive(Clone, Copy, Debug, PartialEq, Eq)]
pub enum TieStep {
    /// It wants the reply to this reference.
    Want(Reference),
    /// It is done, and the thread goes on with this state.
    Retired(VaxState),
    /// It is done, and the thread ends.
    Exited(VaxState),
    /// It raises an exception: an arithmetic trap with the state behind it, or a fault with the state before it.
    Raised(Exception, VaxState),
}

impl TieStep {
    ghost use Rattle.vax_form.specs.Tree.{ending, ending_outcome, stop_outcome};
    ghost use Rattle.tie_operands.specs.Steps.{step_of};

    /// The step at which an instruction ends.
    pub fn ended(end: End, state: &VaxState) -> TieStep
        ensures { result ≡ step_of (ending_outcome (ending end state.now)) }
    {
        match end {
            End::Done => TieStep::Retired(*state),
            End::Exits => TieStep::Exited(*state),
            End::Traps(kind) => TieStep::Raised(Exception::Arithmetic(kind), *state),
        }
    }

    /// The step at which an instruction stops; a fault shows the state before it.
    pub fn stopped(stop: Stop, before: &VaxState) -> TieStep
        ensures { result ≡ step_of (stop_outcome before.now stop) }
    {
        match stop {
            Stop::Wants(reference) => TieStep::Want(reference),
            Stop::Fails(exception) => TieStep::Raised(exception, *before),
        }
    }
}
