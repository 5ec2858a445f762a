// What a step leads to.
ghost use Rattle.std.specs.Prelude.{◌≡◌};

use alpha_machine::Cpu;
use alpha_meaning::AlphaAccess;
use memory_core::Request;
use vax_form::{Exception, Flags, VaxState};

/// How an instruction ended.
#[derive(Clone, Copy)]
pub enum Last {
    Finish(VaxState),
    Exit(VaxState),
    /// An arithmetic trap of that type.
    Trap(u8, VaxState),
    Fault(Exception),
}

/// How an instruction ended, but for the state behind it.
#[derive(Clone, Copy)]
pub(crate) enum Ending {
    Finish,
    Exit,
    /// An arithmetic trap of that type.
    Trap(u8),
    Fault(Exception),
}

impl Last {
    ghost use Rattle.tie_switch.specs.Interpreted.{last_with};

    /// Its end, with the state behind it, where there is one, put there.
    pub(crate) fn put(self, after: &mut VaxState) -> Ending
        ensures { last_with result after.new ≡ self }
    {
        match self {
            Last::Finish(state) => {
                *after = state;
                Ending::Finish
            }
            Last::Exit(state) => {
                *after = state;
                Ending::Exit
            }
            Last::Trap(kind, state) => {
                *after = state;
                Ending::Trap(kind)
            }
            Last::Fault(exception) => Ending::Fault(exception),
        }
    }
}

impl Ending {
    ghost use Rattle.tie_switch.specs.Interpreted.{last_with};

    /// The end with the state behind it.
    pub(crate) fn last(self, after: &VaxState) -> Last
        ensures { result ≡ last_with self after.now }
    {
        match self {
            Ending::Finish => Last::Finish(*after),
            Ending::Exit => Last::Exit(*after),
            Ending::Trap(kind) => Last::Trap(kind, *after),
            Ending::Fault(exception) => Last::Fault(exception),
        }
    }
}

/// Where a step leads.
#[derive(Clone, Copy)]
pub(crate) enum Place {
    /// On inside a block.
    Inside(Cpu),
    /// To a mapped word, where the registers show that state with these held codes.
    Lands {
        state: VaxState,
        held: Flags,
        cpu: Cpu,
    },
    /// Out of Alpha code.
    Leaves(Last),
}

/// What a step wants of memory.
#[derive(Clone, Copy)]
pub(crate) enum Wanted {
    Access(AlphaAccess),
    Put,
    Get,
}

/// What a step does.
#[derive(Clone, Copy)]
pub(crate) enum Next {
    Moves(Place),
    Wants(Request, Wanted),
}
