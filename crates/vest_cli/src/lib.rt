//! The top call: it obeys one command line, over what it is lent of the outside.
//!
//! A call whose words spell no command says so (status 1). A call stops before it has written anything (statuses 2, 3, 6,
//! 8 and 9) and says why in one line of the report, or it does what its command says: `running` and `generating` have the commands that
//! run something, `living` the run that is talked with, `replaying` the one that drives a stored order again, and `vest_files` those that run nothing.
//!
//! Those that run something take all that they need first (`tasks`, `execute`): the image with its translation, the input, the
//! memory, the code made ready. Then the image's threads run at once over one memory (`run_threads`), each in Alpha code where that is
//! mapped and interpreted where not; output and report go out, then the order into the file that the words name (`storing`), and the
//! run is kept. `specs/Vest.antt` has the whole meaning,
//! `specs/Run.antt`, `specs/Live.antt`, `specs/Generate.antt` and `specs/Replay.antt` that of the commands.
#![tactic(auto)]

mod alone;
mod conclude;
mod execute;
mod explained;
mod generating;
mod halt;
mod hinting;
pub mod laws;
mod living;
mod programs;
mod replaying;
mod running;
mod storing;
mod tasks;
mod top;
mod waiting;

pub use programs::{answer, program, words_of};
pub use top::{begin, vest};
pub use vest_runs::{Kept, KeptMemory};
pub use vest_stops::Status;
pub use waiting::Waiting;
