// Why a command does not end without waiting.
ghost use Rattle.std.specs.Prelude.{◌≡◌};
ghost use Rattle.vest_stops.specs.declared.stop.Stop.TheVariants as stops;
ghost use Rattle.vest_cli.specs.Waiting.{or_halt};
ghost use Rattle.vest_cli.specs.declared.halt.Halt.TheVariants.{Stops};

use crate::waiting::Waiting;
use vax_form::WantOfMemory;
use vest_stops::{Done, Stop};

/// It stops before it has written anything, or its image has several threads, which are yet to run.
#[derive(Drop)]
pub(crate) enum Halt {
    Stops(Stop),
    Waits(Waiting),
}

impl From<Stop> for Halt {
    ghost from_gives = { λ stop halt. halt ≡ Stops stop };

    fn from(stop: Stop) -> Halt {
        Halt::Stops(stop)
    }
}

impl From<WantOfMemory> for Halt {
    ghost from_gives = { λ _ halt. halt ≡ Stops stops.WantOfMemory };

    fn from(_: WantOfMemory) -> Halt {
        Halt::Stops(Stop::WantOfMemory)
    }
}

/// Of a command that waits for no threads.
pub(crate) fn or_halt(ended: Result<Done, Stop>) -> Result<Done, Halt>
    ensures { result ≡ or_halt ended }
{
    match ended {
        Ok(done) => Ok(done),
        Err(stop) => Err(Halt::Stops(stop)),
    }
}
