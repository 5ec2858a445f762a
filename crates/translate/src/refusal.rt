// Why an image isn't translated.
ghost use Rattle.std.specs.Prelude.{◌≡◌};
ghost use Rattle.translate.specs.declared.refusal.TranslateRefusal.TheVariants.{WantOfMemory as NoMemory};
ghost use Rattle.translate.specs.Refusal.{refusal_of};

use arrayvec::ArrayVec;
use flow_discovery::FlowRefusal;
use vax_form::WantOfMemory;

/// A refusal's number, and then what it tells of the flow.
pub type Numbers = ArrayVec<u64, 2>;

/// Why an image isn't translated.
#[derive(Clone, Copy, Debug, PartialEq, Eq)]
pub enum TranslateRefusal {
    /// So many instructions can be reached, and that is more than 32,768.
    Flow { count: u64 },
    WantOfMemory,
}

impl TranslateRefusal {
    ghost use Rattle.translate.specs.Refusal.{number_of, numbers_of};

    /// The refusal's number, which want of memory lacks.
    pub fn number(self) -> Option<u8>
        ensures { result ≡ number_of self }
    {
        match self {
            TranslateRefusal::Flow { .. } => Some(1),
            TranslateRefusal::WantOfMemory => None,
        }
    }

    /// The refusal's number, and then what it tells of the flow.
    pub fn numbers(self) -> Numbers
        ensures { result.items ≡ numbers_of self }
    {
        let mut numbers = Numbers::new();
        if let Some(number) = self.number() {
            numbers.push(u64::from(number));
        }
        if let TranslateRefusal::Flow { count } = self {
            numbers.push(count);
        }
        numbers
    }
}

impl From<FlowRefusal> for TranslateRefusal {
    ghost from_gives = { λ flow refusal. refusal ≡ refusal_of flow };

    fn from(flow: FlowRefusal) -> TranslateRefusal {
        match flow {
            FlowRefusal::TooManyInstructions { count } => TranslateRefusal::Flow { count },
            FlowRefusal::WantOfMemory => TranslateRefusal::WantOfMemory,
        }
    }
}

impl From<WantOfMemory> for TranslateRefusal {
    ghost from_gives = { λ _ refusal. refusal ≡ NoMemory };

    fn from(_: WantOfMemory) -> TranslateRefusal {
        TranslateRefusal::WantOfMemory
    }
}
