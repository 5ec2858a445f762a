// What is known of a program's temporaries, checks and changes behind some of its operations.
ghost use Rattle.std.specs.Prelude.{◌≡◌, ◌<◌};
ghost use Rattle.micro_ops.specs.Known.{at_start, held, holds, holds_longword, with_held, is_committed, forgotten, behind_write, behind_access, behind_commit, is_checked};

/// How many temporaries a program may name.
pub(crate) const TEMPORARIES: u8 = 64;
/// How many registers a program may read and change.
pub(crate) const REGISTERS: u8 = 15;

/// What is known of a temporary.
#[derive(Clone, Copy, Debug, PartialEq, Eq)]
pub enum Holding {
    /// It was never written, or was lost.
    Nothing,
    /// A quadword.
    Wide,
    /// A number below 2^32.
    Longword,
}

/// The check that was made last, where its place was not written since.
#[derive(Clone, Copy, Debug, PartialEq, Eq)]
pub enum Checked {
    Nowhere,
    /// So many bytes at the address in a temporary, with that intent.
    At { place: u8, count: u8, write: bool },
}

/// What is known behind some operations of a program.
#[derive(Clone, Copy)]
pub struct Known {
    pub temp0: Holding,
    pub temp1: Holding,
    pub temp2: Holding,
    pub temp3: Holding,
    pub temp4: Holding,
    pub temp5: Holding,
    /// Whether each temporary above 5 was written since the last check or reference.
    pub high: [bool; 64],
    pub checked: Checked,
    /// Whether the state that is to be left was changed.
    pub changed: bool,
    /// The registers that were committed.
    pub committed: [bool; 15],
    /// Whether the codes were set.
    pub codes: bool,
    /// Whether the PSW was set.
    pub psw: bool,
    /// Whether the program left.
    pub ended: bool,
}

impl Known {
    /// Where a program begins.
    pub(crate) fn at_start() -> Known
        ensures { result ≡ at_start }
    {
        let nothing = Holding::Nothing;
        Known {
            temp0: nothing,
            temp1: nothing,
            temp2: nothing,
            temp3: nothing,
            temp4: nothing,
            temp5: nothing,
            high: [false; 64],
            checked: Checked::Nowhere,
            changed: false,
            committed: [false; 15],
            codes: false,
            psw: false,
            ended: false,
        }
    }

    fn held(&self, temp: u8) -> Holding
        ensures { result ≡ held self.now temp }
    {
        match temp {
            0 => self.temp0,
            1 => self.temp1,
            2 => self.temp2,
            3 => self.temp3,
            4 => self.temp4,
            5 => self.temp5,
            _ => {
                if self.high.get(temp as usize).copied().unwrap_or(false) {
                    Holding::Wide
                } else {
                    Holding::Nothing
                }
            }
        }
    }

    /// Whether a temporary was written and is not lost.
    pub(crate) fn holds(&self, temp: u8) -> bool
        ensures { result ≡ holds self.now temp }
    {
        !matches!(self.held(temp), Holding::Nothing)
    }

    pub(crate) fn holds_longword(&self, temp: u8) -> bool
        ensures { result ≡ holds_longword self.now temp }
    {
        matches!(self.held(temp), Holding::Longword)
    }

    pub(crate) fn is_committed(&self, number: u8) -> bool
        ensures { result ≡ is_committed self.now number }
    {
        self.committed
            .get(number as usize)
            .copied()
            .unwrap_or(false)
    }

    fn with_held(self, temp: u8, holding: Holding) -> Known
        requires { temp < 64 }
        ensures { result ≡ with_held temp holding self }
    {
        match temp {
            0 => Known {
                temp0: holding,
                ..self
            },
            1 => Known {
                temp1: holding,
                ..self
            },
            2 => Known {
                temp2: holding,
                ..self
            },
            3 => Known {
                temp3: holding,
                ..self
            },
            4 => Known {
                temp4: holding,
                ..self
            },
            5 => Known {
                temp5: holding,
                ..self
            },
            _ => {
                let mut high = self.high;
                high[temp as usize] = true;
                Known { high, ..self }
            }
        }
    }

    /// A check of a place that is written counts no more.
    pub(crate) fn behind_write(self, temp: u8, holding: Holding) -> Known
        requires { temp < 64 }
        ensures { result ≡ behind_write temp holding self }
    {
        let checked = forgotten(temp, self.checked);
        Known {
            checked,
            ..self.with_held(temp, holding)
        }
    }

    /// Of the temporaries only 0 to 3 outlast a check or a reference.
    pub(crate) fn behind_access(self) -> Known
        ensures { result ≡ behind_access self }
    {
        Known {
            temp4: Holding::Nothing,
            temp5: Holding::Nothing,
            high: [false; 64],
            ..self
        }
    }

    pub(crate) fn behind_commit(self, number: u8) -> Known
        requires { number < 15 }
        ensures { result ≡ behind_commit number self }
    {
        let mut committed = self.committed;
        committed[number as usize] = true;
        Known {
            committed,
            changed: true,
            ..self
        }
    }
}

fn forgotten(temp: u8, checked: Checked) -> Checked
    ensures { result ≡ forgotten temp checked }
{
    match checked {
        Checked::At { place, .. } if place == temp => Checked::Nowhere,
        _ => checked,
    }
}

/// Whether a reference of so many bytes there stands behind its check.
pub(crate) fn is_checked(checked: Checked, place: u8, count: u8, write: bool) -> bool
    ensures { result ≡ is_checked checked place count write }
{
    match checked {
        Checked::Nowhere => false,
        Checked::At {
            place: at,
            count: bytes,
            write: intent,
        } => at == place && bytes == count && (!write || intent),
    }
}
