// An instruction one reference at a time.
use crate::instructions::memory::Memory;
use anyhow::Result;
use tie_interpreter::{Tie, TieStep};
use tie_strings::LongTie;
use vax_decode::Decoded;
use vax_form::{Instr, Pages, VaxState, is_long};

/// More references than any instruction of the programs makes.
const REFERENCES: u32 = 1000;

#[derive(Clone, Copy)]
pub enum Interpreted {
    Short(Tie),
    Long(LongTie),
}

impl Interpreted {
    /// Begins the instruction.
    pub fn begin(state: &VaxState, instr: Instr) -> Interpreted {
        let decoded = Decoded::Instr(instr);
        if is_long(instr.opcode) {
            Interpreted::Long(LongTie::begin_decoded(state, &decoded, 0))
        } else {
            Interpreted::Short(Tie::begin_decoded(state, &decoded, 0))
        }
    }

    /// Goes on with the reply to the last reference wanted, if there was one.
    fn step(&mut self, pages: &Pages, reply: Option<u64>) -> TieStep {
        match *self {
            Interpreted::Short(mut tie) => {
                let step = tie.step(pages, reply);
                let stepped = Interpreted::Short(tie);
                *self = stepped;
                step
            }
            Interpreted::Long(mut tie) => {
                let step = tie.step(pages, reply);
                let stepped = Interpreted::Long(tie);
                *self = stepped;
                step
            }
        }
    }

    /// Goes on to its end, with the replies of a memory, and counts its references.
    pub fn end(
        &mut self,
        pages: &Pages,
        memory: &mut Memory,
        references: &mut u32,
    ) -> Result<TieStep> {
        let mut step = self.step(pages, None);
        for _ in 0..REFERENCES {
            let TieStep::Want(reference) = step else {
                break;
            };
            let reply = memory.make(reference)?;
            *references = references.saturating_add(1);
            step = self.step(pages, Some(reply));
        }
        Ok(step)
    }
}
