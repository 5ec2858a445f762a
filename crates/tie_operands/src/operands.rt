// The operands of an instruction, evaluated a reference at a time.
ghost use Rattle.std.specs.Prelude.{◌≡◌, ◌<◌, ◌++◌, [], length};
ghost use Rattle.tie_operands.specs.Replies.{list_of, replies_of};

use crate::replies::Replies;
use crate::specifiers::Specifiers;
use vax_form::{Instr, Row, Stop, VaxState};
use vax_meaning::{Cursor, Evaluated, Location, NOTHING};

/// Finding an operand, or obtaining it, uses so many replies at most.
const REPLIES_OF_PART: usize = 2;

/// The operands of an instruction that are being evaluated.
#[derive(Clone, Copy, Debug, PartialEq, Eq)]
pub struct Operands {
    specifiers: Specifiers,
    /// How many are evaluated, with their values.
    done: usize,
    values: [Evaluated; 6],
    /// Where the next one is, once it is found.
    found: Option<Location>,
    /// The state before its current part, and the reply that this part has.
    state: VaxState,
    kept: Replies<REPLIES_OF_PART>,
    ghost in_range: { done < 6 },
    ghost room: { length (replies_of kept) < 2 },
}

impl Operands {
    ghost use Rattle.vax_form.specs.Tree.{tree_of, feed};
    ghost use Rattle.vax_form.specs.declared.pages.Pages.{Pages};
    ghost use Rattle.vax_meaning.specs.Evaluation.{operands_from, nothings};
    ghost use Rattle.tie_operands.specs.Rest.{Behind, operands_tree, operands_rest, instr_of, state_of, kept_of, PassesOperands};

    /// Begins before the first operand.
    #[tactic(auto, unfolding(crate::specs::Rest::operands_tree))]
    pub fn begin(state: &VaxState, row: &Row, instr: &Instr) -> Operands
        ensures instr { instr_of result ≡ instr.now }
        ensures rest { (pages : Pages) (behind : Behind) → operands_rest pages result behind ≡ feed pages (tree_of pages (operands_from 6 row.now instr.now nothings) state.now behind) [] }
    {
        Operands {
            specifiers: Specifiers {
                row: *row,
                instr: *instr,
            },
            done: 0,
            values: [NOTHING; 6],
            found: None,
            state: *state,
            kept: Replies::none(),
        }
    }

    /// The instruction.
    pub fn instr(&self) -> Instr
        ensures { result ≡ instr_of self.now }
    {
        self.specifiers.instr
    }

    /// The state before the current part of an operand.
    pub fn state(&self) -> VaxState
        ensures { result ≡ state_of self.now }
    {
        self.state
    }

    /// The replies of the current part, with the next one where there is one.
    pub fn replies_with(&self, next: Option<u64>) -> Replies<REPLIES_OF_PART>
        ensures { replies_of result ≡ kept_of self.now ++ list_of next }
    {
        self.kept.with(next)
    }

    /// Stands before a part, with the replies that it has.
    fn wait(
        &mut self,
        place: usize,
        found: Option<Location>,
        values: [Evaluated; 6],
        state: VaxState,
        replies: &[u64],
    )
        requires place { place < 6 }
        requires room { length replies.now < 2 }
        ensures rest { (pages : Pages) (behind : Behind) → operands_rest pages self.new behind ≡ feed pages (operands_tree pages self.old.specifiers found place values state behind) replies.now }
        ensures instr { instr_of self.new ≡ instr_of self.old }
    {
        self.done = place;
        self.values = values;
        self.found = found;
        self.state = state;
        self.kept = Replies::of(replies);
    }

    /// Goes on until a reference has no reply, or to the end of the operands.
    pub fn evaluate(&mut self, cursor: &mut Cursor) -> Result<[Evaluated; 6], Stop>
        ensures passes { PassesOperands self.old cursor.old result self.new cursor.new }
        ensures instr { instr_of self.new ≡ instr_of self.old }
    {
        let mut values = self.values;
        let mut found = self.found;
        for place in self.done..6 {
            let (state, replies) = (cursor.state, cursor.replies);
            let location = match self.specifiers.find(cursor, place, found) {
                Ok(location) => location,
                Err(Stop::Wants(reference)) => {
                    self.wait(place, found, values, state, replies);
                    return Err(Stop::Wants(reference));
                }
                Err(Stop::Fails(exception)) => return Err(Stop::Fails(exception)),
            };
            let (state, replies) = (cursor.state, cursor.replies);
            match self.specifiers.obtain(cursor, place, location) {
                Ok(value) => values[place] = value,
                Err(Stop::Wants(reference)) => {
                    self.wait(place, Some(location), values, state, replies);
                    return Err(Stop::Wants(reference));
                }
                Err(Stop::Fails(exception)) => return Err(Stop::Fails(exception)),
            }
            found = None;
        }
        Ok(values)
    }
}
