// From where control comes to each instruction of a list.
ghost use Rattle.std.specs.Prelude.{◌≡◌, [], IfNone, IfOk, IfSome, length, nat_eq};
ghost use Rattle.std.specs.List.{filter_map};
ghost use Rattle.std.specs.Option.{option_to_list};
ghost use Rattle.code_runs.specs.Runs.{AreInOrder};
ghost use Rattle.code_runs.specs.Entrances.{AreChanged, AreEntrances, NoneStandsAt, StandsAt, also_behind, also_target, joined_by};
ghost use Rattle.vax_form.specs.Targets.{branch_target, fixed_targets, has};

use std::alloc::{AllocError, Global};
use vax_form::{Instr, Operand, branch_target, call_of, jump_of};

/// From where control comes to an instruction: from behind no other, from behind one alone, or also from elsewhere, since
/// it is a fixed target or stands behind several.
#[derive(Clone, Copy, Debug, PartialEq, Eq)]
pub(crate) enum Entrance {
    Nowhere,
    Behind(usize),
    Elsewhere,
}

impl Entrance {
    /// Where one more instruction ends there, at this place.
    fn also_behind(self, place: usize) -> Entrance
        ensures { result ≡ also_behind place self }
    {
        match self {
            Entrance::Nowhere => Entrance::Behind(place),
            Entrance::Behind(_) | Entrance::Elsewhere => Entrance::Elsewhere,
        }
    }

    /// The place of the instruction to which it is joined.
    pub(crate) fn joined(self) -> Option<usize>
        ensures { result ≡ joined_by self }
    {
        match self {
            Entrance::Behind(place) => Some(place),
            Entrance::Nowhere | Entrance::Elsewhere => None,
        }
    }
}

/// The place of the instruction at an address.
pub(crate) fn place_of(instrs: &[Instr], address: u32) -> Option<usize>
    requires { AreInOrder instrs.now }
    ensures found { IfSome result (StandsAt instrs.now address) }
    ensures none { IfNone result (NoneStandsAt instrs.now address) }
{
    instrs.binary_search_by_key(&address, |instr| instr.at).ok()
}

/// Notes an instruction that ends at the address.
fn note_end(entrances: &mut [Entrance], instrs: &[Instr], address: u32, place: usize)
    requires order { AreInOrder instrs.now }
    requires count { length entrances.old ≡ length instrs.now }
    ensures { AreChanged instrs.now (nat_eq address) (also_behind place) entrances.old entrances.new }
{
    if let Some(next) = place_of(instrs, address) {
        entrances[next] = entrances[next].also_behind(place);
    }
}

/// Notes a fixed target, if there is one.
fn note_target(entrances: &mut [Entrance], instrs: &[Instr], target: Option<u32>)
    requires order { AreInOrder instrs.now }
    requires count { length entrances.old ≡ length instrs.now }
    ensures { AreChanged instrs.now (has (option_to_list target)) also_target entrances.old entrances.new }
{
    let Some(address) = target else {
        return;
    };
    if let Some(place) = place_of(instrs, address) {
        entrances[place] = Entrance::Elsewhere;
    }
}

/// Notes the targets of an instruction's branches.
fn note_branches(entrances: &mut [Entrance], instrs: &[Instr], operands: &[Operand])
    requires order { AreInOrder instrs.now }
    requires count { length entrances.old ≡ length instrs.now }
    ensures { AreChanged instrs.now (has (filter_map branch_target operands.now)) also_target entrances.old entrances.new }
{
    for operand in operands {
        note_target(entrances, instrs, branch_target(operand));
    }
}

/// Notes the fixed targets of an instruction.
fn note_targets(entrances: &mut [Entrance], instrs: &[Instr], instr: &Instr)
    requires order { AreInOrder instrs.now }
    requires count { length entrances.old ≡ length instrs.now }
    ensures { AreChanged instrs.now (has (fixed_targets instr.now)) also_target entrances.old entrances.new }
{
    note_branches(entrances, instrs, &instr.operands);
    note_target(entrances, instrs, jump_of(instr));
    note_target(entrances, instrs, call_of(instr));
}

/// Notes where each instruction ends, and its fixed targets.
fn note_all(entrances: &mut [Entrance], instrs: &[Instr])
    requires order { AreInOrder instrs.now }
    requires start { AreEntrances instrs.now [] entrances.old }
    ensures { AreEntrances instrs.now instrs.now entrances.new }
{
    for (place, instr) in instrs.iter().enumerate() {
        note_end(entrances, instrs, instr.after, place);
        note_targets(entrances, instrs, instr);
    }
}

/// From where control comes to each instruction.
pub(crate) fn entrances(alloc: Global, instrs: &[Instr]) -> Result<Vec<Entrance>, AllocError>
    requires { AreInOrder instrs.now }
    ensures { IfOk result (λ found. AreEntrances instrs.now instrs.now found.items) }
{
    let mut entrances = vec![in alloc; Entrance::Nowhere; instrs.len()]?;
    note_all(&mut entrances, instrs);
    Ok(entrances)
}
