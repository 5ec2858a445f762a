//! Laws of what instructions do, for the proofs of the crates above. Their functions do nothing.
ghost use Rattle.vax_form.specs.GrammarLaws.{AreBytes};
ghost use Rattle.image_meaning.specs.CodeUses.{CodesAreUsed, CodesReadHaveEffect, EndsGoElsewhere};
ghost use Rattle.image_meaning.specs.Permits.{AnyPermitAllowsFew, MeetsAnyPermit, PermitsAllowFew};
ghost use Rattle.image_meaning.specs.Laws.{TreeAtStaysInRange, MomentsStayInRange, TreeAtFailsByFaults, ServicesAre, CodesWrittenAreTheOperations, VaxMeaningIsSound};

use vax_form::Pages;

/// From every state in range of a thread below 256, what stands at the PC makes references within one aligned quadword
/// alone, each in a page that allows it and of a value that fits its bytes; once it wrote it checks nothing with write
/// intent; and for all replies that its references can get each end is a state in range.
#[tactic(auto, using(crate::proofs::TreesAt::tree_at_stays_in_range))]
pub fn tree_at_stays_in_range()
    ensures { TreeAtStaysInRange }
{}

/// So does what the thread does at such a state, be it its instruction, a delivery or a resumption.
#[tactic(auto, using(crate::proofs::Moments::moments_stay_in_range))]
pub fn moments_stay_in_range()
    ensures { MomentsStayInRange }
{}

/// No instruction fails with an arithmetic exception: that is a trap's.
#[tactic(auto, using(crate::proofs::TreesAt::tree_at_fails_by_faults))]
pub fn tree_at_fails_by_faults()
    ensures { TreeAtFailsByFaults }
{}

/// What CHMK does by its code is the service.
#[tactic(auto, using(crate::proofs::Services::services_are))]
pub fn services_are()
    ensures { ServicesAre }
{}

/// The opcode at an instruction's address tells what the instruction writes of the codes.
#[tactic(auto, using(crate::proofs::Written::codes_written_are_the_operations))]
pub fn codes_written_are_the_operations()
    ensures { CodesWrittenAreTheOperations }
{}

/// The meaning of the VAX instructions is sound. `page_table_has_bytes` gives what it asks of the pages.
#[tactic(auto, using(crate::proofs::Meanings::vax_meaning_is_sound))]
pub fn vax_meaning_is_sound()
    ensures { VaxMeaningIsSound }
{}

/// An access allows at most as many steps more as a block may take; and code that meets what it may do on the processors
/// that it is made for meets what it may do on any.
pub fn permits()
    ensures few { PermitsAllowFew }
    ensures any_few { AnyPermitAllowsFew }
    ensures meets { MeetsAnyPermit }
{}

/// The code of a page table has bytes alone.
pub fn page_table_has_bytes(pages: &Pages)
    ensures { AreBytes pages.now.code }
{
    code_has_bytes(pages.code.as_slice());
}

fn code_has_bytes(code: &[u8])
    ensures { AreBytes code.now }
{}

/// From two states that differ in condition codes alone, and have those that an instruction reads in common, it makes the
/// same checks and references, fails and ends alike, and leaves states that differ in the codes alone that it does not
/// write: these are as each found them. Where it does not end, it goes on behind it.
#[tactic(auto, using(crate::proofs::CodesUsed::codes_are_used))]
pub fn codes_are_used()
    ensures { CodesAreUsed }
{}

/// No instruction is said to read a code that has no effect: from some two states that differ in that code alone it does
/// not do the same.
#[tactic(auto, using(crate::proofs::CodesRead::codes_read_have_effect))]
pub fn codes_read_have_effect()
    ensures { CodesReadHaveEffect }
{}

/// No instruction is said to end that always goes on behind itself.
#[tactic(auto, using(crate::proofs::Elsewhere::ends_go_elsewhere))]
pub fn ends_go_elsewhere()
    ensures { EndsGoElsewhere }
{}
