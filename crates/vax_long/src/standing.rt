// Laws of the tree of what stands at an address.
ghost use Rattle.vax_long.specs.TreeAt.{ShortStands, LongStands, ReservedStands, BadModeStands, PastStands};

/// The tree of what stands at a PC: that of an instruction, long or not, or the fault where there is none.
#[tactic(auto, using(crate::proofs::TreesAt::short_stands, crate::proofs::TreesAt::long_stands, crate::proofs::TreesAt::reserved_stands, crate::proofs::TreesAt::bad_mode_stands, crate::proofs::TreesAt::past_stands))]
pub fn laws_of_tree_at()
    ensures short { ShortStands }
    ensures long { LongStands }
    ensures reserved { ReservedStands }
    ensures bad_mode { BadModeStands }
    ensures past { PastStands }
{}
