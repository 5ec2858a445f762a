//! The theorem of one history and the law of legal histories, for the crates above. Its functions do nothing.
ghost use Rattle.std.specs.Prelude.{◌≡◌, slice_index};
ghost use Rattle.image_file.specs.Memory.{byte_in};
ghost use Rattle.image_file.specs.Whole.{IsWhole};
ghost use Rattle.memory_core.specs.declared.entry.SetUp.{SetUp};
ghost use Rattle.vax_form.specs.References.{AreBytes};
ghost use Rattle.legal_history.specs.Law.{IsRun, LegalHasHeadline};
ghost use Rattle.legal_history.specs.OneHistory.{OneHistory};
ghost use Rattle.legal_history.specs.OneProcessor.{ReachedIsSteady};

use image_file::Image;

/// Where entries meet the memory order and each thread's are as the thread wants them, the threads driven by their order
/// make their references, and have their memory, output and replies.
#[tactic(auto, using(crate::proofs::Histories::one_history))]
pub fn one_history()
    ensures { OneHistory }
{}

/// Whatever the interleaving, and whatever is translated and what interpreted: the threads driven by the history's order
/// have its memory and output, each processor shows its thread's exact state at its last boundary, each end is the
/// thread's, and no processor is stuck.
pub fn legal_has_headline()
    ensures { LegalHasHeadline }
{}

/// One processor alone, whatever the others do: it has a step, memory can make it if it asks, and few are behind it.
#[tactic(auto, using(crate::proofs::Headlines::reached_is_steady))]
pub fn reached_is_steady()
    ensures { ReachedIsSteady }
{}

/// Whatever is set up with a whole image and an input, of any limit and miss number, is in range: so the law of legal
/// histories may be used of it.
pub fn images_are_runs(image: &Image, input: &[u8])
    requires { IsWhole image.now }
    ensures { (set_up : SetUp) → set_up.image ≡ image.now → set_up.input ≡ input.now → IsRun set_up }
{
    image_has_bytes(image);
}

// An image has a byte at each address.
fn image_has_bytes(image: &Image)
    ensures { AreBytes (byte_in image.now) }
{
    for section in &image.sections {
        stores_bytes(section.stored.as_slice());
    }
}

fn stores_bytes(stored: &[u8])
    ensures { AreBytes (slice_index stored.now) }
{}
