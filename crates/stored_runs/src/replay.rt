//! What a stored order gives of an image.
ghost use Rattle.std.specs.Prelude.{length, IfOk};
ghost use Rattle.image_file.specs.Whole.{IsWhole};
ghost use Rattle.run_files.specs.Fits.{Fits};
ghost use Rattle.stored_runs.specs.Marks.{mark_of};
ghost use Rattle.stored_runs.specs.Replay.{replay_of, Gives};
ghost use Rattle.stored_runs.specs.Stood.{AreMarksOf};

use crate::course::Course;
use crate::ends::{Replayed, ends_of};
use crate::marks::Marks;
use crate::refusal::ReplayRefusal;
use crate::world::World;
use image_file::Image;
use run_files::OrderFile;
use std::alloc::Global;

/// What a replayed order gave, and the marks of the addresses at which its threads retired.
#[derive(Drop)]
pub(crate) struct Trail {
    pub(crate) replayed: Replayed,
    pub(crate) marks: Marks,
}

/// Drives the threads of an image by a stored order, and marks where they retired.
#[tactic(auto, unfolding(crate::specs::Replay::replay_of))]
pub(crate) fn walked(
    alloc: Global,
    image: &Image,
    order: &OrderFile,
) -> Result<Trail, ReplayRefusal>
    requires whole { IsWhole image.now }
    requires fits { Fits (length image.now.threads) order.now }
    ensures gives { Gives (λ trail. trail.replayed) result (replay_of image.now order.now) }
    ensures marks { IfOk result (λ trail. AreMarksOf image.now order.now (mark_of trail.marks)) }
{
    let mut course = Course::new(alloc, &image.pages)?;
    let mut world = World::new(alloc, image, &order.counts)?;
    if !world.walk(alloc, image, &mut course, &order.input, &order.picks)? {
        return Err(ReplayRefusal::NotDriven);
    }
    let Some(runs) = world.runs(alloc, image, &mut course)? else {
        return Err(ReplayRefusal::NotDriven);
    };
    let ends = ends_of(alloc, &runs, order)?;
    let output = world.output();
    let Course { marks, .. } = course;
    Ok(Trail {
        replayed: Replayed { output, ends },
        marks,
    })
}

/// Drives the threads of an image by a stored order: its picks on its input, and each thread up to its count. No references
/// are kept.
pub fn replayed(alloc: Global, image: &Image, order: &OrderFile) -> Result<Replayed, ReplayRefusal>
    requires whole { IsWhole image.now }
    requires fits { Fits (length image.now.threads) order.now }
    ensures { Gives (λ r. r) result (replay_of image.now order.now) }
{
    match walked(alloc, image, order) {
        Ok(Trail { replayed, .. }) => Ok(replayed),
        Err(refusal) => Err(refusal),
    }
}
