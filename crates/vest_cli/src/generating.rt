// The command `generate`.
ghost use Rattle.std.specs.Prelude.{◌≡◌, ◌≤◌, IfOk, IfErr, []};
ghost use Rattle.report_text.specs.Generated.{generated_image};
ghost use Rattle.image_meaning.specs.declared.target.Target.TheVariants.{Original};
ghost use Rattle.translate.specs.Translated.{IsTranslated};
ghost use Rattle.vest_cli.specs.Generate.{Generates};
ghost use Rattle.vest_cli.specs.Waiting.{HaltsGenerate, IsGenerated, WaitsReady};
ghost use Rattle.vest_runs.specs.Kept.{nothing_kept};

use crate::execute::Task;
use crate::halt::Halt;
use crate::waiting::{Puts, Waiting, run_or_wait};
use command_words::DEFAULT_LIMITS;
use generated_flow::reaches_few;
use image_file::Image;
use report_text::{MOST_GROUPS, generated};
use std::alloc::Global;
use system_model::Translation;
use translate::{Target, TranslateRefusal, translate};
use vax_form::WantOfMemory;
use vest_files::Loaded;
use vest_runs::Kept;
use vest_stops::Done;
use vt_outside::{Desk, Sink};

// The translation of the number's image, whose flow is never refused.
fn translated(alloc: Global, number: u32, image: &Image) -> Result<Translation, WantOfMemory>
    requires few { number ≤ MOST_GROUPS }
    requires image { image.now ≡ generated_image number }
    ensures { IfOk result (IsTranslated Original image.now []) }
{
    reaches_few();
    match translate(alloc, image, &[], Target::Original) {
        Ok(translation) => Ok(translation),
        Err(TranslateRefusal::WantOfMemory) => Err(WantOfMemory),
        Err(TranslateRefusal::Flow { .. }) => unreachable!(),
    }
}

// What `generate` runs: the number's image with its translation, without input, within the default limits.
fn task_of(alloc: Global, number: u32) -> Result<Task, WantOfMemory>
    requires { number ≤ MOST_GROUPS }
    ensures { IfOk result (IsGenerated number) }
{
    let image = generated(alloc, number)?;
    let translation = translated(alloc, number, &image)?;
    Ok(Task {
        loaded: Loaded {
            image,
            target: Target::Original,
            translation,
            hints: Vec::new(alloc),
        },
        taken: Vec::new(alloc),
        limits: DEFAULT_LIMITS,
        ranges: Vec::new(alloc),
    })
}

/// Runs the image that is generated for a number, at most 32,000, without input, within the default limits; lines on the image
/// and on what the run left go out in the place of its output. An image of several threads waits for them. It stops only for want of
/// memory: then the sinks are as they were, and nothing is kept. From the first step on it takes no memory. The desk is never touched.
pub(crate) fn generate<D: Desk, K: Sink, E: Sink>(
    alloc: Global,
    number: u32,
    desk: &mut D,
    out: &mut K,
    report: &mut E,
    kept: &mut Kept,
) -> Result<Done, Halt>
    requires few { number ≤ MOST_GROUPS }
    requires nothing { kept.old ≡ nothing_kept }
    ensures does { IfOk result (λ done. Generates done number (K.meaning out.old) (K.meaning out.new) (E.meaning report.old) (E.meaning report.new) kept.new) }
    ensures why { IfErr result (λ halt. HaltsGenerate halt number) }
    ensures ready { IfErr result WaitsReady }
    ensures unsent { IfErr result (λ _. K.meaning out.new ≡ K.meaning out.old) }
    ensures unsaid { IfErr result (λ _. E.meaning report.new ≡ E.meaning report.old) }
    ensures desk { D.meaning desk.new ≡ D.meaning desk.old }
    ensures unkept { IfErr result (λ _. kept.new ≡ nothing_kept) }
{
    let task = task_of(alloc, number)?;
    let waiting = Waiting {
        task,
        puts: Puts::Lines(number),
        order: None,
    };
    run_or_wait(alloc, waiting, desk, out, report, kept)
}
