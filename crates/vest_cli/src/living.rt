// The command `run --live`.
ghost use Rattle.std.specs.Prelude.{◌≡◌, ◌≤◌, IfOk, IfErr, length, map};
ghost use Rattle.command_words.specs.Answers.{live_options_value};
ghost use Rattle.image_file.specs.Whole.{IsWhole};
ghost use Rattle.block_law.specs.Translations.{Meets};
ghost use Rattle.image_meaning.specs.Meant.{image_meaning};
ghost use Rattle.image_meaning.specs.Permits.{permit_of};
ghost use Rattle.vest_stops.specs.Decided.{Decision, IsDecided};
ghost use Rattle.vest_stops.specs.Files.{SameFiles};
ghost use Rattle.vest_cli.specs.Lent.{lent};
ghost use Rattle.vest_cli.specs.Live.{Closes, DecidesLive, HasTold, IsLiveTask, Lives, RefusesThreads, StopsLive, kept_of};
ghost use Rattle.vest_files.specs.Stages.{StopsWhere};
ghost use Rattle.vest_cli.specs.Run.{target_of};
ghost use Rattle.vest_cli.specs.Words.{IsBounded};
ghost use Rattle.tie_switch.specs.Processors.{processor_of};

use crate::tasks::{ranges_of, target_of};
use command_words::LiveOptions;
use image_file::Image;
use image_meaning::laws::{page_table_has_bytes, permits, vax_meaning_is_sound};
use legal_history::laws::legal_has_headline;
use memory_core::LiveState;
use report_text::Subject;
use std::alloc::Global;
use system_model::Range;
use tie_switch::{Processor, made_ready};
use vax_form::WantOfMemory;
use vest_core::{LiveWorld, TalkEnd};
use vest_files::{Loaded, load};
use vest_runs::{Kept, keep_live, report_ends};
use vest_stops::{Done, Refusal, Stop};
use vt_outside::{Desk, Sink, Source, write_all};

/// The most bytes of output that are gathered.
const BUFFER: u32 = 4096;

/// What is to be talked with: an image of one thread with its translation, the most steps, the miss number, the addresses that
/// the thread interprets, and after how many steps more a line tells how far it has come.
#[derive(Drop)]
pub(crate) struct LiveTask {
    pub loaded: Loaded,
    pub budget: u64,
    pub miss: u16,
    pub ranges: Vec<Range>,
    pub progress: Option<u64>,
}

// What a talk leaves: the memory, the processor, and how it ended.
#[derive(Drop)]
struct Told {
    memory: LiveState,
    processors: Vec<Processor>,
    end: TalkEnd,
}

// Whether an image can be talked with: it has one thread.
fn only_thread(image: &Image) -> Result<(), Stop>
    ensures alone { IfOk result (λ _. length image.now.threads ≡ 1) }
    ensures why { IfErr result (StopsWhere (RefusesThreads image.now)) }
{
    let count = image.threads.len();
    if count == 1 {
        return Ok(());
    }
    Err(Stop::Refused(Refusal::new(Subject::Live, &[1, count as u64])))
}

// The file's image, which has one thread, with its translation.
fn live_task_of<D: Desk>(
    alloc: Global,
    name: &str,
    options: &LiveOptions,
    desk: &mut D,
) -> Result<LiveTask, Stop>
    ensures task { IfOk result (IsLiveTask name.now (live_options_value options.now) (D.meaning desk.old).files) }
    ensures why { IfErr result (λ stop. StopsLive stop (target_of options.now.target) name.now (D.meaning desk.old) (D.meaning desk.new)) }
    ensures desk { SameFiles (D.meaning desk.old) (D.meaning desk.new) }
    ensures decided { (decision : Decision) → DecidesLive (D.meaning desk.old).files name.now decision → IsDecided result decision }
{
    let ranges = ranges_of(alloc, &options.ranges)?;
    let loaded = load(alloc, desk, name, target_of(options.target))?;
    only_thread(&loaded.image)?;
    Ok(LiveTask {
        loaded,
        budget: options.budget,
        miss: options.miss,
        ranges,
        progress: options.progress,
    })
}

// Takes all that the talk needs, and talks: from the first step on it takes no memory.
fn talk<I: Source, K: Sink, E: Sink>(
    alloc: Global,
    task: &LiveTask,
    input: &mut I,
    out: &mut K,
    report: &mut E,
) -> Result<Told, WantOfMemory>
    requires alone { length task.now.loaded.image.threads ≡ 1 }
    requires whole { IsWhole task.now.loaded.image }
    requires meets { Meets (image_meaning task.now.loaded.image.pages) (permit_of task.now.loaded.target task.now.loaded.image.pages) task.now.loaded.translation }
    requires few { task.now.budget ≤ 1000000000000 }
    ensures told { IfOk result (λ told. HasTold task.now told (I.meaning input.old) (I.meaning input.new) (K.meaning out.old) (K.meaning out.new) (E.meaning report.old) (E.meaning report.new)) }
    ensures unasked { IfErr result (λ _. I.meaning input.new ≡ I.meaning input.old) }
    ensures unsent { IfErr result (λ _. K.meaning out.new ≡ K.meaning out.old) }
    ensures unsaid { IfErr result (λ _. E.meaning report.new ≡ E.meaning report.old) }
{
    let Loaded {
        image,
        translation,
        ..
    } = &task.loaded;
    page_table_has_bytes(&image.pages);
    vax_meaning_is_sound();
    permits();
    legal_has_headline();
    let prepared = made_ready(alloc, image, translation)?;
    let mut processors = Vec::with_capacity(alloc, 1)?;
    let mut world = LiveWorld::new(alloc, image, task.budget, BUFFER, task.miss)?;
    let end = world.talk(
        image,
        translation,
        &prepared,
        &task.ranges,
        input,
        out,
        task.progress,
        report,
    );
    let (memory, processor) = world.apart();
    processors.push_reserved(processor);
    Ok(Told {
        memory,
        processors,
        end,
    })
}

// What the report takes behind a talk.
fn close<E: Sink>(end: TalkEnd, processors: &[Processor], report: &mut E) -> Done
    ensures { Closes end result (map processor_of processors.now) (E.meaning report.old) (E.meaning report.new) }
{
    match end {
        TalkEnd::Ended => report_ends(processors, report),
        TalkEnd::ReadFault => {
            let line = Stop::ReadFault.line();
            let _ = write_all(report, line.as_slice());
            Done::ReadFault
        }
        TalkEnd::WriteFault | TalkEnd::ReportFault => Done::WriteFault,
    }
}

// Keeps what was talked with.
fn keep_told(alloc: Global, task: LiveTask, told: Told, kept: &mut Kept)
    ensures { kept.new ≡ kept_of task told }
{
    let Told {
        memory,
        processors,
        ..
    } = told;
    let LiveTask {
        loaded,
        budget,
        miss,
        ranges,
        ..
    } = task;
    keep_live(
        alloc,
        loaded.image,
        loaded.translation,
        budget,
        miss,
        ranges,
        memory,
        processors,
        kept,
    );
}

/// Runs the image of a file, which has one thread, and talks with it, by the options: at most so many steps, by the miss number; it
/// interprets its ranges of addresses; a VAX image is translated for their target. It asks the input for a byte where the thread
/// asks for one, and not before. It stops at the file, at its translation, at the number of threads, or for want of memory: then input
/// and sinks are as they were, and nothing is kept. From the first step on it takes no memory; where a read or a write fails then, the run
/// is kept as it stands.
pub(crate) fn live<D: Desk, I: Source, K: Sink, E: Sink>(
    alloc: Global,
    name: &str,
    options: &LiveOptions,
    desk: &mut D,
    input: &mut I,
    out: &mut K,
    report: &mut E,
    kept: &mut Kept,
) -> Result<Done, Stop>
    requires few { IsBounded (live_options_value options.now) }
    ensures lives { IfOk result (λ done. Lives done name.now (live_options_value options.now)
        (lent (D.meaning desk.old) (I.meaning input.old) (K.meaning out.old) (E.meaning report.old))
        (lent (D.meaning desk.new) (I.meaning input.new) (K.meaning out.new) (E.meaning report.new))
        kept.new) }
    ensures why { IfErr result (λ stop. StopsLive stop (target_of options.now.target) name.now (D.meaning desk.old) (D.meaning desk.new)) }
    ensures stays { SameFiles (D.meaning desk.old) (D.meaning desk.new) }
    ensures unasked { IfErr result (λ _. I.meaning input.new ≡ I.meaning input.old) }
    ensures unsent { IfErr result (λ _. K.meaning out.new ≡ K.meaning out.old) }
    ensures unsaid { IfErr result (λ _. E.meaning report.new ≡ E.meaning report.old) }
    ensures unkept { IfErr result (λ _. kept.new ≡ kept.old) }
    ensures decided { (decision : Decision) → DecidesLive (D.meaning desk.old).files name.now decision → IsDecided result decision }
{
    let task = live_task_of(alloc, name, options, desk)?;
    let told = talk(alloc, &task, input, out, report)?;
    let done = close(told.end, &told.processors, report);
    keep_told(alloc, task, told, kept);
    Ok(done)
}
