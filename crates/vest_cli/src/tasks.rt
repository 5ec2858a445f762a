// What `run` runs.
ghost use Rattle.std.specs.Prelude.{◌≡◌, IfOk, IfErr, map};
ghost use Rattle.command_words.specs.Answers.{options_value};
ghost use Rattle.vest_stops.specs.Decided.{Decision, IsDecided};
ghost use Rattle.vest_stops.specs.Files.{SameFiles};
ghost use Rattle.vest_cli.specs.Run.{DecidesRun, IsTask, StopsRun, range_of, target_of};
ghost use Rattle.vest_cli.specs.Waiting.{IsToRun};
ghost use Rattle.vest_cli.specs.Words.{AreBounded};

use crate::execute::Task;
use crate::storing::order_file;
use crate::waiting::{Puts, Waiting};
use command_words::RunOptions;
use exact_lists::list_of;
use std::alloc::Global;
use system_model::Range;
use translate::Target;
use vax_form::WantOfMemory;
use vest_files::load;
use vest_runs::read_input;
use vest_stops::Stop;
use vt_outside::{Desk, Source};

// The addresses that threads interpret, of the words.
pub(crate) fn ranges_of(
    alloc: Global,
    ranges: &[command_words::Range],
) -> Result<Vec<Range>, WantOfMemory>
    ensures { IfOk result (λ v. v.items ≡ map range_of ranges.now) }
{
    list_of(
        alloc,
        ranges.len(),
        ranges.iter().map(|range| range_of(*range)),
    )
}

fn range_of(range: command_words::Range) -> Range
    ensures { result ≡ range_of range }
{
    Range {
        thread: range.thread,
        first: range.first,
        last: range.last,
    }
}

// The target that is asked for, of the words.
pub(crate) fn target_of(target: command_words::Target) -> Target
    ensures { result ≡ target_of target }
{
    match target {
        command_words::Target::Original => Target::Original,
        command_words::Target::ByteWord => Target::ByteWord,
    }
}

// The file's image with its translation, on all the input.
fn task_of<D: Desk, I: Source>(
    alloc: Global,
    name: &str,
    options: &RunOptions<'_>,
    desk: &mut D,
    input: &mut I,
) -> Result<Task, Stop>
    ensures task { IfOk result (IsTask name.now (options_value options.now) (D.meaning desk.old).files (I.meaning input.old) (I.meaning input.new)) }
    ensures why { IfErr result (λ stop. StopsRun stop (target_of options.now.target) name.now
        (D.meaning desk.old) (D.meaning desk.new) (I.meaning input.old) (I.meaning input.new)) }
    ensures desk { SameFiles (D.meaning desk.old) (D.meaning desk.new) }
    ensures decided { (decision : Decision) → DecidesRun (D.meaning desk.old).files name.now (I.meaning input.old).left decision
        → IsDecided result decision }
{
    let ranges = ranges_of(alloc, &options.ranges)?;
    let loaded = load(alloc, desk, name, target_of(options.target))?;
    let taken = read_input(alloc, input)?;
    Ok(Task {
        loaded,
        taken,
        limits: options.limits,
        ranges,
    })
}

// A run of it that is yet to be made, with room for the file of its order where the options name one.
pub(crate) fn waiting_of<D: Desk, I: Source>(
    alloc: Global,
    name: &str,
    options: &RunOptions<'_>,
    desk: &mut D,
    input: &mut I,
) -> Result<Waiting, Stop>
    requires { AreBounded (options_value options.now) }
    ensures waiting { IfOk result (IsToRun name.now (options_value options.now) (D.meaning desk.old).files (I.meaning input.old) (I.meaning input.new)) }
    ensures why { IfErr result (λ stop. StopsRun stop (target_of options.now.target) name.now
        (D.meaning desk.old) (D.meaning desk.new) (I.meaning input.old) (I.meaning input.new)) }
    ensures desk { SameFiles (D.meaning desk.old) (D.meaning desk.new) }
    ensures decided { (decision : Decision) → DecidesRun (D.meaning desk.old).files name.now (I.meaning input.old).left decision
        → IsDecided result decision }
{
    let task = task_of(alloc, name, options, desk, input)?;
    let order = order_file(alloc, &task, options)?;
    Ok(Waiting {
        task,
        puts: Puts::Output,
        order,
    })
}
