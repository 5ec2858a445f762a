// What holds of runs, of the codes along them, and of the sources and rules of every operation.
ghost use Rattle.code_runs.specs.Promises.{EachInOneRun, RulesAlwaysMeet};
ghost use Rattle.code_runs.specs.Ready.{SourcesAreWritten, LiveAreReady, RunsAreReady};

/// Each instruction is in one run alone. Where control leaves a run all codes are ready, and along it each instruction finds
/// the rules that the one before leaves.
pub fn run_laws()
    ensures runs { EachInOneRun }
    ensures rules { RulesAlwaysMeet }
{}

/// An operation for which there can be a block writes the codes that have a source. A code that is live behind it is ready
/// there, if those that are wanted before it are ready before. So along a run of such instructions, before which all codes
/// are ready, the live codes are.
pub fn rule_laws()
    ensures sources { SourcesAreWritten }
    ensures ready { LiveAreReady }
    ensures runs { RunsAreReady }
{}
