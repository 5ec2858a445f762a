// Jobs that run at the same time, each in a thread of its own.
ghost use Rattle.std.specs.Prelude.{◌≡◌, ◌≤◌, [], IfOk, IfSome, length, vec_capacity};
ghost use Rattle.run_threads.specs.Together.{AllCanRun, HaveRan};

use crate::gathering::Gathering;
use std::alloc::Global;
use std::snapshot::Snapshot;
use std::sync::Wait;
use std::thread;
use std::thread::{Promise, PromisedHandle, Scope, Threads};
use vax_form::WantOfMemory;

/// What a thread does with its job.
pub(crate) trait Runner<J> {
    ghost can_run: { Self → J → Type 0 };

    ghost run_gives: { Self → J → J → Type 0 };

    fn run(&self, job: J) -> J
        requires { can_run self.now job }
        ensures { run_gives self.now job result };
}

// That a thread gives what its runner gives of that job, if it ran.
#[derive(Drop)]
struct Ran<J, T> {
    runner: Snapshot<T>,
    job: Snapshot<J>,
}

impl<J, T: Runner<J>> Promise<Option<J>> for Ran<J, T> {
    ghost kept_by = { λ p r. IfSome r (T.run_gives p.runner.value p.job.value) };
}

// A thread that runs a job.
#[derive(Drop)]
struct JobThread<J, T: Runner<J>> {
    handle: PromisedHandle<Option<J>, Ran<J, T>>,
}

// Makes a thread for each job, which waits until all stand, and joins them in their order. Where one can't be made, none runs its job.
fn start_and_join<'s, E, R: Threads + Wait + Sync, J: Send + Drop + 's, T: Runner<J> + Sync>(
    rt: &'s R,
    scope: &'s Scope<'s, E>,
    gathering: &'s Gathering,
    runner: &'s T,
    jobs: Vec<J>,
    mut threads: Vec<JobThread<J, T>>,
    mut ended: Vec<J>,
) -> Result<Vec<J>, WantOfMemory>
    requires can_run { AllCanRun (T.can_run runner.now) jobs.items }
    requires none { (threads.items ≡ []) × (ended.items ≡ []) }
    requires room { (length jobs.items ≤ vec_capacity threads) × (length jobs.items ≤ vec_capacity ended) }
    ensures { IfOk result (λ after. HaveRan (T.run_gives runner.now) jobs.items after.items (length jobs.items)) }
{
    for job in jobs {
        let ran = Ran {
            runner: Snapshot::of(runner),
            job: Snapshot::of(&job),
        };
        let run = move || -> Option<J>
            requires { T.can_run runner.now job }
            ensures { IfSome result (T.run_gives runner.entry.now job) }
        {
            if gathering.is_complete(rt) {
                Some(runner.run(job))
            } else {
                None
            }
        };
        let Ok(handle) = scope.spawn_with(ran, run) else {
            gathering.tell(rt, false);
            return Err(WantOfMemory);
        };
        threads.push_reserved(JobThread { handle });
    }
    gathering.tell(rt, true);
    for thread in threads {
        let JobThread { handle } = thread;
        let Some(job) = handle.join(rt) else {
            return Err(WantOfMemory);
        };
        ended.push_reserved(job);
    }
    Ok(ended)
}

/// Runs all jobs at the same time, each in a thread of its own. All threads stand before any of them runs; an error is want of
/// memory, or a thread that the system does not make, and then none has run.
pub(crate) fn run_all<R: Threads + Wait + Sync, J: Send + Drop, T: Runner<J> + Sync>(
    rt: &R,
    alloc: Global,
    runner: &T,
    jobs: Vec<J>,
) -> Result<Vec<J>, WantOfMemory>
    requires { AllCanRun (T.can_run runner.now) jobs.items }
    ensures { IfOk result (λ after. HaveRan (T.run_gives runner.now) jobs.items after.items (length jobs.items)) }
{
    let threads = Vec::with_capacity(alloc, jobs.len())?;
    let ended = Vec::with_capacity(alloc, jobs.len())?;
    let gathering = Gathering::new();
    let gathering = &gathering;
    thread::scope(
        thread::scope_env(),
        rt,
        move |scope| -> Result<Vec<J>, WantOfMemory>
            requires { AllCanRun (T.can_run runner.now) jobs.items
                × (threads.items ≡ []) × (ended.items ≡ [])
                × (length jobs.items ≤ vec_capacity threads) × (length jobs.items ≤ vec_capacity ended) }
            ensures { IfOk result (λ after. HaveRan (T.run_gives runner.entry.now) jobs.items after.items (length jobs.items)) }
        { start_and_join(rt, scope, gathering, runner, jobs, threads, ended) },
    )
}
