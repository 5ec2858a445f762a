// Passes: each job is given one, and they are joined in the order of the jobs.
ghost use Rattle.std.specs.Prelude.{◌≡◌, ◌≤◌, [], length, vec_capacity};
ghost use Rattle.shared_memory.specs.Passes.{set_up_of, processors_of, given_of, ended_of, IsKeeperOf, IsNew};
ghost use Rattle.run_threads.specs.Jobs.{AllHavePasses, HasSplit, HasJoined};

use crate::job::Job;
use image_file::Image;
use shared_memory::{Pass, SharedMemory};
use tie_switch::Processor;

/// A job for each thread of the image.
pub(crate) fn split_all(
    memory: &SharedMemory,
    keeper: &mut Pass,
    image: &Image,
    count: u8,
    budget: u64,
    mut jobs: Vec<Job>,
) -> Vec<Job>
    requires keeper { IsKeeperOf memory.now keeper.old × IsNew keeper.old }
    requires image { (set_up_of memory.now).image ≡ image.now }
    requires count { length image.now.threads ≡ count }
    requires processors { processors_of memory.now ≡ count }
    requires room { count ≤ vec_capacity jobs }
    requires empty { jobs.items ≡ [] }
    ensures { HasSplit memory.now keeper.new budget result.items count }
{
    for number in 0..count {
        let processor = Processor::new(number, &image.threads[usize::from(number)], budget);
        let pass = memory.split(keeper, number);
        jobs.push_reserved(Job { processor, pass });
    }
    jobs
}

/// Joins the passes of all jobs, and gives their processors.
pub(crate) fn join_all(
    memory: &SharedMemory,
    keeper: &mut Pass,
    jobs: Vec<Job>,
    ended: &mut Vec<Processor>,
)
    requires keeper { IsKeeperOf memory.now keeper.old × (ended_of keeper.old ≡ []) }
    requires passes { AllHavePasses memory.now jobs.items }
    requires empty { ended.old.items ≡ [] }
    requires room { length jobs.items ≤ vec_capacity ended.old }
    ensures { HasJoined memory.now (given_of keeper.old) keeper.new jobs.items ended.new.items (length jobs.items) }
{
    for job in jobs {
        let Job { processor, pass } = job;
        memory.join(keeper, pass);
        ended.push_reserved(processor);
    }
}
