ghost use Rattle.std.specs.Prelude.{◌≡◌, ℕ, ◌+◌, ◌<◌, ◌≤◌, Some, None, IfOk, IfErr, length, vec_len, vec_capacity};
ghost use Rattle.std.specs.List.{HoldsAt};
ghost use Rattle.std.specs.List.Sorted.{IsPartitionPoint};
ghost use Rattle.std.specs.Ordering.{nat_cmp};
ghost use Rattle.std.specs.declared.cmp.Ordering.TheVariants.{Less, Greater};
ghost use Rattle.plan_store_lists.specs.Rows.{look_up};
ghost use Rattle.plan_store.specs.Changes.{jobs_after};
ghost use Rattle.plan_store.specs.Jobs.{AreJobs};
ghost use Rattle.planner_machine.specs.declared.job.Job.{Job as JobValue};

use planner_machine::Job;

// The place of the job of the number, or the place where it would be inserted.
pub(crate) fn find_job(jobs: &[Job], number: u64) -> Result<usize, usize>
    ensures taken { IfOk result (λ i. (i < length jobs.now)
        × HoldsAt (λ (kept : JobValue). kept.number ≡ number) jobs.now i) }
    ensures free { AreJobs jobs.now → IfErr result (λ i. (i ≤ length jobs.now)
        × IsPartitionPoint (λ (kept : JobValue). nat_cmp kept.number number ≡ Less)
        (λ (kept : JobValue). nat_cmp kept.number number ≡ Greater) jobs.now i) }
{
    jobs.binary_search_by_key(&number, |kept| kept.number)
}

// Keeps a job of a new number. There is room for it.
fn insert_job(jobs: &mut Vec<Job>, job: Job)
    requires numbered { AreJobs jobs.old.items }
    requires new { look_up (λ (kept : JobValue). kept.number) jobs.old.items job.number ≡ None }
    requires room { vec_len jobs.old + 1 ≤ vec_capacity jobs.old }
    ensures numbered { AreJobs jobs.new.items }
    ensures kept { (number : ℕ) → look_up (λ (kept : JobValue). kept.number) jobs.new.items number
        ≡ jobs_after (Some job) (look_up (λ (kept : JobValue). kept.number)
        jobs.old.items) number }
{
    match find_job(jobs, job.number) {
        Ok(_at) => {}
        Err(at) => {
            let _ = jobs.insert(at, job);
        }
    }
}

// Keeps the job, if there is one. Its number is new, and there is room for it.
pub(crate) fn keep_job(jobs: &mut Vec<Job>, job: Option<Job>)
    requires numbered { AreJobs jobs.old.items }
    requires new { (new : JobValue) → job ≡ Some new
        → look_up (λ (kept : JobValue). kept.number) jobs.old.items new.number ≡ None }
    requires room { vec_len jobs.old + 1 ≤ vec_capacity jobs.old }
    ensures numbered { AreJobs jobs.new.items }
    ensures kept { (number : ℕ) → look_up (λ (kept : JobValue). kept.number) jobs.new.items number
        ≡ jobs_after job (look_up (λ (kept : JobValue). kept.number) jobs.old.items) number }
{
    if let Some(job) = job {
        insert_job(jobs, job);
    }
}
