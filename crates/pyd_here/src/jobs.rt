//! The jobs that are kept from their claims on.
ghost use Rattle.std.specs.Prelude.{◌≡◌, Some};
ghost use Rattle.std.specs.List.{slice_get};
ghost use Rattle.pyd_here.specs.Jobs as spec;

use pyd_ir::Job;

/// Takes out the job of an attempt of a node, which is among them.
pub(crate) fn take_job(jobs: &mut Vec<Job>, node: u64, attempt: u64) -> Job
    requires { spec.HasJob jobs.old.items node attempt }
    ensures { spec.TakesOut jobs.old.items jobs.new.items node attempt result }
{
    let place = place_of(jobs.as_slice(), node, attempt);
    jobs.remove(place)
}

/// The place of the first job of an attempt of a node.
fn place_of(jobs: &[Job], node: u64, attempt: u64) -> usize
    requires { spec.HasJob jobs.now node attempt }
    ensures { spec.IsPlaceOf jobs.now node attempt result }
{
    for (place, job) in jobs.iter().enumerate() {
        if job.node == node && job.attempt == attempt {
            return place;
        }
    }
    jobs.len()
}
