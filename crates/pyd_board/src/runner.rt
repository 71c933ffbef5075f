//! What does the jobs of a board.
ghost use Rattle.std.specs.Prelude.{◌≡◌, ℕ, List, Some, IfOk, IfErr, slice_get};
ghost use Rattle.pyd_tree.specs.declared.file.File.{File as Tree};
ghost use Rattle.pyd_board.specs.Serving.{Basis, Serves, file_at};

use pyd_tree::File;
use pyd_value::NoMemory;

/// What answers a job of type `J`. It has no calls: a board and a runner speak of an answer by these
/// meanings alone.
pub trait Answer<J> {
    /// The run of a job, counted from 0.
    ghost run: { J → ℕ };

    /// The job can be done under this file.
    ghost fits: { J → Tree → Type 0 };

    /// The job that it answers.
    ghost job: { Self → J };

    /// The file and the limits under which it does.
    ghost basis: { Self → Basis };
}

/// What does jobs, each under the file and the limits of the job's run.
pub trait Runner {
    type Job;

    type Done: Answer<Self::Job>;

    /// The files and limits for which its answers are right, run after run.
    ghost bases: { Self → List Basis };

    /// The file of the job's run. Takes no memory.
    fn file(&self, job: &Self::Job) -> &File
        requires serves { Serves (bases self.now) (Self.Done.run job.now) (Self.Done.fits job.now) }
        ensures value { file_at (bases self.now) (Self.Done.run job.now) ≡ Some result.now };

    /// An answer of this job under the file and the limits of its run. Hands the job back where there
    /// is no memory.
    fn run(&self, job: Self::Job) -> Result<Self::Done, (Self::Job, NoMemory)>
        requires serves { Serves (bases self.now) (Self.Done.run job) (Self.Done.fits job) }
        ensures ok { IfOk result (λ done. Self.Done.job done ≡ job) }
        ensures basis { IfOk result (λ done.
            slice_get (bases self.now) (Self.Done.run job) ≡ Some (Self.Done.basis done)) }
        ensures returned { IfErr result (λ e. e.0 ≡ job) };
}
