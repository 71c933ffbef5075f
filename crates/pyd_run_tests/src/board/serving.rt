//! A runner of one run, and what it answers.
ghost use Rattle.std.specs.Prelude.{◌≡◌, ◌∷◌, [], ℕ, List, Some, IfOk, IfErr, slice_get};
ghost use Rattle.pyd_board.specs.Serving.{Serves, file_at};

use pyd_board::{Answer, Runner};
use pyd_tree::File;
use pyd_value::{List as Items, NoMemory};
use std::snapshot::Snapshot;
use std::test::Fail;

/// The number of a job of run 0, and the file and limits under which it was answered.
#[derive(Drop)]
struct Reply {
    job: u64,
    file: Snapshot<File>,
    turns: u64,
    depth: u32,
}

impl Answer<u64> for Reply {
    ghost run = { λ _. 0 };

    ghost fits = { λ _ _. Unit {0} };

    ghost job = { λ reply. reply.job };

    ghost basis = { λ reply. record {
      file = reply.file.value;
      turns = reply.turns;
      depth = reply.depth;
    } };
}

/// Answers each job at once.
#[derive(Drop)]
struct AtOnce {
    file: File,
}

impl Runner for AtOnce {
    type Job = u64;

    type Done = Reply;

    ghost bases = { λ runner. record { file = runner.file; turns = 10; depth = 4 } ∷ [] };

    fn file(&self, job: &u64) -> &File {
        let _ = job;
        &self.file
    }

    fn run(&self, job: u64) -> Result<Reply, (u64, NoMemory)> {
        let file = Snapshot::of(&self.file);
        Ok(Reply {
            job,
            file,
            turns: 10,
            depth: 4,
        })
    }
}

fn run_here<R: Runner>(runner: &R, job: R::Job) -> Result<R::Done, (R::Job, NoMemory)>
    requires serves { Serves (R.bases runner.now) (R.Done.run job) (R.Done.fits job) }
    ensures ok { IfOk result (λ done. R.Done.job done ≡ job) }
{
    let _ = runner.file(&job);
    runner.run(job)
}

#[test]
fn a_runner_answers_the_job_it_is_given(rt: HostRuntime) -> Result<(), Fail> {
    let runner = AtOnce {
        file: File {
            items: Items::new(rt.alloc()),
        },
    };
    assert!(rt; matches!(run_here(&runner, 7), Ok(Reply { job: 7, .. })));
    Ok(())
}
