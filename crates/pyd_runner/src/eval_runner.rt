//! A runner of one run, over the evaluator.
ghost use Rattle.std.specs.Prelude.{◌≡◌, ◌∷◌, [], suc, IfOk, IsSome, IsTrue, Some};
ghost use Rattle.pyd_names.specs.Binding.{function};
ghost use Rattle.pyd_meaning.specs.Evaluation.{faults};
ghost use Rattle.pyd_meaning.specs.Module.{call_at};
ghost use Rattle.pyd_meaning.specs.Outcome.{IsRunOf};
ghost use Rattle.pyd_ir.specs.Meaning.{is_call, job_meaning, TaskFits};
ghost use Rattle.pyd_runner.specs.Bases.{basis_under};
ghost use Rattle.pyd_runner.specs.Functions as spec;

use pyd_board::Runner;
use pyd_eval::call;
use pyd_ir::{Done, Job, Task, run_op};
use pyd_meaning::{Limits, Ran, function_law};
use pyd_scope::Program;
use pyd_tree::File;
use pyd_value::{Fault, Kind, Limit, List, NoMemory, Outcome, Value};
use std::alloc::Global;

/// Does the jobs of one run: that of its program under its limits.
#[derive(Drop)]
pub struct EvalRunner {
    alloc: Global,
    program: Program,
    limits: Limits,
}

impl EvalRunner {
    /// A runner of this program under these limits, which takes its memory from this allocator.
    pub fn new(alloc: Global, program: Program, limits: Limits) -> EvalRunner
        ensures { ⟦<EvalRunner as Runner>⟧.bases result ≡ basis_under program.file limits ∷ [] }
    {
        EvalRunner {
            alloc,
            program,
            limits,
        }
    }

    /// What a job that calls a function gives and prints.
    fn run_call(&self, job: &Job) -> Result<Ran, NoMemory>
        requires call { IsTrue (is_call job.now.task) }
        requires fits { TaskFits job.now.task self.now.program.file }
        ensures { IfOk result (λ ran.
            IsRunOf ran (job_meaning self.now.program.file self.now.limits job.now)) }
    {
        match &job.task {
            Task::Call { func, args } => self.call(*func, args, job.line, job.depth),
            Task::Run { func, args } => self.call(*func, args, job.line, job.depth),
            Task::Op { .. } | Task::Read { .. } => unreachable!(),
        }
    }

    /// What a call from a routine at a depth gives and prints. Where the count of its arguments is
    /// wrong, or else its own depth above the limit, it ends before anything is evaluated.
    fn call(&self, func: u32, args: &List<Value>, line: u32, depth: u32) -> Result<Ran, NoMemory>
        requires { IsSome (function self.now.program.file func) }
        ensures { IfOk result (λ ran. IsRunOf ran
            (call_at self.now.program.file self.now.limits (suc depth) func args.now line)) }
    {
        function_law();
        if args.len() != self.parameter_count(func) {
            return Ok(self.ended(Fault::Raised(Kind::TypeError, line)));
        }
        if self.limits.depth <= depth {
            return Ok(self.ended(Fault::Limit(Limit::Depth, line)));
        }
        let args = args.try_clone()?;
        match call(
            self.alloc,
            &self.program,
            self.limits,
            func,
            args,
            depth + 1,
        ) {
            Ok(ran) => Ok(ran),
            Err((args, NoMemory)) => {
                drop(args);
                Err(NoMemory)
            }
        }
    }

    /// How many parameters a function has.
    fn parameter_count(&self, func: u32) -> usize
        requires { IsSome (function self.now.program.file func) }
        ensures { spec.parameter_count self.now.program.file func ≡ Some result }
    {
        match self.program.routines.get(func as usize) {
            Some(routine) => routine.params as usize,
            None => unreachable!(),
        }
    }

    /// A fault, and no lines.
    fn ended(&self, fault: Fault) -> Ran
        ensures { IsRunOf result (faults fault) }
    {
        Ran {
            outcome: Outcome::Fault(fault),
            lines: List::new(self.alloc),
        }
    }
}

impl Runner for EvalRunner {
    ghost use Rattle.std.specs.Prelude.{◌∷◌, []};
    ghost use Rattle.pyd_runner.specs.Bases.{basis_under};

    type Job = Job;

    type Done = Done;

    ghost bases = { λ runner. basis_under runner.program.file runner.limits ∷ [] };

    fn file(&self, job: &Job) -> &File {
        let _ = job;
        &self.program.file
    }

    fn run(&self, job: Job) -> Result<Done, (Job, NoMemory)> {
        if !job.task.is_call() {
            return run_op(self.alloc, &self.program.file, self.limits, job);
        }
        match self.run_call(&job) {
            Ok(ran) => Ok(Done::of_call(&self.program.file, self.limits, job, ran)),
            Err(NoMemory) => Err((job, NoMemory)),
        }
    }
}
