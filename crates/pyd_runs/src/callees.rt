//! Which functions nodes and jobs call, and that a job prints nothing unless it is an effect: contracts of
//! functions with empty bodies.
ghost use Rattle.pyd_runs.specs.Callees.{CalleeLaw, KeptCalleeLaw, LeaveLaw, SilentLaw};

/// Behind all events each node, and each job that is held, calls a function of the file in the manner that
/// its marks ask for.
pub fn callee_law()
    ensures { CalleeLaw }
{}

/// Every event keeps that so.
pub fn kept_callee_law()
    ensures { KeptCalleeLaw }
{}

/// Where the file breaks no rule, a job that is ready or held has the function that it calls, and prints
/// nothing unless it is an effect.
pub fn silent_law()
    ensures { SilentLaw }
{}

/// There a Finish leaves of an effect what was done with the driver, and of any other job an outcome without
/// lines in the store of its machine.
pub fn leave_law()
    ensures { LeaveLaw }
{}
