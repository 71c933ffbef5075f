//! Laws of scripts, each proved by the contract of an empty function.

ghost use Rattle.pyd_syntax.specs.Laws.{OneDerivation, OneFirstHopeless, AnAnswer, EndComesLast};

/// Tokens have one derivation at most, so the steps of [`derive`](crate::derive) are the only ones.
pub fn one_derivation()
    ensures { OneDerivation }
{}

/// Tokens have one first hopeless token at most, and then they are no script and not unfinished.
pub fn one_first_hopeless()
    ensures { OneFirstHopeless }
{}

/// Tokens that end with the end of a source are a script, or have a first hopeless token.
pub fn an_answer()
    ensures { AnAnswer }
{}

/// A script ends with the end of its source, and has it nowhere else.
pub fn end_comes_last()
    ensures { EndComesLast }
{}
