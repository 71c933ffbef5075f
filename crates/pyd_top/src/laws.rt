//! What a source and a mode determine. Each function does nothing, and its contract is the law.
ghost use Rattle.pyd_top.specs.Laws.{OneAnswer, OneWork};

/// A source has one program or one refusal, and not both.
pub fn one_answer()
    ensures { OneAnswer }
{
    pyd_lex::an_answer();
    pyd_lex::one_answer();
    pyd_grammar::an_answer();
    pyd_grammar::one_answer();
    pyd_grammar::files_are_well_formed();
}

/// A mode makes one thing of each input: an output and a conclusion.
pub fn one_work()
    ensures { OneWork }
{
    one_answer();
}
