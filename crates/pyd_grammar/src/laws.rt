//! Laws of the answers of [`parse`](crate::parse), each the contract of a function that does nothing.

ghost use Rattle.pyd_grammar.specs.Laws.{OneAnswer, AnAnswer, FaultsByCause, FilesAreWellFormed};

/// Tokens have one answer at most: a file or a fault with its line.
pub fn one_answer()
    ensures { OneAnswer }
{
    pyd_syntax::one_first_hopeless();
    pyd_derivation::one_file();
    pyd_derivation::files_are_scripts();
    pyd_measure::one_line();
}

/// Tokens that end with the end of a source have an answer, and so do the tokens of bytes.
pub fn an_answer()
    ensures { AnAnswer }
{
    pyd_lex::token_bytes();
    pyd_syntax::an_answer();
    pyd_derivation::files_are_scripts();
    pyd_measure::a_line();
}

/// `Syntax` is the answer exactly where the tokens have no derivation, and any other answer comes
/// only where they have one.
pub fn faults_by_cause()
    ensures { FaultsByCause }
{
    pyd_syntax::one_first_hopeless();
    pyd_syntax::an_answer();
    pyd_derivation::files_are_scripts();
}

/// A file from a source within the limit meets the condition under which it is checked.
pub fn files_are_well_formed()
    ensures { FilesAreWellFormed }
{
    pyd_lex::token_bytes();
}
