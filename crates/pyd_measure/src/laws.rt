//! Laws of the lines that tokens are refused with, each the contract of a function that does nothing.
ghost use Rattle.pyd_measure.specs.Laws.{OneLine, ALine, ShallowFiles};

/// Tokens are refused with one line of each kind at most.
pub fn one_line()
    ensures { OneLine }
{
    pyd_syntax::one_derivation();
}

/// Tokens that have a derivation have a line of each kind, or none such line.
pub fn a_line()
    ensures { ALine }
{}

/// Where nothing nests too deep, the file that the tokens are read as doesn't.
pub fn shallow_files()
    ensures { ShallowFiles }
{
    one_line();
}
