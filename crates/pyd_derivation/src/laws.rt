//! Laws of files, each the contract of a function that does nothing.
ghost use Rattle.pyd_derivation.specs.Laws.{OneFile, FilesAreScripts};

/// Tokens are read as one file at most.
pub fn one_file()
    ensures { OneFile }
{
    pyd_syntax::one_derivation();
}

/// Tokens are read as a file exactly where they have a derivation.
pub fn files_are_scripts()
    ensures { FilesAreScripts }
{}
