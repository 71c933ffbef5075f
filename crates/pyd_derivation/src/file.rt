//! The file of a derivation.
ghost use Rattle.std.specs.Prelude.{◌≡◌, IfOk};
ghost use Rattle.pyd_syntax.specs.Script.{IsDerivation};
ghost use Rattle.pyd_derivation.specs.Files.{IsFile};

use crate::blocks::pop_items;
use crate::build::read;
use pyd_lex::Token;
use pyd_syntax::Step;
use pyd_tree::File;
use pyd_value::NoMemory;
use std::alloc::Global;

/// The file that the derivation by these steps is read as.
pub fn tree(alloc: Global, bytes: &[u8], tokens: &[Token], steps: &[Step]) -> Result<File, NoMemory>
    requires { IsDerivation steps.now tokens.now }
    ensures { IfOk result (IsFile bytes.now tokens.now) }
{
    let mut pieces = read(alloc, bytes, tokens, steps)?;
    let items = pop_items(alloc, &mut pieces);
    Ok(File {
        items: items.into_list(alloc)?,
    })
}
