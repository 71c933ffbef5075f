//! What the left side of an assignment names.
ghost use Rattle.std.specs.Prelude.{◌≡◌, IfOk};
ghost use Rattle.pyd_derivation.specs.Actions as spec;

use pyd_tree::{Expr, Targets};
use pyd_value::{List as Items, NoMemory, Text};
use std::alloc::Global;

/// The name that an expression is.
pub fn name_of(alloc: Global, expr: &Expr) -> Result<Option<Text>, NoMemory>
    ensures { IfOk result (λ name. name ≡ spec.name_of expr.now) }
{
    match expr {
        Expr::Name(name) => Ok(Some(Text::of(alloc, name.as_str())?)),
        _ => Ok(None),
    }
}

/// The names that these expressions are, where each is one.
fn all_names(alloc: Global, exprs: &[Expr]) -> Result<Option<Items<Text>>, NoMemory>
    ensures { IfOk result (λ names. names ≡ spec.all_names exprs.now) }
{
    let mut names = Items::new(alloc);
    for expr in exprs {
        match name_of(alloc, expr)? {
            Some(name) => names.add(name)?,
            None => return Ok(None),
        }
    }
    Ok(Some(names))
}

/// The targets that the left side of an assignment is: a name, or a tuple of names that isn't empty.
pub fn targets_of(alloc: Global, expr: &Expr) -> Result<Option<Targets>, NoMemory>
    ensures { IfOk result (λ targets. targets ≡ spec.targets_of expr.now) }
{
    match expr {
        Expr::Name(name) => {
            let mut names = Items::new(alloc);
            names.add(Text::of(alloc, name.as_str())?)?;
            Ok(Some(Targets {
                names,
                tuple: false,
            }))
        }
        Expr::Tuple(members) => {
            if members.is_empty() {
                return Ok(None);
            }
            match all_names(alloc, members.as_slice())? {
                Some(names) => Ok(Some(Targets { names, tuple: true })),
                None => Ok(None),
            }
        }
        _ => Ok(None),
    }
}
