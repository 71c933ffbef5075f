//! What the lines of a module are that aren't run: string lines and plain assignments.
ghost use Rattle.std.specs.Prelude.{◌≡◌, is_some, option_map};
ghost use Rattle.pyd_names.specs.Binding as spec;

use crate::literals::is_literal;
use pyd_tree::{Expr, Item, Stmt, Targets, What};
use pyd_value::{Text, Value};

/// Whether a statement is an expression that is one string literal.
pub fn is_string_line(stmt: &Stmt) -> bool
    ensures { result ≡ spec.is_string_line stmt.now }
{
    match &stmt.what {
        What::Expr(Expr::Lit(Value::Text(_))) => true,
        _ => false,
    }
}

/// The name and the right side of `NAME = e`, or none.
pub fn plain_assignment(stmt: &Stmt) -> Option<(&Text, &Expr)>
    ensures { option_map (λ p. (p.0.now, p.1.now)) result ≡ spec.plain_assignment stmt.now }
{
    match &stmt.what {
        What::Assign(to, right) => Some((one_target(to)?, right)),
        What::Expr(_)
        | What::Aug(_, _, _)
        | What::If(_, _)
        | What::While(_, _)
        | What::For(_, _, _)
        | What::Return(_)
        | What::Break
        | What::Continue
        | What::Pass
        | What::Assert(_, _) => None,
    }
}

/// The target of an assignment with one target and no comma.
fn one_target(to: &Targets) -> Option<&Text>
    ensures { option_map (λ n. n.now) result ≡ spec.one_target to.now.tuple to.now.names }
{
    if to.tuple || to.names.len() != 1 {
        return None;
    }
    to.names.get(0)
}

/// Whether constants may follow an item: a string line, an import, a `def` or a plain assignment of a literal.
pub fn constants_may_follow(item: &Item) -> bool
    ensures { result ≡ spec.constants_may_follow item.now }
{
    match item {
        Item::Import(_, _, _) | Item::Def(_) => true,
        Item::Stmt(stmt) => is_string_line(stmt) || is_literal_assignment(stmt),
    }
}

/// Whether a statement is a plain assignment of a literal.
pub fn is_literal_assignment(stmt: &Stmt) -> bool
    ensures { result ≡ is_some (spec.literal_assignment stmt.now) }
{
    match plain_assignment(stmt) {
        Some((_, right)) => is_literal(right),
        None => false,
    }
}
