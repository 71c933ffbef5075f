//! The names that expressions read and call (Python Language Reference, section 6, "Expressions").
ghost use Rattle.std.specs.Prelude.{◌≡◌, ◌++◌, OnOk};
ghost use Rattle.std.specs.List.{flat_map};
ghost use Rattle.pyd_names.specs.Uses as spec;

use crate::name_use::{Manner, NameUse, add_name};
use pyd_tree::{BinOp, CmpOp, Expr, Suffix};
use pyd_value::{List, NoMemory};

/// Puts the uses in an expression at the end; where it is a call, its name is used in this manner.
#[cycle(use_parts)]
pub(crate) fn add_expression(
    e: &Expr,
    line: u32,
    manner: Manner,
    out: &mut List<NameUse>,
) -> Result<(), NoMemory>
    ensures { OnOk result (out.new ≡ out.old ++ spec.expression_uses e.now line manner) }
{
    match e {
        Expr::Lit(_) => Ok(()),
        Expr::Name(name) => add_name(name, line, Manner::Read, out),
        Expr::Tuple(parts) | Expr::And(parts) | Expr::Or(parts) => {
            add_each(parts.as_slice(), line, out)
        }
        Expr::Unary(_, operand) => add_expression(operand.get(), line, Manner::Called, out),
        Expr::Chain(first, links) => {
            add_expression(first.get(), line, Manner::Called, out)?;
            add_operands(links.as_slice(), line, out)
        }
        Expr::Power(base, exponent) => {
            add_expression(base.get(), line, Manner::Called, out)?;
            add_expression(exponent.get(), line, Manner::Called, out)
        }
        Expr::Compare(first, links) => {
            add_expression(first.get(), line, Manner::Called, out)?;
            add_compared(links.as_slice(), line, out)
        }
        Expr::If(test, left, right) => {
            add_expression(left.get(), line, Manner::Called, out)?;
            add_expression(test.get(), line, Manner::Called, out)?;
            add_expression(right.get(), line, Manner::Called, out)
        }
        Expr::Call(name, arguments) => {
            add_name(name, line, manner, out)?;
            add_each(arguments.as_slice(), line, out)
        }
        Expr::Suffixed(base, suffixes) => {
            add_expression(base.get(), line, Manner::Called, out)?;
            add_suffixes(suffixes.as_slice(), line, out)
        }
    }
}

/// The uses in an expression that may be missing.
#[cycle(use_parts)]
pub(crate) fn add_maybe(
    e: &Option<Expr>,
    line: u32,
    out: &mut List<NameUse>,
) -> Result<(), NoMemory>
    ensures { OnOk result (out.new ≡ out.old ++ spec.maybe_uses line e.now) }
{
    match e {
        Some(e) => add_expression(e, line, Manner::Called, out),
        None => Ok(()),
    }
}

#[cycle(use_parts)]
fn add_each(exprs: &[Expr], line: u32, out: &mut List<NameUse>) -> Result<(), NoMemory>
    ensures { OnOk result (out.new ≡ out.old ++ flat_map (spec.part_uses line) exprs.now) }
{
    for expr in exprs {
        add_expression(expr, line, Manner::Called, out)?;
    }
    Ok(())
}

/// The right operands of operators.
#[cycle(use_parts)]
fn add_operands(links: &[(BinOp, Expr)], line: u32, out: &mut List<NameUse>) -> Result<(), NoMemory>
    ensures { OnOk result (out.new ≡ out.old ++ flat_map (λ l. spec.part_uses line l.1) links.now) }
{
    for link in links {
        add_expression(&link.1, line, Manner::Called, out)?;
    }
    Ok(())
}

/// The right operands of comparisons.
#[cycle(use_parts)]
fn add_compared(links: &[(CmpOp, Expr)], line: u32, out: &mut List<NameUse>) -> Result<(), NoMemory>
    ensures { OnOk result (out.new ≡ out.old ++ flat_map (λ l. spec.part_uses line l.1) links.now) }
{
    for link in links {
        add_expression(&link.1, line, Manner::Called, out)?;
    }
    Ok(())
}

/// What stands in brackets, one after another.
#[cycle(use_parts)]
fn add_suffixes(suffixes: &[Suffix], line: u32, out: &mut List<NameUse>) -> Result<(), NoMemory>
    ensures { OnOk result (out.new ≡ out.old ++ flat_map (spec.bracket_uses line) suffixes.now) }
{
    for suffix in suffixes {
        add_suffix(suffix, line, out)?;
    }
    Ok(())
}

#[cycle(use_parts)]
fn add_suffix(suffix: &Suffix, line: u32, out: &mut List<NameUse>) -> Result<(), NoMemory>
    ensures { OnOk result (out.new ≡ out.old ++ spec.bracket_uses line suffix.now) }
{
    match suffix {
        Suffix::Index(index) => add_expression(index, line, Manner::Called, out),
        Suffix::Slice(lower, upper) => {
            add_maybe(lower, line, out)?;
            add_maybe(upper, line, out)
        }
    }
}
