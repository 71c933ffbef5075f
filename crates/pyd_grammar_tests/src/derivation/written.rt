//! Trees in the written form of the rows.

use pyd_tree::{Arm, Block, Expr, File, Func, Item, Stmt, Suffix, Targets, UnOp, What};
use pyd_value::{Text, Value};
use std::alloc::AllocError;

/// The items, divided by spaces.
pub(crate) fn file(out: &mut String, file: &File) -> Result<(), AllocError> {
    for (i, one) in file.items.as_slice().iter().enumerate() {
        if i > 0 {
            out.push(' ')?;
        }
        item(out, one)?;
    }
    Ok(())
}

fn item(out: &mut String, item: &Item) -> Result<(), AllocError> {
    match item {
        Item::Import(line, module, names) => import(out, *line, module, names.as_slice()),
        Item::Def(func) => function(out, func),
        Item::Stmt(one) => stmt(out, one),
    }
}

fn import(out: &mut String, line: u32, module: &Text, names: &[Text]) -> Result<(), AllocError> {
    write!(out, "({line} import")?;
    word(out, module)?;
    for name in names {
        word(out, name)?;
    }
    out.push(')')
}

fn function(out: &mut String, func: &Func) -> Result<(), AllocError> {
    let line = func.line;
    write!(out, "({line} def")?;
    word(out, &func.name)?;
    out.push_str(" (marks")?;
    named(out, " @", func.marks.as_slice())?;
    out.push_str(" (params")?;
    named(out, " ", func.params.as_slice())?;
    block(out, &func.body)?;
    out.push(')')
}

fn named(out: &mut String, before: &str, names: &[(u32, Text)]) -> Result<(), AllocError> {
    for one in names {
        let line = one.0;
        write!(out, "{before}{line}")?;
        word(out, &one.1)?;
    }
    out.push(')')
}

fn word(out: &mut String, name: &Text) -> Result<(), AllocError> {
    out.push(' ')?;
    out.push_str(name.as_str())
}

#[cycle(block)]
fn block(out: &mut String, body: &Block) -> Result<(), AllocError> {
    out.push_str(" {")?;
    stmts(out, body.stmts.as_slice())?;
    out.push('}')
}

#[cycle(block)]
fn stmts(out: &mut String, stmts: &[Stmt]) -> Result<(), AllocError> {
    for (i, one) in stmts.iter().enumerate() {
        if i > 0 {
            out.push(' ')?;
        }
        stmt(out, one)?;
    }
    Ok(())
}

#[cycle(block)]
fn stmt(out: &mut String, stmt: &Stmt) -> Result<(), AllocError> {
    let line = stmt.line;
    write!(out, "({line}")?;
    what(out, &stmt.what)?;
    out.push(')')
}

#[cycle(block)]
fn what(out: &mut String, what: &What) -> Result<(), AllocError> {
    match what {
        What::Expr(e) => spaced(out, " expr", e),
        What::Assign(left, e) => {
            out.push_str(" assign")?;
            targets(out, left)?;
            spaced(out, "", e)
        }
        What::Aug(name, op, e) => {
            out.push_str(" aug")?;
            word(out, name)?;
            write!(out, " {op:?}")?;
            spaced(out, "", e)
        }
        What::If(all, other) => {
            arms(out, all.as_slice())?;
            otherwise(out, other)
        }
        What::While(test, body) => {
            spaced(out, " while", test)?;
            block(out, body)
        }
        What::For(left, over, body) => {
            out.push_str(" for")?;
            targets(out, left)?;
            spaced(out, "", over)?;
            block(out, body)
        }
        What::Return(e) => optional(out, " return", e),
        What::Break => out.push_str(" break"),
        What::Continue => out.push_str(" continue"),
        What::Pass => out.push_str(" pass"),
        What::Assert(test, message) => {
            spaced(out, " assert", test)?;
            optional(out, "", message)
        }
    }
}

#[cycle(block)]
fn arms(out: &mut String, arms: &[Arm]) -> Result<(), AllocError> {
    for arm in arms {
        let line = arm.line;
        write!(out, " (arm {line}")?;
        spaced(out, "", &arm.test)?;
        block(out, &arm.body)?;
        out.push(')')?;
    }
    Ok(())
}

#[cycle(block)]
fn otherwise(out: &mut String, body: &Option<Block>) -> Result<(), AllocError> {
    match body {
        Some(body) => {
            out.push_str(" else")?;
            block(out, body)
        }
        None => Ok(()),
    }
}

fn targets(out: &mut String, targets: &Targets) -> Result<(), AllocError> {
    if targets.tuple {
        out.push_str(" (targets")?;
    }
    for name in targets.names.as_slice() {
        word(out, name)?;
    }
    if targets.tuple {
        out.push(')')?;
    }
    Ok(())
}

fn optional(out: &mut String, before: &str, e: &Option<Expr>) -> Result<(), AllocError> {
    out.push_str(before)?;
    match e {
        Some(e) => spaced(out, "", e),
        None => Ok(()),
    }
}

/// A word, a space and an expression.
#[cycle(expr)]
fn spaced(out: &mut String, before: &str, e: &Expr) -> Result<(), AllocError> {
    write!(out, "{before} ")?;
    expr(out, e)
}

#[cycle(expr)]
fn all(out: &mut String, before: &str, exprs: &[Expr]) -> Result<(), AllocError> {
    out.push_str(before)?;
    for e in exprs {
        spaced(out, "", e)?;
    }
    out.push(')')
}

#[cycle(expr)]
fn expr(out: &mut String, e: &Expr) -> Result<(), AllocError> {
    match e {
        Expr::Lit(value) => literal(out, value),
        Expr::Name(name) => out.push_str(name.as_str()),
        Expr::Tuple(members) => all(out, "(tuple", members.as_slice()),
        Expr::And(members) => all(out, "(and", members.as_slice()),
        Expr::Or(members) => all(out, "(or", members.as_slice()),
        Expr::Call(name, args) => {
            out.push_str("(call")?;
            word(out, name)?;
            all(out, "", args.as_slice())
        }
        Expr::Unary(op, operand) => {
            unary(out, *op)?;
            expr(out, operand.get())?;
            out.push(')')
        }
        Expr::Power(base, exponent) => {
            spaced(out, "(power", base.get())?;
            spaced(out, "", exponent.get())?;
            out.push(')')
        }
        Expr::If(test, yes, no) => {
            spaced(out, "(if", test.get())?;
            spaced(out, "", yes.get())?;
            spaced(out, "", no.get())?;
            out.push(')')
        }
        Expr::Chain(first, links) => {
            spaced(out, "(chain", first.get())?;
            for link in links.as_slice() {
                let op = link.0;
                write!(out, " {op:?}")?;
                spaced(out, "", &link.1)?;
            }
            out.push(')')
        }
        Expr::Compare(first, links) => {
            spaced(out, "(compare", first.get())?;
            for link in links.as_slice() {
                let op = link.0;
                write!(out, " {op:?}")?;
                spaced(out, "", &link.1)?;
            }
            out.push(')')
        }
        Expr::Suffixed(base, suffixes) => {
            spaced(out, "(suffixed", base.get())?;
            for one in suffixes.as_slice() {
                suffix(out, one)?;
            }
            out.push(')')
        }
    }
}

fn unary(out: &mut String, op: UnOp) -> Result<(), AllocError> {
    write!(out, "(unary {op:?} ")
}

#[cycle(expr)]
fn suffix(out: &mut String, suffix: &Suffix) -> Result<(), AllocError> {
    match suffix {
        Suffix::Index(index) => {
            out.push_str(" [")?;
            expr(out, index)?;
        }
        Suffix::Slice(lower, upper) => {
            out.push_str(" [")?;
            bound(out, lower)?;
            out.push_str(" : ")?;
            bound(out, upper)?;
        }
    }
    out.push(']')
}

#[cycle(expr)]
fn bound(out: &mut String, e: &Option<Expr>) -> Result<(), AllocError> {
    match e {
        Some(e) => expr(out, e),
        None => out.push('_'),
    }
}

fn literal(out: &mut String, value: &Value) -> Result<(), AllocError> {
    match value {
        Value::Int(n) => write!(out, "{n}"),
        Value::Bool(true) => out.push_str("True"),
        Value::Bool(false) => out.push_str("False"),
        Value::Text(text) => {
            out.push('\'')?;
            out.push_str(text.as_str())?;
            out.push('\'')
        }
        Value::Tuple(_) => out.push_str("?"),
        Value::None => out.push_str("None"),
    }
}
