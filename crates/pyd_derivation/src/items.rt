//! What the productions of files, functions and suites make of their parts.
ghost use Rattle.std.specs.Prelude.{◌≡◌, ℕ, ◌+◌, List, [], ◌∷◌, get_or, drop, IfOk};
ghost use Rattle.pyd_derivation.specs.Actions as spec;
ghost use Rattle.pyd_derivation.specs.Pieces.{part, name_in};

use crate::blocks::{
    pop_def, pop_item, pop_items, pop_names, pop_params, pop_stmt, pop_stmts, pop_suite,
};
use crate::piece::Piece;
use crate::pieces::{pop, pop_token, skip};
use crate::spelling::spelling;
use crate::stack::Stack;
use pyd_tree::{Block, Func, Item};
use pyd_value::{Boxed, List as Items, NoMemory, Text};
use std::alloc::Global;

/// The name on the front token.
fn pop_name(alloc: Global, bytes: &[u8], pieces: &mut Stack<Piece>) -> Result<Text, NoMemory>
    ensures made { IfOk result (λ name. name ≡ name_in bytes.now (part pieces.old 0)) }
    ensures rest { pieces.new ≡ drop 1 pieces.old }
{
    let token = pop_token(pieces);
    spelling(alloc, bytes, &token)
}

/// The end of a file.
pub fn end(alloc: Global, pieces: &mut Stack<Piece>) -> Piece
    ensures made { result ≡ spec.as_end (part pieces.old 0) }
    ensures rest { pieces.new ≡ drop 1 pieces.old }
{
    skip(pieces);
    Piece::Items(Stack::new(alloc))
}

/// An item, and those behind it.
pub fn items(alloc: Global, pieces: &mut Stack<Piece>) -> Result<Piece, NoMemory>
    ensures made { IfOk result (λ v. v ≡ spec.as_items (part pieces.old 0) (part pieces.old 1)) }
    ensures rest { IfOk result (λ _. pieces.new ≡ drop 2 pieces.old) }
{
    let first = pop_item(alloc, pieces)?;
    let mut items = pop_items(alloc, pieces);
    items.push(first.into_inner())?;
    Ok(Piece::Items(items))
}

/// A statement as an item.
pub fn statement_item(alloc: Global, pieces: &mut Stack<Piece>) -> Result<Piece, NoMemory>
    ensures made { IfOk result (λ v. v ≡ spec.as_statement_item (part pieces.old 0)) }
    ensures rest { IfOk result (λ _. pieces.new ≡ drop 1 pieces.old) }
{
    let stmt = pop_stmt(alloc, pieces)?;
    let item = Item::Stmt(stmt.into_inner());
    Ok(Piece::Item(Boxed::new(alloc, item)?))
}

/// A function as an item, with its decorators.
pub fn function_item(alloc: Global, pieces: &mut Stack<Piece>) -> Result<Piece, NoMemory>
    ensures made { IfOk result (λ v. v ≡ spec.as_function_item (part pieces.old 0)) }
    ensures rest { IfOk result (λ _. pieces.new ≡ drop 1 pieces.old) }
{
    let (marks, func) = pop_def(alloc, pieces)?;
    let marks = marks.into_list(alloc)?;
    let Func {
        line,
        name,
        marks: none,
        params,
        body,
    } = func.into_inner();
    drop(none);
    let func = Func {
        line,
        name,
        marks,
        params,
        body,
    };
    Ok(Piece::Item(Boxed::new(alloc, Item::Def(func))?))
}

/// An import.
pub fn import(
    alloc: Global,
    bytes: &[u8],
    pieces: &mut Stack<Piece>,
    line: u32,
) -> Result<Piece, NoMemory>
    ensures made { IfOk result (λ v. v ≡ spec.as_import bytes.now line (part pieces.old 0)
        (part pieces.old 1)
        (part pieces.old 2) (part pieces.old 3) (part pieces.old 4) (part pieces.old 5)) }
    ensures rest { IfOk result (λ _. pieces.new ≡ drop 6 pieces.old) }
{
    skip(pieces);
    let module = pop_name(alloc, bytes, pieces)?;
    skip(pieces);
    let name = pop_name(alloc, bytes, pieces)?;
    let mut names = pop_names(alloc, pieces);
    skip(pieces);
    names.push(name)?;
    let item = Item::Import(line, module, names.into_list(alloc)?);
    Ok(Piece::Item(Boxed::new(alloc, item)?))
}

/// A comma, a name, and those behind it.
pub fn names(
    alloc: Global,
    bytes: &[u8],
    pieces: &mut Stack<Piece>,
    line: u32,
) -> Result<Piece, NoMemory>
    ensures made { IfOk result (λ v. v ≡ spec.as_names bytes.now line (part pieces.old 0)
        (part pieces.old 1)
        (part pieces.old 2)) }
    ensures rest { IfOk result (λ _. pieces.new ≡ drop 3 pieces.old) }
{
    skip(pieces);
    let name = pop_name(alloc, bytes, pieces)?;
    let mut names = pop_names(alloc, pieces);
    names.push(name)?;
    Ok(Piece::Names(names))
}

/// A decorator, and the function behind it.
pub fn decorated(
    alloc: Global,
    bytes: &[u8],
    pieces: &mut Stack<Piece>,
    line: u32,
) -> Result<Piece, NoMemory>
    ensures made { IfOk result (λ v. v ≡ spec.as_decorated bytes.now line (part pieces.old 0)
        (part pieces.old 1)
        (part pieces.old 2) (part pieces.old 3)) }
    ensures rest { IfOk result (λ _. pieces.new ≡ drop 4 pieces.old) }
{
    skip(pieces);
    let name = pop_name(alloc, bytes, pieces)?;
    skip(pieces);
    let (mut marks, func) = pop_def(alloc, pieces)?;
    marks.push((line, name))?;
    let marks = Boxed::new(alloc, marks)?;
    Ok(Piece::Def { marks, func })
}

/// A function.
pub fn function(
    alloc: Global,
    bytes: &[u8],
    pieces: &mut Stack<Piece>,
    line: u32,
) -> Result<Piece, NoMemory>
    ensures made { IfOk result (λ v. v ≡ spec.as_def bytes.now line (part pieces.old 0)
        (part pieces.old 1)
        (part pieces.old 2) (part pieces.old 3) (part pieces.old 4) (part pieces.old 5)) }
    ensures rest { IfOk result (λ _. pieces.new ≡ drop 6 pieces.old) }
{
    skip(pieces);
    let name = pop_name(alloc, bytes, pieces)?;
    skip(pieces);
    let params = pop_params(alloc, pieces);
    skip(pieces);
    let body = pop_suite(alloc, pieces)?;
    let params = params.into_list(alloc)?;
    let marks = Items::new(alloc);
    let func = Func {
        line,
        name,
        marks,
        params,
        body,
    };
    let func = Boxed::new(alloc, func)?;
    let marks = Boxed::new(alloc, Stack::new(alloc))?;
    Ok(Piece::Def { marks, func })
}

/// A parameter, and those behind it.
pub fn params(
    alloc: Global,
    bytes: &[u8],
    pieces: &mut Stack<Piece>,
    line: u32,
) -> Result<Piece, NoMemory>
    ensures made { IfOk result (λ v. v ≡ spec.as_params bytes.now line (part pieces.old 0)
        (part pieces.old 1)
        ) }
    ensures rest { IfOk result (λ _. pieces.new ≡ drop 2 pieces.old) }
{
    let name = pop_name(alloc, bytes, pieces)?;
    let mut params = pop_params(alloc, pieces);
    params.push((line, name))?;
    Ok(Piece::Params(params))
}

/// A statement, and those behind it.
pub fn stmts(alloc: Global, pieces: &mut Stack<Piece>) -> Result<Piece, NoMemory>
    ensures made { IfOk result (λ v. v ≡ spec.as_stmts (part pieces.old 0) (part pieces.old 1)) }
    ensures rest { IfOk result (λ _. pieces.new ≡ drop 2 pieces.old) }
{
    let first = pop_stmt(alloc, pieces)?;
    let mut stmts = pop_stmts(alloc, pieces);
    stmts.push(first.into_inner())?;
    Ok(Piece::Stmts(stmts))
}

/// A suite.
pub fn suite(alloc: Global, pieces: &mut Stack<Piece>) -> Result<Piece, NoMemory>
    ensures made { IfOk result (λ v. v ≡ spec.as_suite (part pieces.old 0) (part pieces.old 1)
        (part pieces.old 2) (part pieces.old 3) (part pieces.old 4) (part pieces.old 5)) }
    ensures rest { IfOk result (λ _. pieces.new ≡ drop 6 pieces.old) }
{
    skip(pieces);
    skip(pieces);
    skip(pieces);
    let first = pop_stmt(alloc, pieces)?;
    let mut stmts = pop_stmts(alloc, pieces);
    skip(pieces);
    stmts.push(first.into_inner())?;
    let stmts = stmts.into_list(alloc)?;
    Ok(Piece::Suite(Block { stmts }))
}

/// The part behind a token.
pub fn second(pieces: &mut Stack<Piece>) -> Piece
    ensures made { result ≡ spec.second (part pieces.old 0) (part pieces.old 1) }
    ensures rest { pieces.new ≡ drop 2 pieces.old }
{
    skip(pieces);
    pop(pieces)
}
