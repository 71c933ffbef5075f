//! The names that statements bind (Python Language Reference, section 4.2.1, "Binding of names").
ghost use Rattle.std.specs.Prelude.{◌≡◌, [], ◌∷◌, ◌++◌, map, IfOk, OnOk};
ghost use Rattle.std.specs.List.{flat_map};
ghost use Rattle.pyd_names.specs.Binding as spec;

use pyd_tree::{Arm, Block, Stmt, What};
use pyd_value::{List, NoMemory, Text};
use std::alloc::Global;

/// A name that is bound, and the line of the statement or header that binds it.
#[derive(Debug, Drop)]
pub struct Binding {
    pub line: u32,
    pub name: Text,
}

/// What a block binds, in text order: targets of assignments, augmented assignments and `for`.
pub fn bindings(alloc: Global, block: &Block) -> Result<List<Binding>, NoMemory>
    ensures { IfOk result (λ list. list ≡ spec.bindings block.now) }
{
    let mut out = List::new(alloc);
    add_block(block, &mut out)?;
    Ok(out)
}

/// What a statement binds, in text order.
pub fn statement_bindings(alloc: Global, stmt: &Stmt) -> Result<List<Binding>, NoMemory>
    ensures { IfOk result (λ list. list ≡ spec.statement_bindings stmt.now) }
{
    let mut out = List::new(alloc);
    add_statement(stmt, &mut out)?;
    Ok(out)
}

/// Puts what a block binds at the end.
#[cycle(bind)]
#[tactic(auto, using(crate::proofs::Bound::block_binds))]
pub(crate) fn add_block(block: &Block, out: &mut List<Binding>) -> Result<(), NoMemory>
    ensures { OnOk result (out.new ≡ out.old ++ spec.bindings block.now) }
{
    for stmt in block.stmts.as_slice() {
        add_statement(stmt, out)?;
    }
    Ok(())
}

/// Puts what a statement binds at the end.
#[cycle(bind)]
pub(crate) fn add_statement(stmt: &Stmt, out: &mut List<Binding>) -> Result<(), NoMemory>
    ensures { OnOk result (out.new ≡ out.old ++ spec.statement_bindings stmt.now) }
{
    add_what(&stmt.what, stmt.line, out)
}

#[cycle(bind)]
#[tactic(auto, using(crate::proofs::Bound::choice_binds, crate::proofs::Bound::for_binds))]
fn add_what(what: &What, line: u32, out: &mut List<Binding>) -> Result<(), NoMemory>
    ensures { OnOk result (out.new ≡ out.old ++ spec.what_bindings what.now line) }
{
    match what {
        What::Assign(to, _) => add_names(to.names.as_slice(), line, out),
        What::Aug(name, _, _) => add_name(name, line, out),
        What::If(arms, otherwise) => {
            add_arms(arms.as_slice(), out)?;
            add_otherwise(otherwise, out)
        }
        What::While(_, body) => add_block(body, out),
        What::For(to, _, body) => {
            add_names(to.names.as_slice(), line, out)?;
            add_block(body, out)
        }
        What::Expr(_)
        | What::Return(_)
        | What::Break
        | What::Continue
        | What::Pass
        | What::Assert(_, _) => Ok(()),
    }
}

#[cycle(bind)]
fn add_arms(arms: &[Arm], out: &mut List<Binding>) -> Result<(), NoMemory>
    ensures { OnOk result (out.new ≡ out.old ++ flat_map spec.arm_bindings arms.now) }
{
    for arm in arms {
        add_block(&arm.body, out)?;
    }
    Ok(())
}

/// The suite of an `else`, if there is one.
#[cycle(bind)]
fn add_otherwise(block: &Option<Block>, out: &mut List<Binding>) -> Result<(), NoMemory>
    ensures { OnOk result (out.new ≡ out.old ++ spec.otherwise_bindings block.now) }
{
    match block {
        Some(block) => add_block(block, out),
        None => Ok(()),
    }
}

/// Puts targets at the end.
fn add_names(names: &[Text], line: u32, out: &mut List<Binding>) -> Result<(), NoMemory>
    ensures { OnOk result (out.new ≡ out.old ++ map (spec.bound_in line) names.now) }
{
    for name in names {
        add_name(name, line, out)?;
    }
    Ok(())
}

fn add_name(name: &Text, line: u32, out: &mut List<Binding>) -> Result<(), NoMemory>
    ensures { OnOk result (out.new ≡ out.old ++ map (spec.bound_in line) (name.now ∷ [])) }
{
    let name = name.try_clone()?;
    out.add(Binding { line, name })
}
