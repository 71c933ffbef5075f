//! Nodes written, by rows.

mod making;

use crate::*;
use making::{composites, leaves, operator, routines, stops};
use pyd_ir::OpCode;
use pyd_value::{BinOp, CmpOp, NoMemory, UnOp};
use std::alloc::Global;
use std::test::Fail;

/// Operators with their names.
const OPERATORS: [(OpCode, &str); 40] = [
    (OpCode::Unary(UnOp::Neg), "Neg"),
    (OpCode::Unary(UnOp::Pos), "Pos"),
    (OpCode::Unary(UnOp::Not), "Not"),
    (OpCode::Binary(BinOp::Add), "Add"),
    (OpCode::Binary(BinOp::Sub), "Sub"),
    (OpCode::Binary(BinOp::Mul), "Mul"),
    (OpCode::Binary(BinOp::Div), "Div"),
    (OpCode::Binary(BinOp::Mod), "Mod"),
    (OpCode::Binary(BinOp::Pow), "Pow"),
    (OpCode::Binary(BinOp::Shl), "Shl"),
    (OpCode::Binary(BinOp::Shr), "Shr"),
    (OpCode::Binary(BinOp::And), "BitAnd"),
    (OpCode::Binary(BinOp::Or), "BitOr"),
    (OpCode::Binary(BinOp::Xor), "BitXor"),
    (OpCode::Compare(CmpOp::Eq), "Eq"),
    (OpCode::Compare(CmpOp::Ne), "Ne"),
    (OpCode::Compare(CmpOp::Lt), "Lt"),
    (OpCode::Compare(CmpOp::Le), "Le"),
    (OpCode::Compare(CmpOp::Gt), "Gt"),
    (OpCode::Compare(CmpOp::Ge), "Ge"),
    (OpCode::Compare(CmpOp::In), "In"),
    (OpCode::Compare(CmpOp::NotIn), "NotIn"),
    (OpCode::Index, "Index"),
    (
        OpCode::Slice {
            low: true,
            high: false,
        },
        "Slice",
    ),
    (
        OpCode::Slice {
            low: false,
            high: true,
        },
        "Slice",
    ),
    (OpCode::Tuple, "Tuple"),
    (OpCode::Unpack(0), "Unpack 0"),
    (OpCode::Unpack(2), "Unpack 2"),
    (OpCode::Unpack(4294967295), "Unpack 4294967295"),
    (OpCode::Len, "Len"),
    (OpCode::Abs, "Abs"),
    (OpCode::Min, "Min"),
    (OpCode::Max, "Max"),
    (OpCode::Sum, "Sum"),
    (OpCode::Str, "Str"),
    (OpCode::Repr, "Repr"),
    (OpCode::Int, "Int"),
    (OpCode::Bool, "Bool"),
    (OpCode::Range, "Range"),
    (OpCode::Assert, "Assert"),
];

/// Every other leaf but a Stop, and every kind of argument.
const LEAVES: &str = "0 1 Read #18446744073709551615.4294967295
1 2 Call half #0.0
2 2 Run größe
3 3 Print
4 4 Print 'a\\nb \"c\"' \"it's\" 'é\\xa0' (1, ('x',)) None True -7 ?
18446744073709551615 4294967295 Print ()
";

const STOPS: &str = "5 6 Stop NameError
5 6 Stop UnboundLocalError
5 6 Stop TypeError
5 6 Stop ValueError
5 6 Stop IndexError
5 6 Stop ZeroDivisionError
5 6 Stop AssertionError
5 6 Stop TurnLimit
5 6 Stop DepthLimit
5 6 Stop IntLimit
5 6 Stop SizeLimit
5 6 Stop Outside
";

/// Composites whose slots, sides and frames name more than their control.
const COMPOSITES: &str = "6 7 Cond #3.1
6 7 While True
6 7 For #3.1
6 7 Pick #3.1
6 7 Enter half #3.1
";

fn text_of_operator(alloc: Global, op: OpCode) -> Result<Vec<u8>, NoMemory> {
    let nodes = operator(alloc, op)?;
    nodes_text(alloc, &[], nodes.as_slice())
}

#[test]
fn operators_have_their_names(rt: HostRuntime) -> Result<(), Fail> {
    for (op, name) in &OPERATORS {
        let text = text_of_operator(rt.alloc(), *op)?;
        let line = format!(in rt.alloc(); "7 3 {name} 0 1\n")?;
        assert!(rt; text.as_slice() == line.as_str().as_bytes(), "{name}");
    }
    Ok(())
}

#[test]
fn every_work_has_its_word_and_arguments(rt: HostRuntime) -> Result<(), Fail> {
    let routines = routines(rt.alloc())?;
    let rows = [
        (leaves(rt.alloc())?, LEAVES),
        (stops(rt.alloc())?, STOPS),
        (composites(rt.alloc())?, COMPOSITES),
    ];
    for (nodes, wanted) in &rows {
        let text = nodes_text(rt.alloc(), routines.as_slice(), nodes.as_slice())?;
        assert!(rt; text.as_slice() == wanted.as_bytes(), "{wanted}");
    }
    Ok(())
}

#[test]
fn no_nodes_have_the_empty_text(rt: HostRuntime) -> Result<(), Fail> {
    assert!(rt; nodes_text(rt.alloc(), &[], &[])?.is_empty());
    Ok(())
}
