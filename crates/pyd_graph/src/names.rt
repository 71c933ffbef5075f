//! What the text of a graph calls operators, exceptions and limits.
ghost use Rattle.std.specs.Prelude.{◌≡◌, ◌++◌, OnOk, codes, decimal, string_bytes};
ghost use Rattle.pyd_graph.specs.Names as spec;

use crate::arguments::{push_bytes, push_number};
use pyd_ir::OpCode;
use pyd_value::{BinOp, CmpOp, Fault, Kind, Limit, NoMemory, UnOp};

/// Appends the name of an operator.
pub(crate) fn push_operator(text: &mut String, op: OpCode) -> Result<(), NoMemory>
    ensures { OnOk result (string_bytes text.new ≡ string_bytes text.old ++ spec.operator_name op) }
{
    match op {
        OpCode::Unary(op) => push_bytes(text, unary_name(op)),
        OpCode::Binary(op) => push_bytes(text, binary_name(op)),
        OpCode::Compare(op) => push_bytes(text, comparison_name(op)),
        OpCode::Index => push_bytes(text, "Index"),
        OpCode::Slice { .. } => push_bytes(text, "Slice"),
        OpCode::Tuple => push_bytes(text, "Tuple"),
        OpCode::Unpack(count) => push_unpacking(text, count),
        OpCode::Len => push_bytes(text, "Len"),
        OpCode::Abs => push_bytes(text, "Abs"),
        OpCode::Min => push_bytes(text, "Min"),
        OpCode::Max => push_bytes(text, "Max"),
        OpCode::Sum => push_bytes(text, "Sum"),
        OpCode::Str => push_bytes(text, "Str"),
        OpCode::Repr => push_bytes(text, "Repr"),
        OpCode::Int => push_bytes(text, "Int"),
        OpCode::Bool => push_bytes(text, "Bool"),
        OpCode::Range => push_bytes(text, "Range"),
        OpCode::Assert => push_bytes(text, "Assert"),
    }
}

fn push_unpacking(text: &mut String, count: u32) -> Result<(), NoMemory>
    ensures { OnOk result
        (string_bytes text.new ≡ string_bytes text.old ++ (codes "Unpack " ++ decimal count)) }
{
    push_bytes(text, "Unpack ")?;
    push_number(text, u64::from(count))
}

fn unary_name(op: UnOp) -> &'static str
    ensures { result.now ≡ spec.unary_name op }
{
    match op {
        UnOp::Neg => "Neg",
        UnOp::Pos => "Pos",
        UnOp::Not => "Not",
    }
}

fn binary_name(op: BinOp) -> &'static str
    ensures { result.now ≡ spec.binary_name op }
{
    match op {
        BinOp::Add => "Add",
        BinOp::Sub => "Sub",
        BinOp::Mul => "Mul",
        BinOp::Div => "Div",
        BinOp::Mod => "Mod",
        BinOp::Pow => "Pow",
        BinOp::Shl => "Shl",
        BinOp::Shr => "Shr",
        BinOp::And => "BitAnd",
        BinOp::Or => "BitOr",
        BinOp::Xor => "BitXor",
    }
}

fn comparison_name(op: CmpOp) -> &'static str
    ensures { result.now ≡ spec.comparison_name op }
{
    match op {
        CmpOp::Eq => "Eq",
        CmpOp::Ne => "Ne",
        CmpOp::Lt => "Lt",
        CmpOp::Le => "Le",
        CmpOp::Gt => "Gt",
        CmpOp::Ge => "Ge",
        CmpOp::In => "In",
        CmpOp::NotIn => "NotIn",
    }
}

/// The name of a fault, without its line.
pub(crate) fn fault_name(fault: Fault) -> &'static str
    ensures { result.now ≡ spec.fault_name fault }
{
    match fault {
        Fault::Raised(kind, _) => kind_name(kind),
        Fault::Limit(limit, _) => limit_name(limit),
    }
}

fn kind_name(kind: Kind) -> &'static str
    ensures { result.now ≡ spec.kind_name kind }
{
    match kind {
        Kind::NameError => "NameError",
        Kind::UnboundLocalError => "UnboundLocalError",
        Kind::TypeError => "TypeError",
        Kind::ValueError => "ValueError",
        Kind::IndexError => "IndexError",
        Kind::ZeroDivisionError => "ZeroDivisionError",
        Kind::AssertionError => "AssertionError",
    }
}

fn limit_name(limit: Limit) -> &'static str
    ensures { result.now ≡ spec.limit_name limit }
{
    match limit {
        Limit::Turn => "TurnLimit",
        Limit::Depth => "DepthLimit",
        Limit::Int => "IntLimit",
        Limit::Size => "SizeLimit",
        Limit::Outside => "Outside",
    }
}
