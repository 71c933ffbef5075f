//! The operators that tokens stand for.
ghost use Rattle.std.specs.Prelude.{◌≡◌};
ghost use Rattle.pyd_derivation.specs.Operators as spec;

use pyd_lex::{Mark, TokenKind};
use pyd_tree::{BinOp, CmpOp, UnOp};

/// The operator of a token.
pub fn operator(kind: TokenKind) -> BinOp
    ensures { result ≡ spec.operator kind }
{
    match kind {
        TokenKind::Mark(mark) => mark_operator(mark),
        _ => BinOp::Add,
    }
}

/// The operator of a mark or of its augmented assignment.
fn mark_operator(mark: Mark) -> BinOp
    ensures { result ≡ spec.mark_operator mark }
{
    match mark {
        Mark::Sub | Mark::SubAssign => BinOp::Sub,
        Mark::Mul | Mark::MulAssign => BinOp::Mul,
        Mark::Div | Mark::DivAssign => BinOp::Div,
        Mark::Mod | Mark::ModAssign => BinOp::Mod,
        Mark::Pow | Mark::PowAssign => BinOp::Pow,
        Mark::Shl | Mark::ShlAssign => BinOp::Shl,
        Mark::Shr | Mark::ShrAssign => BinOp::Shr,
        Mark::And | Mark::AndAssign => BinOp::And,
        Mark::Or | Mark::OrAssign => BinOp::Or,
        Mark::Xor | Mark::XorAssign => BinOp::Xor,
        _ => BinOp::Add,
    }
}

/// The sign before an operand.
pub fn sign(kind: TokenKind) -> UnOp
    ensures { result ≡ spec.sign kind }
{
    match kind {
        TokenKind::Mark(Mark::Sub) => UnOp::Neg,
        _ => UnOp::Pos,
    }
}

/// The comparison of a token: a mark, or the word `in`.
pub fn comparison(kind: TokenKind) -> CmpOp
    ensures { result ≡ spec.comparison kind }
{
    match kind {
        TokenKind::Mark(mark) => mark_comparison(mark),
        _ => CmpOp::In,
    }
}

fn mark_comparison(mark: Mark) -> CmpOp
    ensures { result ≡ spec.mark_comparison mark }
{
    match mark {
        Mark::Ne => CmpOp::Ne,
        Mark::Lt => CmpOp::Lt,
        Mark::Le => CmpOp::Le,
        Mark::Gt => CmpOp::Gt,
        Mark::Ge => CmpOp::Ge,
        _ => CmpOp::Eq,
    }
}
