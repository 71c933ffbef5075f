//! Arithmetic on integers (Python Language Reference, sections 6.5 to 6.9). No result is built that
//! the limits refuse.
ghost use Rattle.std.specs.Prelude.{◌≡◌, ◌≢◌, ◌^◌, pos, negsuc, ◌+ℤ◌, ◌-ℤ◌, ◌*ℤ◌};
ghost use Rattle.std.specs.Int.{int_pow};
ghost use Rattle.pyd_ops.specs.Answer.{outcome_of};
ghost use Rattle.pyd_ops.specs.Integer.{within};
ghost use Rattle.pyd_ops.specs.Bits.{bits_and, bits_or, bits_xor};
ghost use Rattle.pyd_ops.specs.Arithmetic as spec;

use crate::answer::{checked, exceed, raise};
use pyd_value::{BinOp, Kind, Limit, Outcome};

/// A binary operator on two integers.
pub(crate) fn arithmetic(op: BinOp, m: i128, n: i128, line: u32) -> Outcome
    ensures { result ≡ outcome_of (spec.arithmetic op m n line) }
{
    match op {
        BinOp::Add => checked(checked_add(m, n), line),
        BinOp::Sub => checked(checked_sub(m, n), line),
        BinOp::Mul => checked(checked_mul(m, n), line),
        BinOp::Div => divide(m, n, line),
        BinOp::Mod => remainder(m, n, line),
        BinOp::Pow => power(m, n, line),
        BinOp::Shl => shift_left(m, n, line),
        BinOp::Shr => shift_right(m, n, line),
        BinOp::And => checked(bits_and(m, n), line),
        BinOp::Or => checked(bits_or(m, n), line),
        BinOp::Xor => checked(bits_xor(m, n), line),
    }
}

fn checked_add(m: i128, n: i128) -> Option<i128>
    ensures { result ≡ within (m +ℤ n) }
{
    m.checked_add(n)
}

fn checked_sub(m: i128, n: i128) -> Option<i128>
    ensures { result ≡ within (m -ℤ n) }
{
    m.checked_sub(n)
}

fn checked_mul(m: i128, n: i128) -> Option<i128>
    ensures { result ≡ within (m *ℤ n) }
{
    m.checked_mul(n)
}

fn divide(m: i128, n: i128, line: u32) -> Outcome
    ensures { result ≡ outcome_of (spec.divide m n line) }
{
    if n == 0 {
        raise(Kind::ZeroDivisionError, line)
    } else {
        checked(floor_div(m, n), line)
    }
}

fn remainder(m: i128, n: i128, line: u32) -> Outcome
    ensures { result ≡ outcome_of (spec.remainder m n line) }
{
    if n == 0 {
        raise(Kind::ZeroDivisionError, line)
    } else {
        checked(Some(floor_rem(m, n)), line)
    }
}

/// The quotient rounded down, and none for the one that is too great.
fn floor_div(m: i128, n: i128) -> Option<i128>
    requires { n ≢ pos 0 }
    ensures { result ≡ within (spec.floor_div m n) }
{
    let rounded = m.checked_div_euclid(n)?;
    if n < 0 && m.wrapping_rem_euclid(n) != 0 {
        Some(rounded - 1)
    } else {
        Some(rounded)
    }
}

/// The remainder with the divisor's sign.
fn floor_rem(m: i128, n: i128) -> i128
    requires { n ≢ pos 0 }
    ensures value { result ≡ spec.floor_rem m n }
    ensures within { within result ≡ Some result }
{
    let rest = m.wrapping_rem_euclid(n);
    if n < 0 && rest != 0 { rest + n } else { rest }
}

fn power(m: i128, n: i128, line: u32) -> Outcome
    ensures { result ≡ outcome_of (spec.power m n line) }
{
    if n >= 0 {
        checked(checked_power(m, n as u128), line)
    } else if m == 0 {
        raise(Kind::ZeroDivisionError, line)
    } else {
        exceed(Limit::Outside, line)
    }
}

/// A power. But for the bases 0, 1 and -1 no exponent from 128 on has one.
fn checked_power(m: i128, n: u128) -> Option<i128>
    ensures { result ≡ within (int_pow m n) }
{
    if n < 128 {
        m.checked_pow(n as u32)
    } else if m == 0 || m == 1 {
        Some(m)
    } else if m == -1 {
        Some(if n % 2 == 0 { 1 } else { -1 })
    } else {
        None
    }
}

fn shift_left(m: i128, n: i128, line: u32) -> Outcome
    ensures { result ≡ outcome_of (spec.shift_left m n line) }
{
    if n >= 0 {
        checked(checked_shift_left(m, n as u128), line)
    } else {
        raise(Kind::ValueError, line)
    }
}

/// The product with a power of 2. Of those from 2^127 on only -2^127 and 0 are within the limits.
fn checked_shift_left(m: i128, n: u128) -> Option<i128>
    ensures { result ≡ within (m *ℤ pos (2 ^ n)) }
{
    if n < 127 {
        m.checked_mul(1 << n as u32)
    } else if m == 0 {
        Some(0)
    } else if m == -1 && n == 127 {
        Some(i128::MIN)
    } else {
        None
    }
}

fn shift_right(m: i128, n: i128, line: u32) -> Outcome
    ensures { result ≡ outcome_of (spec.shift_right m n line) }
{
    if n >= 0 {
        checked(Some(floor_shift_right(m, n as u128)), line)
    } else {
        raise(Kind::ValueError, line)
    }
}

/// The quotient by a power of 2. From 2^127 on it is 0 or -1.
fn floor_shift_right(m: i128, n: u128) -> i128
    ensures value { result ≡ spec.floor_div m (pos (2 ^ n)) }
    ensures within { within result ≡ Some result }
{
    m >> n.min(127) as u32
}

fn bits_and(m: i128, n: i128) -> Option<i128>
    ensures { result ≡ within (bits_and m n) }
{
    Some(m & n)
}

fn bits_or(m: i128, n: i128) -> Option<i128>
    ensures { result ≡ within (bits_or m n) }
{
    Some(m | n)
}

fn bits_xor(m: i128, n: i128) -> Option<i128>
    ensures { result ≡ within (bits_xor m n) }
{
    Some(m ^ n)
}
