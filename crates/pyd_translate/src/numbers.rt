//! Numbers of statements, expressions and ports.
ghost use Rattle.std.specs.Prelude.{◌≡◌, ◌+◌, suc, IfOk};

use pyd_value::NoMemory;

/// A sum, or want of memory where it takes more than 32 bits.
pub(crate) fn plus(a: u32, b: u32) -> Result<u32, NoMemory>
    ensures { IfOk result (λ n. n ≡ a + b) }
{
    match a.checked_add(b) {
        Some(n) => Ok(n),
        None => Err(NoMemory),
    }
}

/// A number of 32 bits, or want of memory where it takes more.
pub(crate) fn number(n: usize) -> Result<u32, NoMemory>
    ensures { IfOk result (λ m. m ≡ n) }
{
    u32::try_from(n).map_err(|_| NoMemory)
}

/// The next number.
pub(crate) fn next(a: u32) -> Result<u32, NoMemory>
    ensures { IfOk result (λ n. n ≡ suc a) }
{
    match a.checked_add(1) {
        Some(n) => Ok(n),
        None => Err(NoMemory),
    }
}
