//! Joining and repeating texts and tuples. What the limits refuse isn't built.
ghost use Rattle.std.specs.Prelude.{◌≡◌, ◌≤◌, ◌++◌, IfOk, OnOk, string_bytes};
ghost use Rattle.std.specs.Str.{chars};
ghost use Rattle.pyd_ops.specs.Answer.{Answers};
ghost use Rattle.std.specs.List.{repeat};
ghost use Rattle.pyd_ops.specs.Joining as spec;

use crate::answer::exceed;
use pyd_value::{
    DEEPEST_NESTING, LARGEST_SIZE, Limit, List, NoMemory, Outcome, Text, Value, nest, size,
    try_copy,
};
use std::alloc::Global;

/// One text and then the other, or `SizeLimit`.
pub(crate) fn join_texts(alloc: Global, s: &Text, t: &Text, line: u32) -> Result<Outcome, NoMemory>
    ensures { Answers result (spec.text_if_fits (s.now ++ t.now) line) }
{
    let (first, second) = (s.as_str(), t.as_str());
    if first.len().saturating_add(second.len()) as u64 >= LARGEST_SIZE {
        return Ok(exceed(Limit::Size, line));
    }
    let joined = join_strs(alloc, first, second)?;
    let count = s.count().saturating_add(t.count());
    let text = Text::from_counted(alloc, joined, count)?;
    Ok(Outcome::Ok(Value::Text(text)))
}

fn join_strs(alloc: Global, s: &str, t: &str) -> Result<String, NoMemory>
    ensures { IfOk result (λ joined. string_bytes joined ≡ s.now ++ t.now) }
{
    let mut joined = String::from_str(alloc, s)?;
    joined.push_str(t)?;
    Ok(joined)
}

fn text_value(alloc: Global, s: String) -> Result<Outcome, NoMemory>
    ensures { Answers result (spec.text_value (chars (string_bytes s))) }
{
    Ok(Outcome::Ok(Value::Text(Text::from_string(alloc, s)?)))
}

/// A text so many times over, or `SizeLimit`. An empty text stays empty at once.
pub(crate) fn repeat_text(alloc: Global, s: &Text, n: u128, line: u32) -> Result<Outcome, NoMemory>
    ensures { Answers result (spec.text_if_fits (repeat n s.now) line) }
{
    let s = s.as_str();
    if s.is_empty() {
        return text_value(alloc, String::new(alloc));
    }
    if n.saturating_mul(s.len() as u128) >= LARGEST_SIZE as u128 {
        return Ok(exceed(Limit::Size, line));
    }
    let repeated = repeat_str(alloc, s, n)?;
    text_value(alloc, repeated)
}

fn repeat_str(alloc: Global, s: &str, n: u128) -> Result<String, NoMemory>
    ensures { IfOk result (λ repeated. string_bytes repeated ≡ repeat n s.now) }
{
    let mut repeated = String::new(alloc);
    for _ in 0..n {
        repeated.push_str(s)?;
    }
    Ok(repeated)
}

/// Whether two tuples make one within the limits.
pub(crate) fn fit_together(a: &Value, b: &Value) -> bool
    ensures { result ≡ spec.fit_together a.now b.now }
{
    size(a).saturating_add(size(b)) <= LARGEST_SIZE + 1 && nest(a).max(nest(b)) <= DEEPEST_NESTING
}

/// Whether a tuple that isn't empty is within the limits so many times over.
pub(crate) fn fits_repeated(a: &Value, n: u128) -> bool
    requires { 1 ≤ n }
    ensures { result ≡ spec.fits_repeated a.now n }
{
    let members = size(a).saturating_sub(1) as u128;
    n.saturating_mul(members) < LARGEST_SIZE as u128 && nest(a) <= DEEPEST_NESTING
}

/// The members of one tuple and then those of the other.
pub(crate) fn join_members(
    alloc: Global,
    xs: &[Value],
    ys: &[Value],
) -> Result<List<Value>, NoMemory>
    ensures { IfOk result (λ members. members ≡ xs.now ++ ys.now) }
{
    let mut members = List::new(alloc);
    append(alloc, &mut members, xs)?;
    append(alloc, &mut members, ys)?;
    Ok(members)
}

/// The members so many times over.
pub(crate) fn repeat_members(alloc: Global, xs: &[Value], n: u128) -> Result<List<Value>, NoMemory>
    ensures { IfOk result (λ members. members ≡ repeat n xs.now) }
{
    let mut members = List::new(alloc);
    for _ in 0..n {
        append(alloc, &mut members, xs)?;
    }
    Ok(members)
}

fn append(alloc: Global, members: &mut List<Value>, more: &[Value]) -> Result<(), NoMemory>
    ensures { OnOk result (members.new ≡ members.old ++ more.now) }
{
    for member in more {
        members.add(try_copy(alloc, member)?)?;
    }
    Ok(())
}
