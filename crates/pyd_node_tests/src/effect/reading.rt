//! Heads, values and what is settled, written in words.
ghost use Rattle.std.specs.Prelude.{◌≡◌, false, IfOk};
ghost use Rattle.pyd_ir.specs.Arguments.{is_composite};

use pyd_effect::Settled;
use pyd_ir::{Arg, Node, OpCode, Work};
use pyd_meaning::Ran;
use pyd_value::{BinOp, End, Fault, Kind, Limit, List, NoMemory, Outcome, Text, Value};
use std::alloc::Global;

pub(super) const NODE: u64 = 7;

pub(super) const LINE: u32 = 3;

// A head of this kind; its arguments don't matter.
pub(super) fn head(alloc: Global, kind: &str) -> Result<Node, NoMemory>
    ensures { IfOk result (λ node. is_composite node.work ≡ false) }
{
    Ok(Node {
        id: NODE,
        line: LINE,
        depth: 0,
        routine: 0,
        work: work(alloc, kind),
    })
}

fn work(alloc: Global, kind: &str) -> Work
    ensures { is_composite result ≡ false }
{
    let args = List::new(alloc);
    match kind {
        "op" => Work::Op {
            op: OpCode::Binary(BinOp::Add),
            args,
        },
        "read" => Work::Read {
            arg: Arg::Unbound,
            kind: Kind::NameError,
        },
        "call" => Work::Call { func: 1, args },
        "print" => Work::Print(args),
        "run" => Work::Run { func: 1, args },
        _ => Work::Stop(Fault::Raised(Kind::TypeError, LINE)),
    }
}

// Values divided by spaces: a text behind a quote, or a number; any other mark is an absent value.
pub(super) fn inputs(alloc: Global, words: &str) -> Result<List<Option<Value>>, NoMemory> {
    let mut inputs = List::new(alloc);
    for word in words.split_whitespace() {
        inputs.add(input(alloc, word)?)?;
    }
    Ok(inputs)
}

fn input(alloc: Global, word: &str) -> Result<Option<Value>, NoMemory> {
    if let Some(text) = word.strip_prefix('\'') {
        return Ok(Some(Value::Text(Text::of(alloc, text)?)));
    }
    match word.parse::<i128>() {
        Ok(n) => Ok(Some(Value::Int(n))),
        Err(_) => Ok(None),
    }
}

// A value or a fault, with lines behind bars.
pub(super) fn ran(alloc: Global, words: &str) -> Result<Option<Ran>, NoMemory> {
    let lines = lines(alloc, words)?;
    match first(words) {
        "value" => Ok(Some(Ran {
            outcome: Outcome::Ok(Value::None),
            lines,
        })),
        "fault" => Ok(Some(Ran {
            outcome: Outcome::Fault(Fault::Raised(Kind::TypeError, LINE)),
            lines,
        })),
        "limit" => Ok(Some(Ran {
            outcome: Outcome::Fault(Fault::Limit(Limit::Turn, LINE)),
            lines,
        })),
        _ => Ok(None),
    }
}

// What is settled, with lines behind bars.
pub(super) fn settled(alloc: Global, words: &str) -> Result<Settled, NoMemory> {
    let lines = lines(alloc, words)?;
    match first(words) {
        "passed" => Ok(Settled::Passed(lines)),
        "raised" => Ok(Settled::Ended(lines, End::Raised(Kind::TypeError, LINE))),
        "size" => Ok(Settled::Ended(lines, End::Limit(Limit::Size, LINE))),
        "limited" => Ok(Settled::Ended(lines, End::Limit(Limit::Turn, LINE))),
        _ => Ok(Settled::Waits(NODE)),
    }
}

fn first(words: &str) -> &str {
    words.split('|').next().unwrap_or("")
}

fn lines(alloc: Global, words: &str) -> Result<List<Text>, NoMemory> {
    let mut lines = List::new(alloc);
    for line in words.split('|').skip(1) {
        lines.add(Text::of(alloc, line)?)?;
    }
    Ok(lines)
}

// So many times the letter a, by doubling: the binary digits of the number are handed in.
pub(super) fn repeated(alloc: Global, digits: &str) -> Result<Text, NoMemory> {
    let mut text = String::new(alloc);
    for digit in digits.chars() {
        let half = String::from_str(alloc, text.as_str())?;
        text.push_str(half.as_str())?;
        if digit == '1' {
            text.push('a')?;
        }
    }
    Text::from_string(alloc, text)
}
