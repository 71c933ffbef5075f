//! The error line.
ghost use Rattle.std.specs.Prelude.{◌≡◌, IsErr, OnOk, OnErr};
ghost use Rattle.pyd_source.specs.Content.{Added, AddedPrefix};
ghost use Rattle.pyd_source.specs.Faults.{Counted};
ghost use Rattle.pyd_top.specs.Errors.{error_of, in_line, placed, kind_text, lex_line, limit_text, parse_line, rule_text};

use crate::conclusion::Conclusion;
use itoa::Buffer;
use pyd_grammar::ParseFault;
use pyd_lex::LexFault;
use pyd_scope::Refusal;
use pyd_source::{Short, Sink, put_all};
use pyd_value::{Kind, Limit};

/// Puts the error line of a conclusion, none where there is nothing to say.
pub(crate) fn put_error<E: Sink>(err: &mut E, conclusion: Conclusion) -> Result<(), Short>
    ensures ok { OnOk result (Added (E.held err.old) (error_of conclusion) (E.held err.new)) }
    ensures err { OnErr result (AddedPrefix (E.held err.old) (error_of conclusion)
        (E.held err.new)) }
    ensures cause { Counted (E.faults err.old) (E.faults err.new) (IsErr result) }
{
    match conclusion {
        Conclusion::Done => Ok(()),
        Conclusion::Raised(kind, line) => put_in_line(err, kind_name(kind), line),
        Conclusion::Limit(limit, line) => put_in_line(err, limit_name(limit), line),
        Conclusion::Words => put_all(err, b"WORDS Line\n"),
        Conclusion::TooLong => put_all(err, b"REFUSED TooLong\n"),
        Conclusion::Lex(fault) => put_lex(err, fault),
        Conclusion::Parse(fault) => put_parse(err, fault),
        Conclusion::Scope(refusal) => put_in_line(err, rule_name(refusal), refusal.line()),
        Conclusion::ReadFault => put_all(err, b"FAULT read\n"),
        Conclusion::SinkFault => put_all(err, b"FAULT sink\n"),
        Conclusion::NoMemory => put_all(err, b"FAULT memory\n"),
    }
}

/// Puts the line of a fault of tokens.
fn put_lex<E: Sink>(err: &mut E, fault: LexFault) -> Result<(), Short>
    ensures ok { OnOk result (Added (E.held err.old) (lex_line fault) (E.held err.new)) }
    ensures err { OnErr result (AddedPrefix (E.held err.old) (lex_line fault) (E.held err.new)) }
    ensures cause { Counted (E.faults err.old) (E.faults err.new) (IsErr result) }
{
    match fault {
        LexFault::Utf8(byte) => put_placed(err, b"REFUSED Utf8", b": byte ", byte),
        LexFault::BadChar(line) => put_in_line(err, b"REFUSED BadChar", line),
        LexFault::BadName(line) => put_in_line(err, b"REFUSED BadName", line),
        LexFault::BadNumber(line) => put_in_line(err, b"REFUSED BadNumber", line),
        LexFault::WideNumber(line) => put_in_line(err, b"REFUSED WideNumber", line),
        LexFault::BadString(line) => put_in_line(err, b"REFUSED BadString", line),
        LexFault::Tab(line) => put_in_line(err, b"REFUSED Tab", line),
        LexFault::BadDedent(line) => put_in_line(err, b"REFUSED BadDedent", line),
    }
}

/// Puts the line of a fault of the grammar.
fn put_parse<E: Sink>(err: &mut E, fault: ParseFault) -> Result<(), Short>
    ensures ok { OnOk result (Added (E.held err.old) (parse_line fault) (E.held err.new)) }
    ensures err { OnErr result (AddedPrefix (E.held err.old) (parse_line fault) (E.held err.new)) }
    ensures cause { Counted (E.faults err.old) (E.faults err.new) (IsErr result) }
{
    match fault {
        ParseFault::Syntax(line) => put_in_line(err, b"REFUSED Syntax", line),
        ParseFault::Deep(line) => put_in_line(err, b"REFUSED Deep", line),
        ParseFault::Target(line) => put_in_line(err, b"REFUSED Target", line),
    }
}

fn rule_name(refusal: Refusal) -> &'static [u8]
    ensures { result.now ≡ rule_text refusal }
{
    match refusal {
        Refusal::TwiceDefined(_) => b"REFUSED TwiceDefined",
        Refusal::Rebind(_) => b"REFUSED Rebind",
        Refusal::FunctionValue(_) => b"REFUSED FunctionValue",
        Refusal::CallOfVariable(_) => b"REFUSED CallOfVariable",
        Refusal::GlobalRead(_) => b"REFUSED GlobalRead",
        Refusal::Impure(_) => b"REFUSED Impure",
        Refusal::ReturnOutside(_) => b"REFUSED ReturnOutside",
        Refusal::BreakOutside(_) => b"REFUSED BreakOutside",
        Refusal::LateDef(_) => b"REFUSED LateDef",
        Refusal::NotConstant(_) => b"REFUSED NotConstant",
        Refusal::Decorator(_) => b"REFUSED Decorator",
        Refusal::TwiceParameter(_) => b"REFUSED TwiceParameter",
    }
}

fn kind_name(kind: Kind) -> &'static [u8]
    ensures { result.now ≡ kind_text kind }
{
    match kind {
        Kind::NameError => b"NameError",
        Kind::UnboundLocalError => b"UnboundLocalError",
        Kind::TypeError => b"TypeError",
        Kind::ValueError => b"ValueError",
        Kind::IndexError => b"IndexError",
        Kind::ZeroDivisionError => b"ZeroDivisionError",
        Kind::AssertionError => b"AssertionError",
    }
}

fn limit_name(limit: Limit) -> &'static [u8]
    ensures { result.now ≡ limit_text limit }
{
    match limit {
        Limit::Turn => b"LIMIT TurnLimit",
        Limit::Depth => b"LIMIT DepthLimit",
        Limit::Int => b"LIMIT IntLimit",
        Limit::Size => b"LIMIT SizeLimit",
        Limit::Outside => b"LIMIT Outside",
    }
}

/// Puts a text, the line that it speaks of, and a newline.
fn put_in_line<E: Sink>(err: &mut E, text: &[u8], line: u32) -> Result<(), Short>
    ensures ok { OnOk result (Added (E.held err.old) (in_line text.now line) (E.held err.new)) }
    ensures err { OnErr result (AddedPrefix (E.held err.old) (in_line text.now line)
        (E.held err.new)) }
    ensures cause { Counted (E.faults err.old) (E.faults err.new) (IsErr result) }
{
    put_placed(err, text, b": line ", line)
}

/// Puts a text, the place that it speaks of, and a newline.
fn put_placed<E: Sink>(err: &mut E, text: &[u8], place: &[u8], number: u32) -> Result<(), Short>
    ensures ok { OnOk result
        (Added (E.held err.old) (placed text.now place.now number) (E.held err.new)) }
    ensures err { OnErr result
        (AddedPrefix (E.held err.old) (placed text.now place.now number) (E.held err.new)) }
    ensures cause { Counted (E.faults err.old) (E.faults err.new) (IsErr result) }
{
    let mut buffer = Buffer::new();
    put_all(err, text)?;
    put_all(err, place)?;
    put_all(err, buffer.format(number).as_bytes())?;
    put_all(err, b"\n")
}
