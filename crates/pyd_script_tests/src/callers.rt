//! The callers that the pages of `pyd_source` and `pyd_lex` on calling show.
ghost use Rattle.std.specs.Prelude.{◌<◌, [], ◌∷◌, ◌++◌, length, IfSome, OnOk, OnErr, IsErr, Ok};
ghost use Rattle.std.specs.Str.{chars};
ghost use Rattle.pyd_source.specs.Content.{Added, AddedPrefix};
ghost use Rattle.pyd_source.specs.Faults.{Counted};
ghost use Rattle.pyd_lex.specs.Reads.{Reads};
ghost use Rattle.pyd_lex.specs.TokenBytes.{IsName};

use pyd_lex::{Token, TokenKind, name_of, token_bytes};
use pyd_source::{Failed, Sink, put_all};

/// Puts a line, and then a line feed.
pub fn put_line<K: Sink>(sink: &mut K, line: &[u8]) -> Result<(), Failed>
    ensures ok { OnOk result (Added (K.held sink.old) (line.now ++ 10 ∷ []) (K.held sink.new)) }
    ensures err { OnErr result
        (AddedPrefix (K.held sink.old) (line.now ++ 10 ∷ []) (K.held sink.new)) }
    ensures cause { Counted (K.faults sink.old) (K.faults sink.new) (IsErr result) }
{
    put_all(sink, line).or(Err(Failed))?;
    put_all(sink, b"\n").or(Err(Failed))
}

/// The name that token number `at` of a source is, if it is one.
pub fn name_at<'a>(bytes: &'a [u8], tokens: &[Token], at: usize) -> Option<&'a str>
    requires reads { Reads bytes.now (Ok tokens.now) }
    requires within { at < length tokens.now }
    ensures { IfSome result (λ name. IsName (chars name.now)) }
{
    token_bytes();
    let token = &tokens[at];
    if token.kind == TokenKind::Name {
        Some(name_of(bytes, token))
    } else {
        None
    }
}
