//! Names and keywords.

ghost use Rattle.std.specs.Prelude.{◌≡◌, IfOk, IfErr, Ok, Err};
ghost use Rattle.pyd_lex.specs.Meaning as spec;
ghost use Rattle.pyd_lex.specs.Stops.{IfFlaw};
ghost use Rattle.pyd_lex.specs.Words.{keyword};

use crate::TokenKind;
use crate::fault::{Flaw, Stop};
use crate::word::keyword;
use std::alloc::{AllocError, Global};
use unicode_normalization::IsNormalized;
use unicode_normalization::slice::{extend_nfkc, is_nfkc_quick};

/// The keyword or the other name that a run of name characters is.
#[tactic(auto, unfolding(crate::specs::Meaning::name))]
pub fn name(alloc: Global, text: &[char]) -> Result<TokenKind, Stop>
    ensures ok { IfOk result (λ k. spec.name text.now ≡ Ok k) }
    ensures flaw { IfErr result (λ e. IfFlaw e (λ f. spec.name text.now ≡ Err f)) }
{
    match in_nfkc(alloc, text) {
        Ok(true) => Ok(known(text)),
        Ok(false) => Err(Stop::Flaw(Flaw::BadName)),
        Err(AllocError) => Err(Stop::NoMemory),
    }
}

fn known(text: &[char]) -> TokenKind
    ensures { result ≡ spec.known (keyword text.now) }
{
    match keyword(text) {
        Some(word) => TokenKind::Word(word),
        None => TokenKind::Name,
    }
}

fn in_nfkc(alloc: Global, text: &[char]) -> Result<bool, AllocError>
    ensures { IfOk result (λ yes. yes ≡ spec.in_nfkc text.now) }
{
    match is_nfkc_quick(text) {
        IsNormalized::Yes => Ok(true),
        IsNormalized::No => Ok(false),
        IsNormalized::Maybe => {
            let mut composed = Vec::new(alloc);
            extend_nfkc(&mut composed, text)?;
            Ok(composed.as_slice() == text)
        }
    }
}
