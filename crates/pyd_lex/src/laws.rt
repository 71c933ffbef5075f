//! Laws of the relation between bytes and tokens, each proved by the contract of an empty function.

ghost use Rattle.pyd_lex.specs.Laws.{OneAnswer, AnAnswer, FirstFault, LinesWhole, AllGood, Spelled};
ghost use Rattle.pyd_lex.specs.TokenBytes.{TokenBytes, TokenTexts};

/// Bytes have no two answers, so what `tokens` answers is the only one.
pub fn one_answer()
    ensures { OneAnswer }
{}

/// All bytes have tokens or a fault.
pub fn an_answer()
    ensures { AnAnswer }
{}

/// A fault comes exactly at the end of the longest front part of the text that is good: its pieces
/// have no flaw, and no logical line, unless blank, has a tab in its indentation (`Tab`) or a width
/// that is no open line's (`BadDedent`).
pub fn first_fault()
    ensures { FirstFault }
{}

/// The logical lines are all pieces of the cut, in their order.
pub fn lines_whole()
    ensures { LinesWhole }
{}

/// Tokens come only where all pieces of the cut are good.
pub fn all_good()
    ensures { AllGood }
{}

/// The bytes of each piece of the cut are the piece, so `text_of` gives a string token's value.
pub fn spelled()
    ensures { Spelled }
{}

/// The tokens of bytes stand in them in order, and their bytes are in UTF-8 and spell them; the end
/// comes last and only there, and each indent has its dedent.
pub fn token_bytes()
    ensures { TokenBytes }
{}

/// A text that means a token spells one of its kind: a name, a keyword, an integer of this value, a
/// string or a mark.
pub fn token_texts()
    ensures { TokenTexts }
{}
