//! The laws of texts, each the contract of a function that does nothing.
ghost use Rattle.pyd_text.specs.Laws as law;

/// From operands within the limits on integers, size and nesting every text function gives values
/// within them.
pub fn texts_keep_limits()
    ensures { law.TextsKeepLimits }
{}

/// What `repr` says of each kind of value.
pub fn repr_goes_by_kind()
    ensures { law.ReprByKind }
{}

/// `str` of a text is that text, and of anything else its `repr`.
pub fn str_goes_by_kind()
    ensures { law.StrByKind }
{}

/// `line_of` is `line` as a text value: the characters of a printed line, or the same fault.
pub fn line_is_its_text()
    ensures { law.LineIsItsText }
{}

/// Double quotes stand round a text that has a single and no double quote, single quotes round any
/// other. A printable character stands as it is. A hexadecimal escape is the shortest that fits, in
/// lower case, and its digits write the character.
pub fn quotes_and_escapes()
    ensures { law.QuotingLaw }
{}

/// The text of an integer is read as that integer.
pub fn int_reads_what_str_writes()
    ensures { law.IntReadsStr }
{}
