//! What the text of a trace determines. The functions have empty bodies, and their contracts are the laws.
ghost use Rattle.pyd_trace.specs.Laws.{OneDecimal, OneNewline, OneTrace, OneFirst, OneAnswer, SomeAnswer};

/// A number of a trace is its digits without a leading zero, and is spelled in no other way.
pub fn a_number_has_one_spelling()
    ensures { OneDecimal }
{}

/// The line of an event has one newline, at its end, so lines are counted by newlines.
pub fn a_line_has_one_newline()
    ensures { OneNewline }
{}

/// Bytes are the text of one list of events at most, so two lists have two texts.
pub fn a_trace_has_one_reading()
    ensures { OneTrace }
{}

/// Bytes have an answer and no second one: the events, another version, or the first line that is no event's.
pub fn bytes_have_one_answer()
    ensures some { SomeAnswer }
    ensures line { OneFirst }
    ensures answer { OneAnswer }
{}
