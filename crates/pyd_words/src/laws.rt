//! What the definitions promise beyond their text. The functions have empty bodies, and their contracts are the laws.
ghost use Rattle.pyd_words.specs.Laws.{LineIsRefused, EventsRise, SameEventAsWritten, PlansAreSound};

/// `Line` is the answer exactly where the command's own definition finds a fault in the words.
pub fn line_is_what_the_command_refuses()
    ensures { LineIsRefused }
{}

/// The losses of a plan are sorted by their events, and the sort is stable.
pub fn losses_are_in_order()
    ensures rising { EventsRise }
    ensures stable { SameEventAsWritten }
{}

/// A plan has numbers within their limits and losses in order, each of another machine that is
/// there, and a machine is left.
pub fn plans_are_sound()
    ensures { PlansAreSound }
{}
