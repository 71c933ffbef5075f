//! The modes of the program, and the words that choose them.
ghost use Rattle.std.specs.Prelude.{◌≡◌, ◌↔◌, [], ◌∷◌, map, string_bytes, IsTrue, IsNone, IfSome};
ghost use Rattle.pyd_top.specs.Modes.{Choose, AreFaulty};

/// What the program does with its source.
#[derive(Clone, Copy, Debug, PartialEq, Eq)]
pub enum Mode {
    /// Runs it.
    Run,
    /// Says whether it is accepted, or its first fault.
    Check,
    /// Writes the graph that it begins with.
    Graph,
}

impl Mode {
    /// The mode that the words behind the program's name choose: its word stands alone.
    pub fn of(words: &[String]) -> Option<Mode>
        ensures found { IfSome result (Choose words.now) }
        ensures none { IsNone result → AreFaulty words.now }
    {
        if is_alone(words, "run") {
            return Some(Mode::Run);
        }
        if is_alone(words, "check") {
            return Some(Mode::Check);
        }
        if is_alone(words, "graph") {
            return Some(Mode::Graph);
        }
        None
    }
}

/// Whether this word stands alone.
fn is_alone(words: &[String], word: &str) -> bool
    ensures { IsTrue result ↔ (map string_bytes words.now ≡ word.now ∷ []) }
{
    words.len() == 1 && words[0].as_str() == word
}
