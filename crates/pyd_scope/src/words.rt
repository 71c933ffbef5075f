//! Names that mean something to the rules.
ghost use Rattle.std.specs.Prelude.{◌≡◌, IsTrue};
ghost use Rattle.std.specs.List.{list_all};
ghost use Rattle.std.specs.Char.{is_ascii};
ghost use Rattle.pyd_names.specs.Binding.{same_name, is_among};
ghost use Rattle.pyd_scope.specs.Rules as rule;

use pyd_value::Text;

/// Whether a name is this word, which is ASCII.
pub fn is_word(name: &Text, word: &str) -> bool
    requires { IsTrue (list_all is_ascii word.now) }
    ensures { result ≡ same_name name.now word.now }
{
    name.as_str() == word
}

/// Whether a name is one that `pydron` has.
pub fn is_mark(name: &Text) -> bool
    ensures { result ≡ is_among rule.mark_names name.now }
{
    is_word(name, "schedule") || is_word(name, "functional")
}
