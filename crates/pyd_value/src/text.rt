//! A text, as its characters.
ghost use Rattle.std.specs.Prelude.{◌≡◌, ◌↔◌, [], length, slice_get, encode_utf8_all, string_bytes, IfOk, IsTrue};
ghost use Rattle.std.specs.Str.{chars};
ghost use Rattle.std.specs.Char.{is_ascii};
ghost use Rattle.std.specs.List.{list_all};

use crate::NoMemory;
use std::alloc::Global;
use std::cmp::Ordering;
use std::marker::Model;
use std::sync::Arc;

/// A `String` that contracts see as the list of its characters. Copies share its bytes.
#[derive(Debug, Drop)]
pub struct Text {
    text: Arc<String, Global>,
    count: usize,
}

impl Model for Text {
    ghost use Rattle.std.specs.Prelude.{◌≡◌, List, ℕ, length, string_bytes};
    ghost use Rattle.std.specs.Str.{chars};
    ghost use Rattle.std.specs.Arc.{arc_value};

    ghost Value = { List ℕ };

    ghost view = { λ t. chars (string_bytes (arc_value t.text)) };

    ghost invariant = { λ t. t.count ≡ length (chars (string_bytes (arc_value t.text))) };
}

impl Text {
    /// A copy of this text.
    pub fn of(alloc: Global, s: &str) -> Result<Text, NoMemory>
        ensures { IfOk result (λ text. text ≡ chars s.now) }
    {
        Text::from_string(alloc, String::from_str(alloc, s)?)
    }

    /// This text, whose bytes stay where they are. Its characters are counted.
    pub fn from_string(alloc: Global, text: String) -> Result<Text, NoMemory>
        ensures { IfOk result (λ made. made ≡ chars (string_bytes text)) }
    {
        let count = text.as_str().chars().count();
        Text::from_counted(alloc, text, count)
    }

    /// This text, whose bytes stay where they are, of so many characters.
    pub fn from_counted(alloc: Global, text: String, count: usize) -> Result<Text, NoMemory>
        requires { count ≡ length (chars (string_bytes text)) }
        ensures { IfOk result (λ made. made ≡ chars (string_bytes text)) }
    {
        let text = Arc::new(alloc, text)?;
        Ok(Text { text, count })
    }

    /// The same text, whose bytes both share. The bytes aren't walked.
    pub fn try_clone(&self) -> Result<Text, NoMemory>
        ensures { IfOk result (λ copy. copy ≡ self.now) }
    {
        let text = Arc::try_clone(&self.text)?;
        Ok(Text {
            text,
            count: self.count,
        })
    }

    /// The text in UTF-8.
    pub fn as_str(&self) -> &str
        ensures characters { chars result.now ≡ self.now }
        ensures bytes { result.now ≡ encode_utf8_all self.now }
    {
        (*self.text).as_str()
    }

    pub fn is_empty(&self) -> bool
        ensures { IsTrue result ↔ (self.now ≡ []) }
    {
        self.count == 0
    }

    /// How many characters there are. They aren't walked.
    pub fn count(&self) -> usize
        ensures { result ≡ length self.now }
    {
        self.count
    }

    /// Whether each character is below 128, and so one byte of the text. They aren't walked.
    pub fn is_ascii(&self) -> bool
        ensures value { result ≡ list_all is_ascii self.now }
        ensures bytes { IsTrue result → encode_utf8_all self.now ≡ self.now }
    {
        self.count == self.as_str().len()
    }

    /// The character at a place, counted from 0, or none past the end. Where the text is ASCII none is
    /// walked.
    pub fn get(&self, at: usize) -> Option<char>
        ensures { result ≡ slice_get self.now at }
    {
        if self.is_ascii() {
            return Some(*self.as_str().as_bytes().get(at)? as char);
        }
        self.as_str().chars().nth(at)
    }
}

impl PartialEq for Text {
    ghost use Rattle.std.specs.Prelude.{nat_eq};
    ghost use Rattle.std.specs.Cmp.{partial_equiv_from_equiv};
    ghost use Rattle.std.specs.Cmp.Lexicographic.{pointwise, nat_list_eq_equiv};

    ghost eq = { pointwise nat_eq };

    ghost laws = { partial_equiv_from_equiv nat_list_eq_equiv };

    fn eq(&self, other: &Self) -> bool {
        self.as_str() == other.as_str()
    }
}

impl Eq for Text {
    ghost use Rattle.std.specs.Cmp.Lexicographic.{nat_list_eq_equiv};

    ghost laws = { nat_list_eq_equiv };
}

impl PartialOrd for Text {
    ghost use Rattle.std.specs.Prelude.{Some};
    ghost use Rattle.std.specs.Ordering.{nat_cmp};
    ghost use Rattle.std.specs.Cmp.Lexicographic.{slice_cmp, texts_po};

    ghost partial_cmp = { λ s t. Some (slice_cmp nat_cmp s t) };

    ghost laws = { texts_po };

    fn partial_cmp(&self, other: &Self) -> Option<Ordering> {
        Some(self.cmp(other))
    }
}

/// By code points, from the first character on (Python Language Reference, section 6.10.1).
impl Ord for Text {
    ghost use Rattle.std.specs.Prelude.{refl};
    ghost use Rattle.std.specs.Ordering.{nat_cmp};
    ghost use Rattle.std.specs.Cmp.Lexicographic.{slice_cmp, nat_list_cmp_total, texts_ties};

    ghost cmp = { slice_cmp nat_cmp };

    ghost total = { nat_list_cmp_total };

    ghost matches_partial_cmp = { λ s t. refl };

    ghost matches_eq = { texts_ties };

    fn cmp(&self, other: &Self) -> Ordering {
        self.as_str().chars().cmp(other.as_str().chars())
    }
}
