//! Lists of words by their length: one word alone, two, or four.

ghost use Rattle.std.specs.Prelude.{◌≡◌, ◌≢◌, [], ◌∷◌, map, IfSome, IfNone, IsTrue, ◌↔◌, length};
ghost use Rattle.std.specs.String.{string_bytes};

/// The only word of a list.
pub(crate) fn only(words: &[String]) -> Option<&str>
    ensures some { IfSome result (λ word. map string_bytes words.now ≡ word.now ∷ []) }
    ensures none { IfNone result (length words.now ≢ 1) }
{
    let [word] = words else {
        return None;
    };
    Some(word.as_str())
}

/// The words of a list of two.
pub(crate) fn two(words: &[String]) -> Option<(&str, &str)>
    ensures some { IfSome result (λ its. map string_bytes words.now ≡ its.0.now ∷ its.1.now ∷ []) }
    ensures none { IfNone result (length words.now ≢ 2) }
{
    let [first, second] = words else {
        return None;
    };
    Some((first.as_str(), second.as_str()))
}

/// The words of a list of four.
pub(crate) fn four(words: &[String]) -> Option<(&str, &str, &str, &str)>
    ensures some { IfSome result (λ its. map string_bytes words.now
        ≡ its.0.now ∷ its.1.now ∷ its.2.now ∷ its.3.now ∷ []) }
    ensures none { IfNone result (length words.now ≢ 4) }
{
    let [first, second, third, fourth] = words else {
        return None;
    };
    Some((
        first.as_str(),
        second.as_str(),
        third.as_str(),
        fourth.as_str(),
    ))
}

/// Whether a word is this one.
pub(crate) fn is_word(word: &str, text: &str) -> bool
    ensures { IsTrue result ↔ (word.now ≡ text.now) }
{
    word == text
}
