//! Blanks in texts.
#![tactic(auto)]

ghost use Rattle.std.specs.Prelude.{◌≡◌};
ghost use Rattle.blanks.specs.Blanks.{is_blank, is_blank_text, front_trimmed, end_trimmed, trimmed};

/// Whether a byte is a blank: a space or a tab.
pub fn is_blank(b: u8) -> bool
    ensures { result ≡ is_blank b }
{
    b == b' ' || b == b'\t'
}

/// Whether a text has blanks alone; an empty one does.
pub fn is_all_blank(text: &[u8]) -> bool
    ensures { result ≡ is_blank_text text.now }
{
    text.iter().all(|b| is_blank(*b))
}

/// A text without the blanks at its front.
pub fn trim_front<'a>(text: &'a [u8]) -> &'a [u8]
    ensures { result.now ≡ front_trimmed text.now }
{
    let mut rest = text;
    while let [b' ' | b'\t', tail @ ..] = rest {
        rest = tail;
    }
    rest
}

/// A text without the blanks at its end.
pub fn trim_end<'a>(text: &'a [u8]) -> &'a [u8]
    ensures { result.now ≡ end_trimmed text.now }
{
    let mut rest = text;
    while let [head @ .., b' ' | b'\t'] = rest {
        rest = head;
    }
    rest
}

/// A text without the blanks at both ends.
pub fn trim<'a>(text: &'a [u8]) -> &'a [u8]
    ensures { result.now ≡ trimmed text.now }
{
    trim_end(trim_front(text))
}
