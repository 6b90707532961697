//! The texts of which a name is made.

ghost use Rattle.std.specs.Prelude.{◌≡◌, length};
ghost use Rattle.std.specs.List.{list_all};
ghost use Rattle.std.specs.Char.{is_ascii_digit};
ghost use Rattle.param_ids.specs.Texts.{at_or_blank, in_2, in_4, in_6, is_plain_byte, is_plain, fits, without_zeros, plain_soln, kind_text, code_text, point_text, soln_text, unit_text};

fn byte_at(text: &[u8], i: usize) -> u8
    ensures { result ≡ at_or_blank text.now i }
{
    if i < text.len() { text[i] } else { b' ' }
}

/// A text in two bytes.
fn padded_2(text: &[u8]) -> [u8; 2]
    ensures { result ≡ in_2 text.now }
{
    [byte_at(text, 0), byte_at(text, 1)]
}

/// A text in four bytes.
fn padded_4(text: &[u8]) -> [u8; 4]
    ensures { result ≡ in_4 text.now }
{
    [
        byte_at(text, 0),
        byte_at(text, 1),
        byte_at(text, 2),
        byte_at(text, 3),
    ]
}

/// A text in six bytes.
fn padded_6(text: &[u8]) -> [u8; 6]
    ensures { result ≡ in_6 text.now }
{
    [
        byte_at(text, 0),
        byte_at(text, 1),
        byte_at(text, 2),
        byte_at(text, 3),
        byte_at(text, 4),
        byte_at(text, 5),
    ]
}

fn may_stand(b: u8) -> bool
    ensures { result ≡ is_plain_byte b }
{
    b >= 32 && b <= 126
}

fn all_may_stand(text: &[u8]) -> bool
    ensures { result ≡ is_plain text.now }
{
    text.iter().all(|b| may_stand(*b))
}

#[tactic(auto, using(crate::proofs::Zeros::zeros_step, crate::proofs::Zeros::zeros_done))]
fn drop_zeros<'a>(text: &'a [u8]) -> &'a [u8]
    ensures { result.now ≡ without_zeros text.now }
{
    let mut rest = text;
    while rest.len() >= 2 && rest[0] == b'0' {
        rest = &rest[1..];
    }
    rest
}

fn is_number(text: &[u8]) -> bool
    ensures { result ≡ list_all is_ascii_digit text.now }
{
    text.iter().all(|b| b.is_ascii_digit())
}

/// A solution, without leading zeros where it is a number.
fn plain_soln<'a>(text: &'a [u8]) -> &'a [u8]
    ensures { result.now ≡ plain_soln text.now }
{
    if is_number(text) {
        drop_zeros(text)
    } else {
        text
    }
}

/// Whether a text has at most so many bytes, and each may stand in a name.
fn fits(text: &[u8], most: usize) -> bool
    ensures { result ≡ fits most text.now }
{
    text.len() <= most && all_may_stand(text)
}

/// The type that a text is in a name, without blanks at its ends: none where it is empty or over 6 bytes long, or has a byte not from 32 to 126.
pub fn kind_of(text: &[u8]) -> Option<[u8; 6]>
    ensures { result ≡ kind_text text.now }
{
    if text.len() > 0 && fits(text, 6) {
        Some(padded_6(text))
    } else {
        None
    }
}

/// The code that a text is in a name, without blanks at its ends: none where it is over 4 bytes long, or has a byte not from 32 to 126.
pub fn code_of(text: &[u8]) -> Option<[u8; 4]>
    ensures { result ≡ code_text text.now }
{
    if fits(text, 4) {
        Some(padded_4(text))
    } else {
        None
    }
}

/// The point that a text is in a name, without blanks at its ends: none where it is over 2 bytes long, or has a byte not from 32 to 126.
pub fn point_of(text: &[u8]) -> Option<[u8; 2]>
    ensures { result ≡ point_text text.now }
{
    if fits(text, 2) {
        Some(padded_2(text))
    } else {
        None
    }
}

/// The solution that a text is in a name, without blanks at its ends: a number loses its leading zeros. None where the text is over 4 bytes
/// long, or has a byte not from 32 to 126.
pub fn soln_of(text: &[u8]) -> Option<[u8; 4]>
    ensures { result ≡ soln_text text.now }
{
    if fits(text, 4) {
        Some(padded_4(plain_soln(text)))
    } else {
        None
    }
}

/// The unit that a text is, without blanks at its ends: none where it is over 4 bytes long, or has a byte not from 32 to 126.
pub fn unit_of(text: &[u8]) -> Option<[u8; 4]>
    ensures { result ≡ unit_text text.now }
{
    code_of(text)
}
