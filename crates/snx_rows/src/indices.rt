//! Indices of rows.

ghost use Rattle.std.specs.Prelude.{◌≡◌, ◌≤◌, length, true};
ghost use Rattle.std.specs.List.{list_all};
ghost use Rattle.std.specs.Char.{is_ascii_digit};
ghost use Rattle.decimal_e.specs.Digits.{number};
ghost use Rattle.snx_rows.specs.Indices.{index_of, index_on};

use snx_lines::{Line, field};

/// The most digits of an index.
const MOST_DIGITS: usize = 5;

/// Whether a text is digits alone.
fn is_digits(text: &[u8]) -> bool
    ensures { result ≡ list_all is_ascii_digit text.now }
{
    text.iter().all(|b| b.is_ascii_digit())
}

/// The number that at most five digits write.
fn number_of(digits: &[u8]) -> u32
    requires few { length digits.now ≤ 5 }
    requires digits { list_all is_ascii_digit digits.now ≡ true }
    ensures { result ≡ number digits.now }
{
    let mut number = 0_u32;
    for byte in digits {
        number = number * 10 + u32::from(*byte - b'0');
    }
    number
}

/// The index that a text without blanks at its ends writes, if it does.
pub fn index_of(text: &[u8]) -> Option<u32>
    ensures { result ≡ index_of text.now }
{
    if text.len() > MOST_DIGITS || !is_digits(text) {
        return None;
    }
    let number = number_of(text);
    if number >= 1 { Some(number) } else { None }
}

/// The index in columns 2 to 6 of a line: a number from 1 to 99999 in digits, with zeros before it or without. None where anything else
/// stands there.
pub fn read_index(line: &Line) -> Option<u32>
    ensures { result ≡ index_on line.now.text.now }
{
    index_of(field(line, 2, 6))
}
