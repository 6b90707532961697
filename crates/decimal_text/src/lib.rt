//! Decimals in E notation, as SINEX writes its numbers: rounded to nearest at so many digits.
#![tactic(auto)]

ghost use Rattle.decimal_text.specs.Texts.{OnePrinted, PrintsText, LeadingDigit, ExponentWithin, HasLength};

mod bytes;
mod print;
mod rounding;
#[cfg(test)]
mod tests;

pub use print::{is_printable, print_e};

/// At most one text of a number is right, and `e_text` is, of a known length; its first digit is not zero, and its exponent is bounded.
pub fn printed_texts()
    ensures one { OnePrinted }
    ensures text { PrintsText }
    ensures leading { LeadingDigit }
    ensures exponent { ExponentWithin }
    ensures length { HasLength }
{}
