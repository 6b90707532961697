//! What the texts of a control file may be.

ghost use Rattle.std.specs.Prelude.{◌≡◌, ◌&&◌, nat_le, length, IfSome};
ghost use Rattle.std.specs.List.{list_all};
ghost use Rattle.snx_epoch.specs.Moments.{IsMoment, epoch_in};
ghost use Rattle.param_ids.specs.Texts.{is_plain, is_plain_byte};
ghost use Rattle.control_doc.specs.Texts as spec;

use crate::plans::{Form, Held, Place};
use blanks::trim;
use param_ids::{code_of, kind_of, point_of, soln_of};
use snx_epoch::{Epoch, read_epoch};

/// The most bytes of a text of the header.
const MOST_OF_HEADER: usize = 60;

/// The bytes of a moment.
const MOMENT: usize = 12;

fn is_shown(byte: u8) -> bool
    ensures { result ≡ spec.is_shown byte }
{
    byte >= 33 && byte <= 126
}

fn may_stand(byte: u8) -> bool
    ensures { result ≡ is_plain_byte byte }
{
    byte >= 32 && byte <= 126
}

fn all_shown(text: &[u8]) -> bool
    ensures { result ≡ list_all spec.is_shown text.now }
{
    text.iter().all(|byte| is_shown(*byte))
}

/// Whether all bytes are from 32 to 126.
pub(crate) fn is_plain(text: &[u8]) -> bool
    ensures { result ≡ is_plain text.now }
{
    text.iter().all(|byte| may_stand(*byte))
}

/// Whether a text has so many bytes that show, from the least number to the greatest.
pub(crate) fn is_shown_in(least: usize, most: usize, text: &[u8]) -> bool
    ensures { result ≡ (nat_le least (length text.now) && nat_le (length text.now) most && list_all spec.is_shown text.now) }
{
    least <= text.len() && text.len() <= most && all_shown(text)
}

/// Whether a text may stand in the header.
pub(crate) fn is_header_text(text: &[u8]) -> bool
    ensures { result ≡ (nat_le (length text.now) 60 && is_plain text.now) }
{
    text.len() <= MOST_OF_HEADER && is_plain(text)
}

/// An agency, of 3 bytes that show.
pub(crate) fn agency_text(text: &[u8]) -> Option<[u8; 3]>
    ensures { result ≡ spec.agency_text text.now }
{
    if !all_shown(text) {
        return None;
    }
    match text {
        [a, b, c] => Some([*a, *b, *c]),
        _ => None,
    }
}

/// One letter from A to Z.
pub(crate) fn letter(text: &[u8]) -> Option<u8>
    ensures { result ≡ spec.letter text.now }
{
    match text {
        [byte] => {
            if *byte >= b'A' && *byte <= b'Z' {
                Some(*byte)
            } else {
                None
            }
        }
        _ => None,
    }
}

fn moment_of(text: &[u8]) -> Option<Epoch>
    ensures value { result ≡ spec.moment_of (epoch_in text.now) }
    ensures range { IfSome result IsMoment }
{
    match read_epoch(text) {
        Ok(moment) => Some(moment),
        Err(_) => None,
    }
}

/// A moment in 12 bytes.
pub(crate) fn created_text(text: &[u8]) -> Option<Epoch>
    ensures value { result ≡ spec.created_text text.now }
    ensures range { IfSome result IsMoment }
{
    if text.len() != MOMENT {
        return None;
    }
    moment_of(text)
}

/// The moment of a name.
pub(crate) fn epoch_of_name(text: &[u8]) -> Option<Epoch>
    ensures value { result ≡ spec.epoch_text_of_name text.now }
    ensures range { IfSome result IsMoment }
{
    if text.len() > MOMENT {
        return None;
    }
    moment_of(text)
}

/// The type of a name.
pub(crate) fn kind_of_name(text: &[u8]) -> Option<[u8; 6]>
    ensures { result ≡ spec.kind_of_name text.now }
{
    if text.len() > 6 {
        return None;
    }
    kind_of(trim(text))
}

/// The code of a name.
pub(crate) fn code_of_name(text: &[u8]) -> Option<[u8; 4]>
    ensures { result ≡ spec.code_of_name text.now }
{
    if text.len() > 4 {
        return None;
    }
    code_of(trim(text))
}

/// The point of a name.
pub(crate) fn point_of_name(text: &[u8]) -> Option<[u8; 2]>
    ensures { result ≡ spec.point_of_name text.now }
{
    if text.len() > 2 {
        return None;
    }
    point_of(trim(text))
}

/// The solution of a name.
pub(crate) fn soln_of_name(text: &[u8]) -> Option<[u8; 4]>
    ensures { result ≡ spec.soln_of_name text.now }
{
    if text.len() > 4 {
        return None;
    }
    soln_of(trim(text))
}

/// From which of its blocks a file is taken.
pub(crate) fn form_text(text: &str) -> Option<Form>
    ensures { result ≡ spec.form_text text.now }
{
    if text == "auto" {
        Some(Form::Auto)
    } else if text == "neq" {
        Some(Form::Neq)
    } else if text == "solution" {
        Some(Form::Solution)
    } else {
        None
    }
}

/// Which of its constraints are removed.
pub(crate) fn held_text(text: &str) -> Option<Held>
    ensures { result ≡ spec.held_text text.now }
{
    if text == "auto" {
        Some(Held::Auto)
    } else if text == "matrix" {
        Some(Held::Matrix)
    } else if text == "sigma" {
        Some(Held::Sigma)
    } else if text == "none" {
        Some(Held::Nothing)
    } else {
        None
    }
}

/// Where a parameter is reduced.
pub(crate) fn place_text(text: &str) -> Option<Place>
    ensures { result ≡ spec.place_text text.now }
{
    if text == "file" {
        Some(Place::File)
    } else if text == "group" {
        Some(Place::Group)
    } else if text == "end" {
        Some(Place::End)
    } else {
        None
    }
}
