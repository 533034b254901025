//! A datagram, read field by field.

ghost use Rattle.std.specs.Prelude.{◌≡◌, ◌<◌, IfSome, Some};
ghost use Rattle.report_lines.specs.Reports.{checker_of_text, split, id_of_text, pass_of_text, report_of, all_there};
ghost use Rattle.report_lines.specs.Reports.{with_checker, with_id, with_word, without_feed, if_some};
ghost use Rattle.prefix_text.specs.Prefixes.{plain_number};

use check_lines::Observation;
use octets::{behind, front};
use prefix_text::{place_of, read_number};

/// The number of the last check that there can be.
const LAST_CHECK: u32 = 4_294_967_294;

/// The number of the last checker of an endpoint.
const LAST_CHECKER: u32 = 49;

/// The report that a datagram is: None where it is of another form.
#[tactic(auto, unfolding(crate::specs::Reports::report_of))]
pub fn read_report(datagram: &[u8]) -> Option<Observation>
    ensures same { result ≡ report_of datagram.now }
    ensures checker { IfSome result (λ seen. seen.checker < 50) }
{
    with_word(without_feed(datagram))
}

/// A datagram without one line feed at its end.
fn without_feed(datagram: &[u8]) -> &[u8]
    ensures { result.now ≡ without_feed datagram.now }
{
    let len = datagram.len();
    if len == 0 {
        return datagram;
    }
    if datagram[len - 1] == b'\n' {
        return front(datagram, len - 1);
    }
    datagram
}

/// The report from its word on.
fn with_word(text: &[u8]) -> Option<Observation>
    ensures same { result ≡ with_word (split text.now) }
    ensures checker { IfSome result (λ seen. seen.checker < 50) }
{
    let Some(at) = place_of(b' ', text) else {
        return None;
    };
    if front(text, at) == b"OBS".as_slice() {
        return with_id(behind(text, at + 1));
    }
    None
}

/// The report from its id on.
fn with_id(text: &[u8]) -> Option<Observation>
    ensures same { result ≡ with_id (split text.now) }
    ensures checker { IfSome result (λ seen. seen.checker < 50) }
{
    let Some(at) = place_of(b' ', text) else {
        return None;
    };
    with_checker(front(text, at), behind(text, at + 1))
}

/// The report of an id, from its checker on.
fn with_checker(id: &[u8], text: &[u8]) -> Option<Observation>
    ensures same { result ≡ with_checker id.now (split text.now) }
    ensures checker { IfSome result (λ seen. seen.checker < 50) }
{
    let Some(at) = place_of(b' ', text) else {
        return None;
    };
    told(
        id_of_text(id),
        checker_of_text(front(text, at)),
        pass_of_text(behind(text, at + 1)),
    )
}

/// What is told, where each part of it is.
fn told(id: Option<u32>, checker: Option<u8>, pass: Option<bool>) -> Option<Observation>
    ensures same { result ≡ all_there id checker pass }
    ensures checker { IfSome result (λ seen. Some seen.checker ≡ checker) }
{
    match (id, checker, pass) {
        (Some(id), Some(checker), Some(pass)) => Some(Observation { id, checker, pass }),
        _ => None,
    }
}

/// The number in an id.
fn id_of_text(text: &[u8]) -> Option<u32>
    ensures { result ≡ id_of_text text.now }
{
    match text {
        [b'h', digits @ ..] => some_number(digits),
        _ => None,
    }
}

/// A number that a check may have.
fn some_number(digits: &[u8]) -> Option<u32>
    ensures { result ≡ if_some (plain_number 4294967294 digits.now) }
{
    match read_number(digits, LAST_CHECK) {
        Some(0) => None,
        other => other,
    }
}

/// One of fifty checkers.
fn checker_of_text(digits: &[u8]) -> Option<u8>
    ensures same { result ≡ checker_of_text digits.now }
    ensures within { IfSome result (λ checker. checker < 50) }
{
    match read_number(digits, LAST_CHECKER) {
        Some(checker) => Some(checker as u8),
        None => None,
    }
}

/// `1` or `0`.
fn pass_of_text(text: &[u8]) -> Option<bool>
    ensures { result ≡ pass_of_text text.now }
{
    match text {
        [b'1'] => Some(true),
        [b'0'] => Some(false),
        _ => None,
    }
}
