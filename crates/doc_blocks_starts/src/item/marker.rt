//! Markers of list items (CommonMark 0.31.2, section 5.2).
ghost use Rattle.std.specs.Prelude.{◌≡◌, ◌+◌, ◌<◌, ◌≤◌, length, MatchOption, IfSome, codes};
ghost use Rattle.doc_rules.specs.Characters.{one_of};
ghost use Rattle.doc_rules.specs.ContainerStarts.{digits_of, bullet_marker, ordered_marker, list_marker};
ghost use Rattle.doc_lines.specs.Cursors.{left_of};
ghost use Rattle.doc_blocks_starts.specs.Lines.{IsPlain};
ghost use Rattle.doc_blocks_starts.specs.ItemSteps.{marker_taken, AreDigits, IsDigitTaken};

use super::kind::ListKind;
use doc_lines::cursor::Cursor;

/// How many digits a marker may have.
const MOST_DIGITS: usize = 9;

/// A marker: its number (0 for a bullet), and how many characters it has.
#[derive(Clone, Copy)]
pub(super) struct Marker {
    pub kind: ListKind,
    pub start: u32,
    pub length: usize,
}

/// Digits at the front of a line: the number that they write, and how many they are.
#[derive(Clone, Copy)]
struct Digits {
    number: u32,
    length: usize,
}

/// Takes the marker at the front of a line.
#[tactic(auto, unfolding(doc_rules::specs::ContainerStarts::list_marker))]
pub(super) fn take_marker(line: &mut Cursor) -> Option<Marker>
    requires { IsPlain line.old }
    ensures marker { marker_taken result line.new ≡ list_marker (left_of line.old) }
    ensures length { IfSome result (λ m. m.length + length (left_of line.new)
        ≡ length (left_of line.old)) }
    ensures few { IfSome result (λ m. m.length ≤ 10) }
{
    let digits = take_digits(line)?;
    if digits.length == 0 {
        take_bullet(line)
    } else {
        take_delimiter(digits, line)
    }
}

/// Takes `-`, `+` or `*`.
fn take_bullet(line: &mut Cursor) -> Option<Marker>
    requires { IsPlain line.old }
    ensures marker { marker_taken result line.new ≡ bullet_marker (left_of line.old) }
    ensures length { IfSome result (λ m. m.length + length (left_of line.new)
        ≡ length (left_of line.old)) }
    ensures few { IfSome result (λ m. m.length ≤ 10) }
{
    let c = line.next()?;
    if !is_bullet(c) {
        return None;
    }
    Some(Marker {
        kind: ListKind::Bullet(c),
        start: 0,
        length: 1,
    })
}

/// Takes the `.` or `)` behind these digits.
fn take_delimiter(digits: Digits, line: &mut Cursor) -> Option<Marker>
    requires plain { IsPlain line.old }
    requires few { digits.length ≤ 9 }
    ensures marker { marker_taken result line.new
        ≡ ordered_marker digits.number (left_of line.old) }
    ensures length { IfSome result (λ m. m.length + length (left_of line.new)
        ≡ digits.length + length (left_of line.old)) }
    ensures few { IfSome result (λ m. m.length ≤ 10) }
{
    let c = line.next()?;
    if !is_delimiter(c) {
        return None;
    }
    Some(Marker {
        kind: ListKind::Ordered(c),
        start: digits.number,
        length: digits.length + 1,
    })
}

fn is_bullet(c: char) -> bool
    ensures { result ≡ one_of (codes "-+*") c }
{
    matches!(c, '-' | '+' | '*')
}

fn is_delimiter(c: char) -> bool
    ensures { result ≡ one_of (codes ".)") c }
{
    matches!(c, '.' | ')')
}

/// Takes the digits at the front of a line, 9 at most, or answers `None` where there are more.
fn take_digits(line: &mut Cursor) -> Option<Digits>
    requires { IsPlain line.old }
    ensures digits { MatchOption result (9 < length (digits_of (left_of line.old)))
        (AreDigits (left_of line.old) (left_of line.new)) }
    ensures plain { IsPlain line.new }
{
    let mut number = 0;
    let mut length = 0;
    'digits: while let Some(digit) = take_digit(line) {
        if length >= MOST_DIGITS {
            return None;
        }
        number = number * 10 + digit;
        length += 1;
    }
    Some(Digits { number, length })
}

/// Takes a digit, if one is next, and answers its value.
fn take_digit(line: &mut Cursor) -> Option<u32>
    requires { IsPlain line.old }
    ensures digit { IsDigitTaken (left_of line.old) (left_of line.new) result }
    ensures plain { IsPlain line.new }
{
    let digit = line.peek()?.to_digit(10)?;
    let _ = line.next();
    Some(digit)
}
