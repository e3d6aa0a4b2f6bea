//! What the bytes of one field say. These are functions and no `TryFrom`: the types stand in `model`, which
//! reads no text.

ghost use Rattle.std.specs.Prelude.{◌≡◌, ◌≤◌, true, length};
ghost use Rattle.std.specs.Char.{is_ascii_digit};
ghost use Rattle.std.specs.List.{list_all};
ghost use Rattle.sheet.specs.Reading.{policy_of, kind_of, all_name_bytes, is_name, is_number, value_from, number_of};

use model::kind::Kind;
use model::policy::Policy;

pub(crate) fn policy_of(word: &[u8]) -> Option<Policy>
    ensures { result ≡ policy_of word.now }
{
    match word {
        b"DM" => Some(Policy::Dm),
        b"ED" => Some(Policy::Ed),
        _ => None,
    }
}

pub(crate) fn kind_of(part: &[u8]) -> Option<Kind>
    ensures { result ≡ kind_of part.now }
{
    let [b] = part else {
        return None;
    };
    match *b as char {
        'R' => Some(Kind::Regular),
        'N' => Some(Kind::Ordinary),
        _ => None,
    }
}

fn all_name_bytes(part: &[u8]) -> bool
    ensures { result ≡ all_name_bytes part.now }
{
    part.iter().all(|b| b.is_ascii_alphanumeric())
}

pub(crate) fn is_name(part: &[u8]) -> bool
    ensures { result ≡ is_name part.now }
{
    (1..=12).contains(&part.len()) && all_name_bytes(part)
}

fn all_digits(part: &[u8]) -> bool
    ensures { result ≡ list_all is_ascii_digit part.now }
{
    part.iter().all(|b| b.is_ascii_digit())
}

// No leading zero, save the number 0 itself.
fn is_number(part: &[u8]) -> bool
    ensures { result ≡ is_number part.now }
{
    match part {
        [] | [b'0', _, ..] => false,
        _ => part.len() <= 7 && all_digits(part),
    }
}

// Seven digits fit with room to spare.
fn value_of(digits: &[u8]) -> u32
    requires { (length digits.now ≤ 7) × (list_all is_ascii_digit digits.now ≡ true) }
    ensures { result ≡ value_from 0 digits.now }
{
    let mut n: u32 = 0;
    for b in digits {
        n = 10 * n + (*b - b'0') as u32;
    }
    n
}

pub(crate) fn number_of(part: &[u8]) -> Option<u32>
    ensures { result ≡ number_of part.now }
{
    is_number(part).then(|| value_of(part))
}
