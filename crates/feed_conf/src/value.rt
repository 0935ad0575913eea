// The values of keys, as they are written.
ghost use Rattle.std.specs.Prelude.{◌≡◌, ◌==◌, ◌<◌, ◌+◌, ◌*◌, ℕ, None, Some, true, MatchOption};
ghost use Rattle.std.specs.Prelude.{MatchResult, Ok, Err, codes, length, position};
ghost use Rattle.std.specs.Option.{option_map};
ghost use Rattle.feed_conf.specs.Values.{NumberOf, bounded, capped, connections, fraction_of, hundredths};
ghost use Rattle.feed_conf.specs.Values.{hundredths_of, number_of, parts_at, spells, spells_false, spells_true};
ghost use Rattle.feed_conf.specs.Values.{switch_of, taken_of, whole_of};
ghost use Rattle.feed_conf.specs.ValueView.{taken_view, HasSmallBounds};

use crate::digits::{DigitsFault, read_digits};
use crate::fault::ConfFaultKind;
use crate::key::Kind;

#[derive(Clone, Copy)]
pub(crate) enum Value<'t> {
    Text(&'t [u8]),
    Switch(bool),
    Number(u64),
}

/// A value as it is used.
#[derive(Clone, Copy)]
pub(crate) struct Taken<'t> {
    pub(crate) value: Value<'t>,
    /// Whether it was written above the greatest value, or as 0 connections.
    pub(crate) limited: bool,
}

// A number that does not fit into 64 bits counts as 2 ^ 64 - 1: each bound is far below.
fn number(octets: &[u8]) -> Option<u64>
    ensures { result ≡ option_map capped (number_of octets.now) }
{
    match read_digits(octets) {
        Ok(number) => Some(number),
        Err(DigitsFault::TooGreat) => Some(u64::MAX),
        Err(DigitsFault::NoNumber) => None,
    }
}

fn point(octets: &[u8]) -> Option<usize>
    ensures { result ≡ position (λ octet. octet == 46) octets.now }
{
    octets.iter().position(|octet| *octet == b'.')
}

// The whole part of a fraction, at most 2 ^ 64 - 1, and its decimals; its point is at this index.
fn fraction_at(octets: &[u8], point: usize) -> Option<(u64, &[u8])>
    requires { point < length octets.now }
    ensures { MatchOption result (parts_at (Some point) octets.now ≡ None)
        (λ r. (w : ℕ) × (parts_at (Some point) octets.now ≡ Some (w, r.1.now)) × (r.0 ≡ capped w)) }
{
    let whole = octets.split_at(point).0;
    let decimals = octets.split_at(point + 1).1;
    match (number(whole), number(decimals)) {
        (Some(whole), Some(_)) => Some((whole, decimals)),
        _ => None,
    }
}

// The whole part of a fraction, at most 2 ^ 64 - 1, and its decimals.
fn fraction(octets: &[u8]) -> Option<(u64, &[u8])>
    ensures { MatchOption result (fraction_of octets.now ≡ None)
        (λ r. (w : ℕ) × (fraction_of octets.now ≡ Some (w, r.1.now)) × (r.0 ≡ capped w)) }
{
    match point(octets) {
        None => match number(octets) {
            None => None,
            Some(whole) => Some((whole, &[])),
        },
        Some(point) => fraction_at(octets, point),
    }
}

// The first two decimals.
fn hundredths(decimals: &[u8]) -> u64
    ensures value { result ≡ hundredths decimals.now }
    ensures small { result < 10000 }
{
    match decimals {
        [] => 0,
        [tenth] => 10 * u64::from(tenth.saturating_sub(b'0')),
        [tenth, hundredth, ..] => 10 * u64::from(tenth.saturating_sub(b'0'))
            + u64::from(hundredth.saturating_sub(b'0')),
    }
}

// A fraction in hundredths, at most 2 ^ 64 - 1.
fn in_hundredths(octets: &[u8]) -> Option<u64>
    ensures { result ≡ option_map capped (hundredths_of octets.now) }
{
    match fraction(octets) {
        None => None,
        Some((whole, decimals)) => Some(
            whole
                .saturating_mul(100)
                .saturating_add(hundredths(decimals)),
        ),
    }
}

// The whole part of a fraction, at most 2 ^ 64 - 1.
fn whole(octets: &[u8]) -> Option<u64>
    ensures { result ≡ option_map capped (whole_of octets.now) }
{
    match fraction(octets) {
        None => None,
        Some((whole, _)) => Some(whole),
    }
}

// Compares letters without regard to case.
fn spells(octets: &[u8], word: &[u8]) -> bool
    ensures { result ≡ spells octets.now word.now }
{
    octets.eq_ignore_ascii_case(word)
}

fn spells_true(octets: &[u8]) -> bool
    ensures { result ≡ spells_true octets.now }
{
    spells(octets, b"true") || spells(octets, b"yes") || spells(octets, b"on")
}

pub(crate) fn spells_false(octets: &[u8]) -> bool
    ensures { result ≡ spells_false octets.now }
{
    spells(octets, b"false") || spells(octets, b"no") || spells(octets, b"off")
}

fn switch(octets: &[u8]) -> Option<bool>
    ensures { result ≡ switch_of octets.now }
{
    if spells_true(octets) {
        Some(true)
    } else if spells_false(octets) {
        Some(false)
    } else {
        None
    }
}

fn limited<'t>(greatest: u64) -> Taken<'t>
    ensures { taken_view result ≡ record { value = NumberOf greatest; limited = true } }
{
    Taken {
        value: Value::Number(greatest),
        limited: true,
    }
}

fn bounded<'t>(least: u64, greatest: u64, number: Option<u64>) -> Result<Taken<'t>, ConfFaultKind>
    ensures { MatchResult result (λ t. bounded least greatest number ≡ Ok (taken_view t))
        (λ e. bounded least greatest number ≡ Err e) }
{
    match number {
        None => Err(ConfFaultKind::BadNumber),
        Some(number) => {
            if number < least {
                Err(ConfFaultKind::Range)
            } else if greatest < number {
                Ok(limited(greatest))
            } else {
                Ok(Taken {
                    value: Value::Number(number),
                    limited: false,
                })
            }
        }
    }
}

// A number of connections; 0 stands for the most.
fn connections<'t>(number: Option<u64>) -> Result<Taken<'t>, ConfFaultKind>
    ensures { MatchResult result (λ t. connections number ≡ Ok (taken_view t))
        (λ e. connections number ≡ Err e) }
{
    match number {
        None => Err(ConfFaultKind::BadNumber),
        Some(0) => Ok(limited(64)),
        Some(number) => bounded(0, 64, Some(number)),
    }
}

/// The value that is used if this is written.
///
/// # Errors
/// `BadNumber` or `BadBoolean` if it is not written as its kind is, `Range` if it is below the least value.
pub(crate) fn take_value(kind: Kind, octets: &[u8]) -> Result<Taken<'_>, ConfFaultKind>
    requires { HasSmallBounds kind }
    ensures { MatchResult result (λ t. taken_of kind octets.now ≡ Ok (taken_view t))
        (λ e. taken_of kind octets.now ≡ Err e) }
{
    match kind {
        Kind::AnyText => Ok(Taken {
            value: Value::Text(octets),
            limited: false,
        }),
        Kind::ShortText => {
            if 1 <= octets.len() && octets.len() <= 255 {
                Ok(Taken {
                    value: Value::Text(octets),
                    limited: false,
                })
            } else {
                Err(ConfFaultKind::Range)
            }
        }
        Kind::Switch => match switch(octets) {
            None => Err(ConfFaultKind::BadBoolean),
            Some(on) => Ok(Taken {
                value: Value::Switch(on),
                limited: false,
            }),
        },
        Kind::Connections => connections(number(octets)),
        Kind::Number(least, greatest) => bounded(least, greatest, number(octets)),
        Kind::Whole(least, greatest) => bounded(least, greatest, whole(octets)),
        Kind::Fraction(least, greatest) => bounded(least, greatest, in_hundredths(octets)),
    }
}
