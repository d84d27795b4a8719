// Decimals, in units of 1/10000.
ghost use Rattle.std.specs.Prelude.{◌≡◌, ◌↔◌, ◌+◌, ◌*◌, ◌^◌, ◌<◌, ◌≤◌, length, IfOk, IsErrOf, IsTrue, MatchOption, unsigned_abs, min, option_copied, position, true, false, []};
ghost use Rattle.std.specs.List.{list_any, before_first, after_first};
ghost use Rattle.lc_scan.specs.Decimal.{is_mark, is_point, unsigned, is_negative, parts_of, is_exponent, exponent_size, is_decimal, nearest, IsNearest, top, bottom, size, measured, decimal_of};
ghost use Rattle.lc_scan.specs.Spelling.{Spelling, IsDecimal, spelled, parts};

use crate::digits::{all_digits, are_digits, digits_value_after, up_to_41};
use crate::fault::NumFault;
use std::marker::Model;

/// The greatest absolute value of a decimal, in units.
const MOST: u128 = 100_000_000_000_000;

/// The parts that a field has if it is a decimal: whether a minus stands in front, what stands before the point and
/// after it, whether the exponent has a minus, and what else the exponent is.
#[derive(Drop)]
struct DecimalParts<'a> {
    negative: bool,
    before: &'a [u8],
    after: &'a [u8],
    shrinks: bool,
    exponent: Option<&'a [u8]>,
}

impl<'a> Model for DecimalParts<'a> {
    ghost use Rattle.std.specs.Prelude.{option_map};
    ghost use Rattle.lc_scan.specs.Decimal.{Parts};

    ghost Value = { Parts };

    ghost view = { λ p. record {
      negative = p.negative;
      before = p.before.now;
      after = p.after.now;
      shrinks = p.shrinks;
      exponent = option_map (λ digits. digits.now) p.exponent;
    } };
}

fn first_mark(field: &[u8]) -> Option<usize>
    ensures { result ≡ position is_mark field.now }
{
    field.iter().position(|&b| b == b'e' || b == b'E')
}

fn first_point(bytes: &[u8]) -> Option<usize>
    ensures { result ≡ position is_point bytes.now }
{
    bytes.iter().position(|&b| b == b'.')
}

/// What stands before the first `e` or `E`, and what stands after it, if there is one.
fn around_mark(field: &[u8]) -> (&[u8], Option<&[u8]>)
    ensures before { result.0.now ≡ before_first is_mark field.now }
    ensures after { MatchOption result.1
        ((list_any is_mark field.now ≡ false) × (after_first is_mark field.now ≡ []))
        (λ back. (list_any is_mark field.now ≡ true) × (back.now ≡ after_first is_mark field.now)) }
{
    match first_mark(field) {
        None => (field, None),
        Some(at) => (&field[..at], Some(&field[at + 1..])),
    }
}

/// What stands before the first point, and what stands after it.
fn around_point(bytes: &[u8]) -> (&[u8], &[u8])
    ensures before { result.0.now ≡ before_first is_point bytes.now }
    ensures after { result.1.now ≡ after_first is_point bytes.now }
{
    match first_point(bytes) {
        None => (bytes, &bytes[bytes.len()..]),
        Some(at) => (&bytes[..at], &bytes[at + 1..]),
    }
}

/// Whether a minus stands in front, and what stands after a sign.
fn after_sign(bytes: &[u8]) -> (bool, &[u8])
    ensures negative { result.0 ≡ is_negative bytes.now }
    ensures unsigned { result.1.now ≡ unsigned bytes.now }
{
    match bytes {
        [b'-', rest @ ..] => (true, rest),
        [b'+', rest @ ..] => (false, rest),
        _ => (false, bytes),
    }
}

#[tactic(auto, unfolding(crate::specs::Decimal::parts_of))]
fn parts_of(field: &[u8]) -> DecimalParts<'_>
    ensures { result ≡ parts_of field.now }
{
    let (front, back) = around_mark(field);
    let (negative, body) = after_sign(front);
    let (before, after) = around_point(body);
    match back {
        None => DecimalParts {
            negative,
            before,
            after,
            shrinks: false,
            exponent: None,
        },
        Some(back) => {
            let (shrinks, digits) = after_sign(back);
            DecimalParts {
                negative,
                before,
                after,
                shrinks,
                exponent: Some(digits),
            }
        }
    }
}

fn is_decimal(p: &DecimalParts) -> bool
    ensures { result ≡ is_decimal p.now }
{
    let some = !p.before.is_empty() || !p.after.is_empty();
    let exponent = match p.exponent {
        None => true,
        Some(digits) => are_digits(digits),
    };
    some && all_digits(p.before) && all_digits(p.after) && exponent
}

/// The nearest whole number to `number * 10^up / 10^down`, halves up, or `MOST + 1` where it is greater.
fn nearest_up_to_most(number: u128, up: u32, down: u32) -> u128
    requires number { number < 10 ^ 30 }
    requires up { up ≤ 44 }
    requires down { down ≤ 70 }
    ensures { result ≡ min (nearest (number * 10 ^ up) (10 ^ down)) (10 ^ 14 + 1) }
{
    if up >= down {
        let shift = up - down;
        if number == 0 {
            0
        } else if shift > 14 || number > MOST {
            MOST + 1
        } else {
            (number * 10u128.pow(shift)).min(MOST + 1)
        }
    } else {
        let shift = down - up;
        if shift > 30 {
            0
        } else {
            let unit = 10u128.pow(shift);
            ((2 * number + unit) / (2 * unit)).min(MOST + 1)
        }
    }
}

/// The size of an exponent, or 41 where it is greater.
fn exponent_up_to_41(exponent: Option<&[u8]>) -> u32
    requires { IsTrue (is_exponent (option_copied exponent)) }
    ensures { result ≡ min (exponent_size (option_copied exponent.entry)) 41 }
{
    match exponent {
        None => 0,
        Some(digits) => up_to_41(digits),
    }
}

/// The units of a decimal's parts, sign apart, or `MOST + 1` where they are more.
#[tactic(auto, unfolding(crate::specs::Decimal::size))]
fn size_up_to_most(p: &DecimalParts, exponent: u32) -> u128
    requires decimal { IsTrue (is_decimal p.now) }
    requires digits { length p.now.before + length p.now.after ≤ 30 }
    requires exponent { exponent ≡ exponent_size p.now.exponent }
    requires small { exponent ≤ 40 }
    ensures { result ≡ min (size p.now) (10 ^ 14 + 1) }
{
    let front = digits_value_after(0, 0, p.before);
    let number = digits_value_after(front, p.before.len(), p.after);
    let places = p.after.len() as u32;
    if p.shrinks {
        nearest_up_to_most(number, 4, places + exponent)
    } else {
        nearest_up_to_most(number, 4 + exponent, places)
    }
}

fn measured(p: &DecimalParts) -> Result<i64, NumFault>
    requires { IsTrue (is_decimal p.now) }
    ensures { result ≡ measured p.now }
{
    let exponent = exponent_up_to_41(p.exponent);
    if p.before.len() + p.after.len() > 30 || exponent > 40 {
        return Err(NumFault::TooLong);
    }
    let size = size_up_to_most(p, exponent);
    if size > MOST {
        return Err(NumFault::Range);
    }
    let units = size as i64;
    Ok(if p.negative { -units } else { units })
}

fn units_of(field: &[u8]) -> Result<i64, NumFault>
    ensures { result ≡ decimal_of field.now }
{
    let parts = parts_of(field);
    if is_decimal(&parts) {
        measured(&parts)
    } else {
        Err(NumFault::Form)
    }
}

/// The decimal that a field spells, in units of 1/10000: the nearest unit, halves away from zero. It is an optional
/// sign, digits with an optional point among or around them, and an optional exponent: `e` or `E`, an optional sign and
/// digits.
///
/// It is `TooLong` with more than 30 digits before the exponent or an exponent above 40 in absolute value, and out of
/// `Range` above 10^14 units in absolute value.
pub fn decimal(field: &[u8]) -> Result<i64, NumFault>
    ensures value { result ≡ decimal_of field.now }

    // However a decimal is spelled, its parts are read.
    ensures spelled { (s : Spelling) → IsDecimal s → field.now ≡ spelled s → result ≡ measured (parts s) }

    // The units are the nearest to 10000 times the fraction that is spelled, halves away from zero.
    ensures nearest { (s : Spelling) → IsDecimal s → field.now ≡ spelled s →
        IfOk result (λ units. IsNearest (unsigned_abs units) (top (parts s)) (bottom (parts s))) }

    ensures range { IfOk result (λ units. unsigned_abs units ≤ 10 ^ 14) }

    // `Form` comes exactly where the field spells no decimal.
    ensures form { IsErrOf result NumFault.Form ↔ ((s : Spelling) → IsDecimal s → field.now ≡ spelled s → ⊥) }
{
    units_of(field)
}
