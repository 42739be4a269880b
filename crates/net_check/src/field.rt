ghost use Rattle.net_check.specs.Field.{trimmed_field, trimmed_start as trimmed_start_of, number_in, class_in, rule_in, is_space_or_tab as is_blank};
ghost use Rattle.net_check.specs.Record.{number_up_to as number_up_to_in};
ghost use Rattle.std.specs.Prelude.{◌≡◌, reverse};

use crate::MAX_DIGITS;
use crate::fault::FaultKind;
use clr_net::{MAX_CLASS, RuleKind};

/// The field without the spaces and tabs at its ends.
pub fn trimmed(field: &[u8]) -> &[u8]
    ensures { result.now ≡ trimmed_field field.now }
{
    trimmed_end(trimmed_start(field))
}

fn trimmed_start(field: &[u8]) -> &[u8]
    ensures { result.now ≡ trimmed_start_of field.now }
{
    let mut rest = field;
    while let Some((first, others)) = rest.split_first() {
        if !is_space_or_tab(*first) {
            break;
        }
        rest = others;
    }
    rest
}

fn trimmed_end(field: &[u8]) -> &[u8]
    ensures { result.now ≡ reverse (trimmed_start_of (reverse field.now)) }
{
    let mut rest = field;
    while let Some((last, others)) = rest.split_last() {
        if !is_space_or_tab(*last) {
            break;
        }
        rest = others;
    }
    rest
}

fn is_space_or_tab(byte: u8) -> bool
    ensures { result ≡ is_blank byte }
{
    byte == b' ' || byte == b'\t'
}

/// The number that a field of 1 to [`MAX_DIGITS`] digits spells. `None` exactly where the field is
/// not such.
pub fn number(field: &[u8]) -> Option<u128>
    ensures { result ≡ number_in field.now }
{
    let Some((last, front)) = field.split_last() else {
        return None;
    };
    if front.len() >= MAX_DIGITS {
        return None;
    }
    // All digits but the last are counted in 64 bits, which is quicker.
    let mut number = 0;
    for digit in front {
        if !digit.is_ascii_digit() {
            return None;
        }
        number = 10 * number + u64::from(*digit - b'0');
    }
    if !last.is_ascii_digit() {
        return None;
    }
    Some(10 * u128::from(number) + u128::from(*last - b'0'))
}

/// The number in a field, if it is at most the limit: `Number` where the field is no number, and
/// `Limit` where it is more.
pub fn number_up_to(limit: u64, field: &[u8]) -> Result<u64, FaultKind>
    ensures { result ≡ number_up_to_in limit field.now }
{
    let number = number(field).ok_or(FaultKind::Number)?;
    if number > u128::from(limit) {
        return Err(FaultKind::Limit);
    }
    Ok(number as u64)
}

/// The class in a field: one digit from 1 to [`MAX_CLASS`], and `None` for any other field.
pub fn class(field: &[u8]) -> Option<u8>
    ensures { result ≡ class_in field.now }
{
    match field {
        [digit] if *digit > b'0' && *digit <= b'0' + MAX_CLASS => Some(*digit - b'0'),
        _ => None,
    }
}

/// The rule in a field: one of six words, in lower case.
pub(crate) fn rule(field: &[u8]) -> Option<RuleKind>
    ensures { result ≡ rule_in field.now }
{
    if field == b"order".as_slice() {
        Some(RuleKind::Order)
    } else if field == b"equal".as_slice() {
        Some(RuleKind::Equal)
    } else if field == b"losses".as_slice() {
        Some(RuleKind::Losses)
    } else if field == b"jefferson".as_slice() {
        Some(RuleKind::Jefferson)
    } else if field == b"webster".as_slice() {
        Some(RuleKind::Webster)
    } else if field == b"adams".as_slice() {
        Some(RuleKind::Adams)
    } else {
        None
    }
}
