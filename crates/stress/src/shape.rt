ghost use Rattle.std.specs.Prelude.{◌≡◌, map, option_map};
ghost use Rattle.std.specs.List.{list_any};
ghost use Rattle.std.specs.Str.{bytes_eq};
ghost use Rattle.stress.specs.Shape.{are_losses as all_are_losses, as_loss, as_parts, cut_in};
ghost use Rattle.stress.specs.Shape.{has_only as has_only_of, integer_at as integer_in, losses_in};
ghost use Rattle.stress.specs.Shape.{parts_at};
ghost use Rattle.stress.specs.Shape.{text_at as text_in, up_to as number_up_to};
ghost use Rattle.stress.specs.Views.{loss_seen, parts_seen};
ghost use Rattle.toml.specs.View.{items_view, table_view, view};

use toml::{Table, Value};

/// What a table of a scenario has: its name, its cut and its losses.
#[derive(Clone, Copy)]
pub(crate) struct Parts<'a> {
    pub(crate) name: &'a str,
    pub(crate) cut: i64,
    pub(crate) losses: &'a [Value],
}

/// The parts of a scenario, if the value has the shape of one.
pub(crate) fn parts_of(value: &Value) -> Option<Parts<'_>>
    ensures { option_map parts_seen result ≡ as_parts (view value.now) }
{
    let table = value.as_table()?;
    if has_only(table, &["name", "cut", "loss"]) {
        parts_in(table)
    } else {
        None
    }
}

// The parts at the keys of a scenario's table.
fn parts_in(table: &Table) -> Option<Parts<'_>>
    ensures { option_map parts_seen result ≡ parts_at (table_view table.now) }
{
    let name = text_at(table, "name")?;
    let cut = cut_of(table)?;
    let losses = losses_of(table)?;
    if are_losses(losses) {
        Some(Parts { name, cut, losses })
    } else {
        None
    }
}

// The cut of a table, 0 where it has none.
fn cut_of(table: &Table) -> Option<i64>
    ensures { result ≡ cut_in (table_view table.now) }
{
    match table.get("cut") {
        Some(value) => value.as_integer(),
        None => Some(0),
    }
}

// The losses of a table, none where it has none.
fn losses_of(table: &Table) -> Option<&[Value]>
    ensures { option_map (λ vs. items_view vs.now) result ≡ losses_in (table_view table.now) }
{
    match table.get("loss") {
        Some(value) => match value.as_array() {
            Some(items) => Some(items.as_slice()),
            None => None,
        },
        None => Some(&[]),
    }
}

// Whether each value has the shape of a loss.
fn are_losses(values: &[Value]) -> bool
    ensures { result ≡ all_are_losses (items_view values.now) }
{
    for value in values {
        if loss_parts(value).is_none() {
            return false;
        }
    }
    true
}

/// The bank's name and the amount of a loss, if the value has the shape of one.
pub(crate) fn loss_parts(value: &Value) -> Option<(&str, i64)>
    ensures { option_map loss_seen result ≡ as_loss (view value.now) }
{
    let table = value.as_table()?;
    if !has_only(table, &["bank", "amount"]) {
        return None;
    }
    let bank = text_at(table, "bank")?;
    let amount = integer_at(table, "amount")?;
    Some((bank, amount))
}

/// Whether a table has no key but these words.
pub(crate) fn has_only(table: &Table, words: &[&str]) -> bool
    ensures { result ≡ has_only_of (map (λ w. w.now) words.now) (table_view table.now) }
{
    table.keys().all(|key| is_among(words, key.as_str()))
}

// Whether a key is one of these words.
fn is_among(words: &[&str], key: &str) -> bool
    ensures { result ≡ list_any (λ word. bytes_eq word key.now) (map (λ w. w.now) words.now) }
{
    for word in words {
        if *word == key {
            return true;
        }
    }
    false
}

// The text at a key.
fn text_at<'a>(table: &'a Table, key: &str) -> Option<&'a str>
    ensures { option_map (λ s. s.now) result ≡ text_in key.now (table_view table.now) }
{
    match table.get(key) {
        Some(value) => value.as_str(),
        None => None,
    }
}

// The whole number at a key.
fn integer_at(table: &Table, key: &str) -> Option<i64>
    ensures { result ≡ integer_in key.now (table_view table.now) }
{
    match table.get(key) {
        Some(value) => value.as_integer(),
        None => None,
    }
}

/// The number, if it is from 0 to the limit.
pub(crate) fn up_to(limit: u64, number: i64) -> Option<u64>
    ensures { result ≡ number_up_to limit number }
{
    match u64::try_from(number) {
        Ok(number) if number <= limit => Some(number),
        _ => None,
    }
}
