//! The values of a table, each by its key.
ghost use Rattle.std.specs.Prelude.{◌≡◌, map, option_map, option_copied};
ghost use Rattle.std.specs.List.{list_all, list_any};
ghost use Rattle.std.specs.Str.{bytes_eq};
ghost use Rattle.toml.specs.Data.{get_member, as_bool};
ghost use Rattle.toml.specs.View.{view, table_view};
ghost use Rattle.psb_settings.specs.Settings.{number_within, is_address_byte, is_address, address_of, digest_of, has_only_keys, required, optional};

use psb_bytes::{Digest, read_digest};
use toml::{Table, Value};

/// Whether each key of the table is one of these.
pub(crate) fn has_only_keys(table: &Table, keys: &[&str]) -> bool
    ensures { result ≡ has_only_keys (map (λ key. key.now) keys.now) (table_view table.now) }
{
    table.keys().all(|key| is_one_of(key.as_str(), keys))
}

fn is_one_of(key: &str, keys: &[&str]) -> bool
    ensures { result ≡ list_any (λ known. bytes_eq key.now known.now) keys.now }
{
    keys.iter().any(|known| key == *known)
}

/// A whole number from `low` to `high`.
pub(crate) fn number_at(table: &Table, key: &str, low: u32, high: u32) -> Option<u32>
    ensures { result ≡ required key.now (number_within low high) (table_view table.now) }
{
    number(member(table, key)?, low, high)
}

/// A whole number from `low` to `high`, or a default where there is none.
pub(crate) fn number_or(table: &Table, key: &str, low: u32, high: u32, default: u32) -> Option<u32>
    ensures { result ≡ optional key.now (number_within low high) default (table_view table.now) }
{
    match member(table, key) {
        Some(value) => number(value, low, high),
        None => Some(default),
    }
}

/// A truth value, or a default where there is none.
pub(crate) fn flag_or(table: &Table, key: &str, default: bool) -> Option<bool>
    ensures { result ≡ optional key.now as_bool default (table_view table.now) }
{
    match member(table, key) {
        Some(value) => value.as_bool(),
        None => Some(default),
    }
}

/// 64 hexadecimal digits.
pub(crate) fn digest_at(table: &Table, key: &str) -> Option<Digest>
    ensures { result ≡ required key.now digest_of (table_view table.now) }
{
    read_digest(member(table, key)?.as_str()?)
}

/// An address: 1 to 253 visible characters of ASCII.
pub(crate) fn address_at<'a>(table: &'a Table, key: &str) -> Option<&'a str>
    ensures { option_copied result ≡ required key.now address_of (table_view table.now) }
{
    let text = member(table, key)?.as_str()?;
    if is_address(text.as_bytes()) {
        Some(text)
    } else {
        None
    }
}

pub(crate) fn member<'a>(table: &'a Table, key: &str) -> Option<&'a Value>
    ensures { option_map (λ value. view value.now) result ≡ get_member key.now (table_view table.now) }
{
    table.get(key)
}

fn number(value: &Value, low: u32, high: u32) -> Option<u32>
    ensures { result ≡ number_within low high (view value.now) }
{
    let number = u32::try_from(value.as_integer()?).ok()?;
    if low <= number && number <= high {
        Some(number)
    } else {
        None
    }
}

fn is_address(text: &[u8]) -> bool
    ensures { result ≡ is_address text.now }
{
    1 <= text.len() && text.len() <= 253 && are_address_bytes(text)
}

fn are_address_bytes(text: &[u8]) -> bool
    ensures { result ≡ list_all is_address_byte text.now }
{
    text.iter().all(|byte| is_address_byte(*byte))
}

fn is_address_byte(byte: u8) -> bool
    ensures { result ≡ is_address_byte byte }
{
    0x21 <= byte && byte <= 0x7e
}
