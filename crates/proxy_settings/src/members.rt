//! What a table has at its keys.

ghost use Rattle.std.specs.Prelude.{◌≡◌, ◌≤◌, [], codes, IfOk, option_map};
ghost use Rattle.toml.specs.Data.{get_member, as_str, as_bool};
ghost use Rattle.toml.specs.View.{table_view, view, items_view};
ghost use Rattle.proxy_settings.specs.Steps.{Reads};
ghost use Rattle.proxy_settings.specs.Members.{required, provided, items_at};
ghost use Rattle.proxy_settings.specs.Values as spec;

use crate::by::By;
use crate::fault::{Why, Wrong};
use crate::kind::Kind;
use crate::values::{address_of, is_base, is_host, is_media, up_to};
use limits::MAX_BODY_LEN;
use std::net::IpAddr;
use toml::{Table, Value};
use uri_map::{Peer, peer_at};

/// The value of a key.
fn member<'t>(table: &'t Table, key: &str) -> Option<&'t Value>
    ensures { option_map (λ v. view v.now) result ≡ get_member key.now (table_view table.now) }
{
    table.get(key)
}

/// The text at a key.
pub(crate) fn text<'t>(table: &'t Table, key: &str) -> Result<&'t str, Wrong>
    ensures { Reads (λ s. s.now) result (required as_str key.now (table_view table.now)) }
{
    match member(table, key) {
        None => Err(Wrong::at(key, Why::Missing)),
        Some(value) => match value.as_str() {
            None => Err(Wrong::at(key, Why::NotText)),
            Some(text) => Ok(text),
        },
    }
}

/// The address and port at a key.
pub(crate) fn endpoint(table: &Table, key: &str) -> Result<Peer, Wrong>
    ensures { Reads (λ p. p) result (required spec.endpoint_at key.now (table_view table.now)) }
{
    let text = text(table, key)?;
    match peer_at(text.as_bytes()) {
        None => Err(Wrong::at(key, Why::NotEndpoint)),
        Some(peer) => Ok(peer),
    }
}

/// The address at a key.
pub(crate) fn address(table: &Table, key: &str) -> Result<IpAddr, Wrong>
    ensures { Reads (λ a. a) result (required spec.address_at key.now (table_view table.now)) }
{
    let text = text(table, key)?;
    match address_of(text) {
        None => Err(Wrong::at(key, Why::NotAddress)),
        Some(address) => Ok(address),
    }
}

/// The name of a host at a key, as it is written.
pub(crate) fn host<'t>(table: &'t Table, key: &str) -> Result<&'t str, Wrong>
    ensures { Reads (λ s. s.now) result
        (required (spec.text_that spec.is_host) key.now (table_view table.now)) }
{
    let text = text(table, key)?;
    if !is_host(text) {
        return Err(Wrong::at(key, Why::NotHost));
    }
    Ok(text)
}

/// The media type at a key.
pub(crate) fn media<'t>(table: &'t Table, key: &str) -> Result<&'t str, Wrong>
    ensures { Reads (λ s. s.now) result
        (required (spec.text_that spec.is_media) key.now (table_view table.now)) }
{
    let text = text(table, key)?;
    if !is_media(text) {
        return Err(Wrong::at(key, Why::NotMedia));
    }
    Ok(text)
}

/// The transformer at a key.
pub(crate) fn by(table: &Table, key: &str) -> Result<By, Wrong>
    ensures { Reads (λ b. b) result (required spec.by_at key.now (table_view table.now)) }
{
    match By::named(text(table, key)?) {
        None => Err(Wrong::at(key, Why::NotBy)),
        Some(by) => Ok(by),
    }
}

/// The kind of a resource at a key.
pub(crate) fn kind(table: &Table, key: &str) -> Result<Kind, Wrong>
    ensures { Reads (λ k. k) result (required spec.kind_at key.now (table_view table.now)) }
{
    match Kind::named(text(table, key)?) {
        None => Err(Wrong::at(key, Why::NotKind)),
        Some(kind) => Ok(kind),
    }
}

/// The whole number that a value is.
fn whole(value: &Value, key: &str, most: u32) -> Result<u32, Wrong>
    ensures value { Reads (λ n. n) result (spec.number_at most (view value.now)) }
    ensures most { IfOk result (λ n. n ≤ most) }
{
    match value.as_integer() {
        None => Err(Wrong::at(key, Why::NotWhole)),
        Some(number) => match up_to(most, number) {
            None => Err(Wrong::at(key, Why::Above(most))),
            Some(number) => Ok(number),
        },
    }
}

/// The number at a key.
pub(crate) fn number(table: &Table, key: &str, most: u32) -> Result<u32, Wrong>
    ensures value { Reads (λ n. n) result
        (required (spec.number_at most) key.now (table_view table.now)) }
    ensures most { IfOk result (λ n. n ≤ most) }
{
    match member(table, key) {
        None => Err(Wrong::at(key, Why::Missing)),
        Some(value) => whole(value, key, most),
    }
}

/// The number at a key, or the default.
pub(crate) fn number_or(table: &Table, key: &str, most: u32, default: u32) -> Result<u32, Wrong>
    requires { default ≤ most }
    ensures value { Reads (λ n. n) result
        (provided default (spec.number_at most) key.now (table_view table.now)) }
    ensures most { IfOk result (λ n. n ≤ most) }
{
    match member(table, key) {
        None => Ok(default),
        Some(value) => whole(value, key, most),
    }
}

/// The switch at a key, or the default.
pub(crate) fn switch(table: &Table, key: &str, default: bool) -> Result<bool, Wrong>
    ensures { Reads (λ b. b) result (provided default as_bool key.now (table_view table.now)) }
{
    match member(table, key) {
        None => Ok(default),
        Some(value) => match value.as_bool() {
            None => Err(Wrong::at(key, Why::NotSwitch)),
            Some(on) => Ok(on),
        },
    }
}

/// The base at a key, or `/hc/`.
pub(crate) fn base<'t>(table: &'t Table, key: &str) -> Result<&'t str, Wrong>
    ensures { Reads (λ s. s.now) result
        (provided (codes "/hc/") (spec.text_that spec.is_base) key.now (table_view table.now)) }
{
    match member(table, key) {
        None => Ok("/hc/"),
        Some(value) => match value.as_str() {
            None => Err(Wrong::at(key, Why::NotText)),
            Some(text) => {
                if is_base(text) {
                    Ok(text)
                } else {
                    Err(Wrong::at(key, Why::NotBase))
                }
            }
        },
    }
}

/// The state of a resource at a key, or an empty one.
pub(crate) fn state<'t>(table: &'t Table, key: &str) -> Result<&'t str, Wrong>
    ensures { Reads (λ s. s.now) result
        (provided [] (spec.text_that spec.is_state) key.now (table_view table.now)) }
{
    match member(table, key) {
        None => Ok(""),
        Some(value) => match value.as_str() {
            None => Err(Wrong::at(key, Why::NotText)),
            Some(text) => {
                if text.len() <= MAX_BODY_LEN {
                    Ok(text)
                } else {
                    Err(Wrong::at(key, Why::TooLong))
                }
            }
        },
    }
}

/// The items of the array at a key, or none.
pub(crate) fn items<'t>(table: &'t Table, key: &str) -> Result<&'t [Value], Wrong>
    ensures { Reads (λ s. items_view s.now) result (items_at key.now (table_view table.now)) }
{
    match member(table, key) {
        None => Ok(&[]),
        Some(value) => match value.as_array() {
            None => Err(Wrong::at(key, Why::NotTables)),
            Some(array) => Ok(array.as_slice()),
        },
    }
}
