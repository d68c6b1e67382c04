//! A configuration, read.

use crate::signals_in::signal_in;
use crate::{Field, Given, Seconds, Settle, SetupFault};
use ads_base::NoMemory;
use cli_words::Text;
use std::alloc::Global;
use toml::de::Error;
use toml::{Table, Value};

/// What a file is that may be a configuration.
#[derive(Debug, Drop)]
pub enum ConfigRead {
    /// A configuration: what it gives was added.
    Config,
    /// Another TOML table, as a description of a plant.
    Other,
    /// No TOML table, and where and why, in one line.
    NoToml(Text),
}

/// Adds what a configuration gives, a TOML table with the key `description`, to what is given in words, which counts first.
/// Where the bytes are no such table nothing is added.
pub fn config_in(alloc: Global, bytes: &[u8], given: &mut Given) -> Result<ConfigRead, SetupFault> {
    match toml::table_from_slice(alloc, bytes) {
        Ok(table) => {
            if table.get("description").is_none() {
                return Ok(ConfigRead::Other);
            }
            add_table(alloc, &table, given)?;
            Ok(ConfigRead::Config)
        }
        Err(error) => {
            if error.is_memory() {
                Err(SetupFault::Memory)
            } else {
                Ok(ConfigRead::NoToml(reason_of(alloc, &error)?))
            }
        }
    }
}

// Why a text is no TOML, in one line.
fn reason_of(alloc: Global, error: &Error) -> Result<Text, NoMemory> {
    let told = format!(in alloc; "{error}")?;
    let mut line = String::new(alloc);
    for part in told.as_str().lines() {
        if !line.is_empty() {
            line.push_str(": ")?;
        }
        line.push_str(part)?;
    }
    Text::copy_of(alloc, line.as_str())
}

fn add_table(alloc: Global, table: &Table, given: &mut Given) -> Result<(), SetupFault> {
    for (key, value) in table.iter() {
        put_key(alloc, given, key.as_str(), value)?;
    }
    Ok(())
}

fn put_key(alloc: Global, given: &mut Given, key: &str, value: &Value) -> Result<(), SetupFault> {
    match Field::of_key(key) {
        Some(field) if given.has(field) => Ok(()),
        Some(field) => put_value(alloc, given, field, value),
        None => Err(SetupFault::UnknownKey(Text::copy_of(alloc, key)?)),
    }
}

fn put_value(
    alloc: Global,
    given: &mut Given,
    field: Field,
    value: &Value,
) -> Result<(), SetupFault> {
    match field {
        Field::SaveEach => given.put_seconds(seconds_in(value)),
        Field::KeepDescription => given.put_keeps(value.as_bool()),
        Field::Settle => given.put_settle(settle_in(value)),
        Field::Signal => put_signals(alloc, given, value),
        Field::Listen | Field::Allow => put_list(alloc, given, field, value),
        Field::Description
        | Field::Store
        | Field::StoreDamaged
        | Field::OtherRoutes
        | Field::Profile
        | Field::Status
        | Field::Log
        | Field::StopFile => put_one(alloc, given, field, value),
    }
}

fn seconds_in(value: &Value) -> Option<Seconds> {
    let number = value.as_integer()?;
    Seconds::of_count(u64::try_from(number).ok()?)
}

fn settle_in(value: &Value) -> Option<Settle> {
    let number = value.as_integer()?;
    Settle::of_count(u64::try_from(number).ok()?)
}

fn put_one(
    alloc: Global,
    given: &mut Given,
    field: Field,
    value: &Value,
) -> Result<(), SetupFault> {
    match value.as_str() {
        Some(text) => given.put_text(alloc, field, text),
        None => Err(SetupFault::Wrong(field)),
    }
}

// One text, or a list of texts that is not empty.
fn put_list(
    alloc: Global,
    given: &mut Given,
    field: Field,
    value: &Value,
) -> Result<(), SetupFault> {
    let Some(items) = value.as_array() else {
        return put_one(alloc, given, field, value);
    };
    if items.is_empty() {
        return Err(SetupFault::Wrong(field));
    }
    for item in items.as_slice() {
        put_one(alloc, given, field, item)?;
    }
    Ok(())
}

// Tables, each a signal; the first that is off the form is told by its number.
fn put_signals(alloc: Global, given: &mut Given, value: &Value) -> Result<(), SetupFault> {
    let Some(items) = value.as_array() else {
        return Err(SetupFault::Wrong(Field::Signal));
    };
    let mut number = 0u32;
    for item in items.as_slice() {
        put_signal(alloc, given, number, item)?;
        number = number.saturating_add(1);
    }
    Ok(())
}

fn put_signal(
    alloc: Global,
    given: &mut Given,
    number: u32,
    value: &Value,
) -> Result<(), SetupFault> {
    match signal_in(alloc, value)? {
        Some(signal) => given.put_signal(alloc, signal),
        None => Err(SetupFault::WrongSignal(number)),
    }
}
