//! The migration of a description.

ghost use Rattle.std.specs.Prelude.{◌≡◌, Some, Err, option_map, IfOk, IfErr};
ghost use Rattle.toml.specs.View.{table_view};
ghost use Rattle.spec_rules.specs.TextVerdict.{document_of, text_verdict};
ghost use Rattle.symbol_file.specs.Reading.{answer_of};
ghost use Rattle.description_migration.specs.Faults.{IsFault};
ghost use Rattle.description_migration.specs.Migration.{IsDocument, IsMigrated, migrated_text, second_schema};

use ads_base::{NoMemory, Octets};
use std::alloc::Global;
use symbol_file::{DescFault, read};
use table_text::{keys_ascend, set_number, text_of_table};
use toml::Table;

/// The text of a description under schema 2: its table with `schema` 2 and no other change. A text that is no
/// description for this number of signals is refused as its reader refuses it.
pub fn migrate(
    alloc: Global,
    bytes: &[u8],
    signals: u32,
) -> Result<Result<Octets, DescFault>, NoMemory>
    ensures migrated { IfOk result (λ answer. IfOk answer (IsMigrated signals bytes.now)) }
    ensures refused { IfOk result (λ answer. IfErr answer (λ fault. answer_of (Err fault) ≡ text_verdict signals bytes.now)) }
{
    match fault_of(alloc, bytes, signals)? {
        Some(fault) => Ok(Err(fault)),
        None => {
            let text = migrated(alloc, bytes)?;
            Ok(Ok(text))
        }
    }
}

// Why a text is no description, or that it is one.
fn fault_of(alloc: Global, bytes: &[u8], signals: u32) -> Result<Option<DescFault>, NoMemory>
    ensures { IfOk result (IsFault signals bytes.now) }
{
    let answer = read(alloc, bytes, signals)?;
    Ok(answer.err())
}

// The text of a document under schema 2.
fn migrated(alloc: Global, bytes: &[u8]) -> Result<Octets, NoMemory>
    requires { IsDocument bytes.now }
    ensures text { IfOk result (λ text. text ≡ migrated_text bytes.now) }
    ensures document { IfOk result (λ text. document_of text ≡ option_map second_schema (document_of bytes.now)) }
{
    let table = second_table(alloc, bytes)?;
    keys_ascend(&table);
    let text = text_of_table(alloc, &table)?;
    Ok(text)
}

// The table of a document under schema 2.
fn second_table(alloc: Global, bytes: &[u8]) -> Result<Table, NoMemory>
    requires { IsDocument bytes.now }
    ensures { IfOk result (λ table. Some (table_view table) ≡ option_map second_schema (document_of bytes.now)) }
{
    let mut table = table_of(alloc, bytes)?;
    set_number(alloc, &mut table, "schema", 2)?;
    Ok(table)
}

// The table of a document.
fn table_of(alloc: Global, bytes: &[u8]) -> Result<Table, NoMemory>
    requires { IsDocument bytes.now }
    ensures { IfOk result (λ table. Some (table_view table) ≡ document_of bytes.now) }
{
    match toml::table_from_slice(alloc, bytes) {
        Ok(table) => Ok(table),
        Err(error) => {
            if error.is_memory() {
                Err(NoMemory)
            } else {
                unreachable!()
            }
        }
    }
}
