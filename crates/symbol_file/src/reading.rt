//! The reader of descriptions.
ghost use Rattle.std.specs.Prelude.{◌≡◌, option_map, IfOk};
ghost use Rattle.toml.specs.View.{table_view};
ghost use Rattle.spec_plant.specs.Accepted.{IsAccepted};
ghost use Rattle.spec_rules.specs.Verdict.{table_verdict, document_verdict};
ghost use Rattle.type_layout.specs.Descriptions.{description_of};
ghost use Rattle.spec_rules.specs.TextVerdict.{document_of, verdict_of_rules};
ghost use Rattle.description_table.specs.Views.{document_view};
ghost use Rattle.symbol_file.specs.Fitting.{IsWritten};
ghost use Rattle.symbol_file.specs.Reading.{IsVerdict, answer_of};

use crate::DescFault;
use crate::building::build;
use crate::judging::judge;
use ads_base::NoMemory;
use description_table::{Document, document_in};
use std::alloc::Global;
use toml::Table;
use type_layout::Description;

/// The most bytes that a description may have, 16 MiB.
const MAX_TEXT: usize = 16_777_216;

/// Reads the text of a description, a TOML document, for this number of signals.
///
/// The rules are looked at in their order, the length of the text first, and within a rule the items in theirs: the
/// first broken one is the fault. A text that keeps rule 1 and is no TOML document is `Syntax`.
pub fn read(
    alloc: Global,
    bytes: &[u8],
    signals: u32,
) -> Result<Result<Description, DescFault>, NoMemory>
    ensures verdict { IfOk result (IsVerdict signals bytes.now) }
    ensures accepted { IfOk result (λ answer. IfOk answer (λ d. IsAccepted (description_of d) signals)) }
{
    if bytes.len() > MAX_TEXT {
        return Ok(Err(DescFault::Rule { number: 1, item: 0 }));
    }
    match table_in(alloc, bytes)? {
        None => Ok(Err(DescFault::Syntax)),
        Some(table) => read_table(alloc, &table, signals),
    }
}

// The table of the document that bytes are.
fn table_in(alloc: Global, bytes: &[u8]) -> Result<Option<Table>, NoMemory>
    ensures { IfOk result (λ found. option_map table_view found ≡ document_of bytes.now) }
{
    match toml::table_from_slice(alloc, bytes) {
        Ok(table) => Ok(Some(table)),
        Err(error) => {
            if error.is_memory() {
                Err(NoMemory)
            } else {
                Ok(None)
            }
        }
    }
}

fn read_table(
    alloc: Global,
    table: &Table,
    signals: u32,
) -> Result<Result<Description, DescFault>, NoMemory>
    ensures { IfOk result (λ answer. answer_of answer ≡ verdict_of_rules (table_verdict signals (table_view table.now))) }
{
    match document_in(alloc, table) {
        Err(e) => Err(e),
        Ok(None) => Ok(Err(DescFault::Rule { number: 2, item: 0 })),
        Ok(Some(document)) => read_document(alloc, &document, signals),
    }
}

// The description that a document writes, or its fault.
fn read_document(
    alloc: Global,
    d: &Document<'_>,
    signals: u32,
) -> Result<Result<Description, DescFault>, NoMemory>
    requires { IsWritten d.now }
    ensures { IfOk result (λ answer. answer_of answer ≡ verdict_of_rules (document_verdict signals (document_view d.now))) }
{
    match judge(alloc, signals, d) {
        Err(e) => Err(e),
        Ok(Err(fault)) => Ok(Err(DescFault::Rule {
            number: fault.number,
            item: fault.item,
        })),
        Ok(Ok(known)) => match build(alloc, known, d) {
            Err(e) => Err(e),
            Ok(built) => Ok(Ok(built)),
        },
    }
}
