//! The writers of a symbol.
ghost use Rattle.std.specs.Prelude.{◌≡◌, codes, map, option_map, IfOk};
ghost use Rattle.toml.specs.Data.{as_str};
ghost use Rattle.toml.specs.View.{view, items_view, table_view};
ghost use Rattle.spec_rules.specs.Fields.{maybe, items_in, array_of};
ghost use Rattle.description_table.specs.Views.{text_view};

use crate::fields::{items_in, text_in, value_at};
use ads_base::NoMemory;
use std::alloc::Global;
use toml::{Table, Value};

/// The texts under the key `writers`, where it is there.
pub fn maybe_writers<'a>(
    alloc: Global,
    table: &'a Table,
) -> Result<Option<Option<Vec<&'a [u8]>>>, NoMemory>
    ensures { IfOk result (λ found. option_map (option_map (λ v. map text_view v.items)) found
        ≡ maybe (array_of as_str) (codes "writers") (table_view table.now)) }
{
    let Some(value) = value_at(table, "writers") else {
        return Ok(Some(None));
    };
    let Some(items) = items_in(value) else {
        return Ok(None);
    };
    match texts_in(alloc, items)? {
        None => Ok(None),
        Some(texts) => Ok(Some(Some(texts))),
    }
}

fn texts_in<'a>(alloc: Global, items: &'a [Value]) -> Result<Option<Vec<&'a [u8]>>, NoMemory>
    ensures { IfOk result (λ found. option_map (λ v. map text_view v.items) found ≡ items_in as_str (items_view items.now)) }
{
    let mut texts = Vec::new(alloc);
    for item in items {
        let Some(text) = text_in(item) else {
            return Ok(None);
        };
        texts.push(text)?;
    }
    Ok(Some(texts))
}
