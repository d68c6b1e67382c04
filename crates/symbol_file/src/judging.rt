//! Rules 3 to 15, decided one after another.
ghost use Rattle.std.specs.Prelude.{◌≡◌, None, map, option_map, IfOk};
ghost use Rattle.type_layout.specs.NamedTypes.{types_of};
ghost use Rattle.description_rules.specs.Faults.{fault_view};
ghost use Rattle.description_rules.specs.KnownTypes.{IsKnown, AreAllKnown};
ghost use Rattle.description_table.specs.Views.{document_view, type_view};
ghost use Rattle.symbol_file.specs.Judged as judged;

use ads_base::NoMemory;
use description_rules::{
    BrokenRule, KnownTypes, broken_at, fault_in_ports, fault_in_types, fault_in_uploads, read_types,
};
use description_table::Document;
use std::alloc::Global;

/// The types of a document that keeps rules 3 to 15; or the least broken rule, and in it the least item.
pub fn judge(
    alloc: Global,
    signals: u32,
    d: &Document<'_>,
) -> Result<Result<KnownTypes, BrokenRule>, NoMemory>
    ensures { IfOk result (judged.IsJudged signals d.now) }
{
    if let Some(fault) = fault_in_types(alloc, d)? {
        return Ok(Err(fault));
    }
    match read_types(alloc, d.types.as_slice())? {
        Err(place) => Ok(Err(broken_at(8, place as u128))),
        Ok(known) => judge_ports(alloc, signals, d, known),
    }
}

// The same, where rules 3 to 8 hold.
fn judge_ports(
    alloc: Global,
    signals: u32,
    d: &Document<'_>,
    known: KnownTypes,
) -> Result<Result<KnownTypes, BrokenRule>, NoMemory>
    requires types { judged.fault_in_types (document_view d.now) ≡ None }
    requires known { AreAllKnown (map type_view d.now.types.items) known }
    ensures { IfOk result (judged.IsJudged signals d.now) }
{
    match fault_from_9(alloc, &known, signals, d)? {
        Some(fault) => Ok(Err(fault)),
        None => Ok(Ok(known)),
    }
}

// The least broken rule of rules 9 to 15, and in it the least item.
fn fault_from_9(
    alloc: Global,
    known: &KnownTypes,
    signals: u32,
    d: &Document<'_>,
) -> Result<Option<BrokenRule>, NoMemory>
    requires known { IsKnown known.now }
    ensures { IfOk result (λ fault. option_map fault_view fault
        ≡ judged.fault_in_ports signals (document_view d.now) (types_of known.now.types)) }
{
    if let Some(fault) = fault_in_ports(alloc, known, signals, d)? {
        return Ok(Some(fault));
    }
    Ok(fault_in_uploads(known, d))
}
