//! The types of an upload are read: first the entries, and when all their names are known their members.

ghost use Rattle.std.specs.Prelude.{◌≡◌, map, option_map, IfOk, IfSome};
ghost use Rattle.spec_client.specs.Entries.{types_in};
ghost use Rattle.type_upload.specs.Entry.{entry_meant};
ghost use Rattle.client_leaves.specs.Entries.{HasSubs, IsIndexed, entries_meant};
ghost use Rattle.client_leaves.specs.Table.{AreFound, IsMemberFound, IsTable, type_kept, types_kept};

use crate::entries::Entries;
use crate::table::{Member, ReadType};
use ads_base::NoMemory;
use std::alloc::Global;
use type_upload::{TypeEntry, read_type};

/// The entries of so many types, with nothing behind them.
pub(crate) fn read_entries<'a>(
    alloc: Global,
    count: u32,
    upload: &'a [u8],
) -> Result<Option<Entries<'a>>, NoMemory>
    ensures types { IfOk result (λ found. option_map entries_meant found ≡ types_in count upload.now) }
    ensures indexed { IfOk result (λ found. IfSome found IsIndexed) }
{
    let mut entries = Entries::new(alloc);
    let mut rest = upload;
    'types: for i in 0..count {
        match read_type(rest) {
            None => return Ok(None),
            Some((entry, behind)) => {
                entries.add(alloc, entry)?;
                rest = behind;
            }
        }
    }
    if rest.is_empty() {
        Ok(Some(entries))
    } else {
        Ok(None)
    }
}

/// The types that the entries are.
pub(crate) fn read_types<'a>(
    alloc: Global,
    entries: &Entries<'a>,
) -> Result<Vec<ReadType<'a>>, NoMemory>
    requires { IsIndexed entries.now }
    ensures types { IfOk result (λ ts. types_kept ts.items ≡ entries_meant entries.now) }
    ensures table { IfOk result (λ ts. IsTable ts.items) }
{
    let mut types = Vec::new(alloc);
    for entry in entries.list.as_slice() {
        let t = with_members(alloc, entries, *entry)?;
        types.push(t)?;
    }
    Ok(types)
}

// The type that an entry is, with the members that its sub entries are.
fn with_members<'a>(
    alloc: Global,
    entries: &Entries<'a>,
    entry: TypeEntry<'a>,
) -> Result<ReadType<'a>, NoMemory>
    requires indexed { IsIndexed entries.now }
    requires subs { HasSubs entry }
    ensures same { IfOk result (λ t. type_kept t ≡ entry_meant entry.entry) }
    ensures found { IfOk result (λ t. AreFound (entries_meant entries.now) t.members.items) }
{
    let mut members = Vec::new(alloc);
    let mut rest = entry.sub_bytes;
    'members: for i in 0..entry.subs {
        match read_type(rest) {
            None => unreachable!(),
            Some((sub, behind)) => {
                members.push(member_of(entries, sub))?;
                rest = behind;
            }
        }
    }
    Ok(ReadType { entry, members })
}

// The member that a sub entry is.
fn member_of<'a>(entries: &Entries<'_>, entry: TypeEntry<'a>) -> Member<'a>
    requires { IsIndexed entries.now }
    ensures entry { result.entry ≡ entry.entry }
    ensures found { IsMemberFound (entries_meant entries.now) result }
{
    Member {
        entry,
        text: entries.found_text(entry.kind),
    }
}
