//! The paths of an array's elements.

ghost use Rattle.std.specs.Prelude.{◌≡◌, ◌^◌, ◌<◌, ◌++◌, ◌∷◌, [], map, pos, codes, ◌+ℤ◌, IfOk, OnOk};
ghost use Rattle.spec_plant.specs.Spelling.{integer_text};
ghost use Rattle.spec_client.specs.LeafTypes.{elements_of};
ghost use Rattle.type_layout.specs.ReadTexts.{ends_of, text_of};
ghost use Rattle.client_leaves.specs.Paths.{paths_from};

use crate::dimensions::elements_of;
use ads_base::{ListOf, NoMemory, Octets};
use std::alloc::Global;
use type_layout::{Ends, TypeText};

/// The path of a member.
pub(crate) fn member_path(alloc: Global, path: &[u8], name: &[u8]) -> Result<Octets, NoMemory>
    ensures { IfOk result (λ text. text ≡ path.now ++ codes "." ++ name.now) }
{
    let mut text = Octets::copy_of(alloc, path)?;
    text.push(alloc, b'.')?;
    text.put(alloc, name)?;
    Ok(text)
}

/// The paths of all elements of an array, the last index moving fastest.
pub(crate) fn element_paths(
    alloc: Global,
    path: &[u8],
    text: &TypeText<'_>,
) -> Result<ListOf<Octets>, NoMemory>
    requires { 0 < text.now.count }
    ensures { IfOk result (λ paths. paths ≡ paths_from 91 path.now (text_of text.now).ends) }
{
    let mut paths = ListOf::new(alloc);
    if text.count == 1 {
        put_paths(alloc, b'[', path, &[text.first], &mut paths)?;
    } else if text.count == 2 {
        put_paths(alloc, b'[', path, &[text.first, text.second], &mut paths)?;
    } else {
        let ends = [text.first, text.second, text.third];
        put_paths(alloc, b'[', path, &ends, &mut paths)?;
    }
    Ok(paths)
}

// The separator stands before the index of the first of these dimensions, and a comma before each further one.
fn put_paths(
    alloc: Global,
    separator: u8,
    before: &[u8],
    ends: &[Ends],
    paths: &mut ListOf<Octets>,
) -> Result<(), NoMemory>
    ensures { OnOk result (paths.new ≡ paths.old ++ paths_from separator before.now (map ends_of ends.now)) }
{
    match ends {
        [] => {
            let path = closed_path(alloc, before)?;
            paths.push(alloc, path)?;
            Ok(())
        }
        [first, others @ ..] => {
            for k in 0..elements_of(*first) {
                let path = index_path(alloc, separator, before, *first, k)?;
                put_paths(alloc, b',', path.as_slice(), others, paths)?;
            }
            Ok(())
        }
    }
}

fn closed_path(alloc: Global, before: &[u8]) -> Result<Octets, NoMemory>
    ensures { IfOk result (λ path. path ≡ before.now ++ 93 ∷ []) }
{
    let mut path = Octets::copy_of(alloc, before)?;
    path.push(alloc, b']')?;
    Ok(path)
}

// An index more.
fn index_path(
    alloc: Global,
    separator: u8,
    before: &[u8],
    ends: Ends,
    k: u64,
) -> Result<Octets, NoMemory>
    requires { k < elements_of (ends_of ends) }
    ensures { IfOk result (λ path. path ≡ before.now ++ separator ∷ integer_text (ends.low +ℤ pos k)) }
{
    let mut path = Octets::copy_of(alloc, before)?;
    path.push(alloc, separator)?;
    let index = index_at(ends, k);
    let digits = format!(in alloc; "{index}")?;
    path.put(alloc, digits.as_bytes())?;
    Ok(path)
}

fn index_at(ends: Ends, k: u64) -> i64
    requires { k < 2 ^ 32 }
    ensures { result ≡ ends.low +ℤ pos k }
{
    i64::from(ends.low) + k as i64
}
