//! What a description tells at the start, and what stands in a store.

ghost use Rattle.std.specs.Prelude.{IfOk, IfSome};
ghost use Rattle.type_layout.specs.Descriptions.{description_of};
ghost use Rattle.port_device.specs.Holds.{WasAccepted};

use ads_base::{NetId, NoMemory, Octets};
use persist_store::{Store, StoreOpen};
use port_device::Ports;
use std::alloc::Global;
use store_file::StoreFile;
use symbol_file::read;
use type_layout::Description;

/// The body that stands in the store of a name, an empty one where nothing stands; None where the disk failed.
pub(crate) fn standing_body(
    alloc: Global,
    disk: &mut StoreFile,
    store: &str,
) -> Result<Option<Octets>, NoMemory> {
    match Store::open(alloc, disk, store)? {
        StoreOpen::Ready(store) => Ok(Some(copy_of(alloc, &store)?)),
        StoreOpen::Failed => Ok(None),
    }
}

fn copy_of(alloc: Global, store: &Store) -> Result<Octets, NoMemory> {
    match store.body() {
        Some(body) => Octets::copy_of(alloc, body),
        None => Ok(Octets::new(alloc)),
    }
}

/// The body of what a description's text has at first, for so many signals; None where it is not accepted.
pub(crate) fn first_body(
    alloc: Global,
    text: &[u8],
    signals: u32,
) -> Result<Option<Octets>, NoMemory> {
    match accepted(alloc, text, signals)? {
        Some(d) => Ok(Some(body_of(alloc, &d)?)),
        None => Ok(None),
    }
}

/// The NetId of a description's text, for so many signals; None where it is not accepted.
pub(crate) fn net_in(alloc: Global, text: &[u8], signals: u32) -> Result<Option<NetId>, NoMemory> {
    match accepted(alloc, text, signals)? {
        Some(d) => Ok(Some(d.net)),
        None => Ok(None),
    }
}

fn accepted(alloc: Global, text: &[u8], signals: u32) -> Result<Option<Description>, NoMemory>
    ensures { IfOk result (λ d. IfSome d (λ one. WasAccepted (description_of one))) }
{
    match read(alloc, text, signals)? {
        Ok(d) => Ok(Some(d)),
        Err(_) => Ok(None),
    }
}

#[tactic(auto, using(port_device::proofs::BuiltLemmas::accepted_may_be_built))]
fn body_of(alloc: Global, d: &Description) -> Result<Octets, NoMemory>
    requires { WasAccepted (description_of d.now) }
{
    let ports = Ports::build(alloc, d)?;
    let mut body = Octets::new(alloc);
    ports.persistent(alloc, &mut body)?;
    Ok(body)
}
