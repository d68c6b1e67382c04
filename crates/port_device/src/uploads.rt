//! Reads of the uploads of a port: the entries of its symbols and of all types, and their sizes.

ghost use Rattle.std.specs.Prelude.{◌≡◌, ◌++◌, length, flat_map, IfOk, OnOk, OnErr};
ghost use Rattle.std.specs.Int.{w32, to_le_bytes};
ghost use Rattle.spec_plant.specs.World.{PlantPort};
ghost use Rattle.spec_machine.specs.Entries.{symbol_upload_of, type_upload_of, upload_info_of, upload_info_with_types_of};
ghost use Rattle.spec_machine.specs.Reads.{fixed_reply, type_upload_reply};
ghost use Rattle.spec_machine.specs.World.{World, setup_of};
ghost use Rattle.type_layout.specs.Spelled.{Extends};
ghost use Rattle.port_device.specs.Answers.{AnswersAct};
ghost use Rattle.port_device.specs.Holds.{HoldsPort};
ghost use Rattle.port_device.specs.Uploads.{upload_act};

use crate::entries::put_symbols;
use crate::port::Port;
use ads_base::{NoMemory, Octets, put32};
use index_groups::UploadGroup;
use return_codes::Code;
use std::alloc::Global;
use type_upload::put_types;

// The most bytes that a reply holds.
pub(crate) const MOST: u32 = 2_000_000;

/// The bytes of both uploads.
#[derive(Clone, Copy)]
pub(crate) struct UploadSizes {
    pub symbols: u32,
    pub types: u32,
}

impl Port {
    /// Appends an upload, or the sizes of uploads. 0x705 where it has more bytes than were asked for.
    #[inline(never)]
    pub(crate) fn read_upload(
        &self,
        alloc: Global,
        upload: UploadGroup,
        len: u32,
        out: &mut Octets,
    ) -> Result<Result<(), Code>, NoMemory>
        ensures answer { IfOk result (λ answer. (w : World) (p : PlantPort) → HoldsPort w p self.now
            → AnswersAct w (upload_act (setup_of w) p upload len) answer out.old out.new) }
        ensures no_memory { OnErr result (out.new ≡ out.old) }
    {
        match upload {
            UploadGroup::Symbols => self.read_symbols(alloc, len, out),
            UploadGroup::Info => self.read_symbol_sizes(alloc, len, out),
            UploadGroup::Types => self.read_types(alloc, len, out),
            UploadGroup::InfoWithTypes => self.read_all_sizes(alloc, len, out),
        }
    }

    // The entries of all symbols.
    fn read_symbols(
        &self,
        alloc: Global,
        len: u32,
        out: &mut Octets,
    ) -> Result<Result<(), Code>, NoMemory>
        ensures answer { IfOk result (λ answer. (w : World) (p : PlantPort) → HoldsPort w p self.now
            → AnswersAct w (fixed_reply len (symbol_upload_of w.profile.manner p)) answer out.old out.new) }
        ensures no_memory { OnErr result (out.new ≡ out.old) }
    {
        if len < self.uploads.symbols {
            return Ok(Err(Code::C705));
        }
        put_symbols(alloc, self.manner, &self.types, &self.table, out)?;
        Ok(Ok(()))
    }

    // The entries of all types.
    fn read_types(
        &self,
        alloc: Global,
        len: u32,
        out: &mut Octets,
    ) -> Result<Result<(), Code>, NoMemory>
        ensures answer { IfOk result (λ answer. (w : World) (p : PlantPort) → HoldsPort w p self.now
            → AnswersAct w (type_upload_reply len (type_upload_of w.plant)) answer out.old out.new) }
        ensures no_memory { OnErr result (out.new ≡ out.old) }
    {
        if MOST < self.uploads.types || len < self.uploads.types {
            return Ok(Err(Code::C705));
        }
        put_types(alloc, &self.types, out)?;
        Ok(Ok(()))
    }

    // How many symbols there are, and the size of their upload.
    fn read_symbol_sizes(
        &self,
        alloc: Global,
        len: u32,
        out: &mut Octets,
    ) -> Result<Result<(), Code>, NoMemory>
        ensures answer { IfOk result (λ answer. (w : World) (p : PlantPort) → HoldsPort w p self.now
            → AnswersAct w (fixed_reply len (upload_info_of w.profile.manner p)) answer out.old out.new) }
        ensures no_memory { OnErr result (out.new ≡ out.old) }
    {
        if len < 8 {
            return Ok(Err(Code::C705));
        }
        put_numbers(alloc, &[self.symbol_count(), self.uploads.symbols], out)?;
        Ok(Ok(()))
    }

    // The same of symbols and of types.
    fn read_all_sizes(
        &self,
        alloc: Global,
        len: u32,
        out: &mut Octets,
    ) -> Result<Result<(), Code>, NoMemory>
        ensures answer { IfOk result (λ answer. (w : World) (p : PlantPort) → HoldsPort w p self.now
            → AnswersAct w (fixed_reply len (upload_info_with_types_of w.profile.manner w.plant p)) answer out.old out.new) }
        ensures no_memory { OnErr result (out.new ≡ out.old) }
    {
        if len < 24 {
            return Ok(Err(Code::C705));
        }
        let symbols = self.symbol_count();
        let types = self.type_count();
        put_numbers(
            alloc,
            &[
                symbols,
                self.uploads.symbols,
                types,
                self.uploads.types,
                0,
                0,
            ],
            out,
        )?;
        Ok(Ok(()))
    }

    fn symbol_count(&self) -> u32
        ensures { result ≡ length self.now.table.symbols }
    {
        self.table.symbols().len() as u32
    }

    fn type_count(&self) -> u32
        ensures { result ≡ length self.now.types }
    {
        self.types.len() as u32
    }
}

// Numbers of 4 bytes, one after another.
fn put_numbers(alloc: Global, numbers: &[u32], out: &mut Octets) -> Result<(), NoMemory>
    ensures ok { OnOk result (out.new ≡ out.old ++ flat_map (to_le_bytes w32) numbers.now) }
    ensures no_memory { OnErr result (out.new ≡ out.old) }
{
    let before = out.len();
    let put = append_numbers(alloc, numbers, out);
    out.cut_back(before, put)
}

// After want of memory a part of the numbers may stand there.
fn append_numbers(alloc: Global, numbers: &[u32], out: &mut Octets) -> Result<(), NoMemory>
    ensures ok { OnOk result (out.new ≡ out.old ++ flat_map (to_le_bytes w32) numbers.now) }
    ensures no_memory { OnErr result (Extends out.old out.new) }
{
    for number in numbers {
        put32(alloc, out, *number)?;
    }
    Ok(())
}
