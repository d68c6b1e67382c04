//! The single requests that the parts of a sum are.

use crate::asker::Asker;
use crate::lending::data_lent;
use crate::requests::{NoteRequest, ReadRequest, ReadWriteRequest, WriteRequest};
use crate::{granting, reading, watching, writing};
use ads_base::{NoMemory, Octets};
use notify_table::Watches;
use port_device::Port;
use return_codes::Code;
use std::alloc::Global;
use sum_commands::PartService;
use sym_handles::Handles;

/// One client at one port, who runs single requests. After want of memory the part that wanted it may be done.
#[derive(Drop)]
pub(crate) struct Single<'a> {
    pub(crate) handles: &'a mut Handles,
    pub(crate) watches: &'a mut Watches,
    pub(crate) port: &'a mut Port,
    pub(crate) asker: Asker,
}

impl PartService for Single<'_> {
    ghost use Rattle.session.specs.Single.{SumState, IsSingle, part_outcome, state_after, MayLeave};

    ghost State = { SumState };

    ghost stands_for = { IsSingle };

    ghost given = { part_outcome };

    ghost left = { state_after };

    ghost may_leave = { MayLeave };

    #[inline(always)]
    fn read(
        &mut self,
        alloc: Global,
        group: u32,
        offset: u32,
        len: u32,
        out: &mut Octets,
    ) -> Result<Result<(), Code>, NoMemory> {
        let asked = ReadRequest { group, offset, len };
        reading::read(alloc, &*self.handles, &*self.port, &asked, out)
    }

    #[inline(always)]
    fn lent(&self, group: u32, offset: u32, len: u32) -> Option<&[u8]> {
        data_lent(&*self.port, group, offset, len)
    }

    fn write(&mut self, group: u32, offset: u32, bytes: &[u8]) -> Result<(), Code> {
        let asked = WriteRequest {
            group,
            offset,
            bytes,
        };
        writing::write(&mut *self.handles, &mut *self.port, self.asker, &asked)
    }

    fn read_write(
        &mut self,
        alloc: Global,
        group: u32,
        offset: u32,
        read_len: u32,
        bytes: &[u8],
        out: &mut Octets,
    ) -> Result<Result<(), Code>, NoMemory> {
        let asked = ReadWriteRequest {
            group,
            offset,
            len: read_len,
            bytes,
        };
        granting::read_write(alloc, &mut *self.handles, &*self.port, &asked, out)
    }

    fn add(
        &mut self,
        alloc: Global,
        group: u32,
        offset: u32,
        len: u32,
        mode: u32,
        _delay: u32,
        cycle: u32,
    ) -> Result<Result<u32, Code>, NoMemory> {
        let asked = NoteRequest {
            group,
            offset,
            len,
            mode,
            cycle,
        };
        watching::add(
            alloc,
            &*self.handles,
            &mut *self.watches,
            &*self.port,
            self.asker,
            &asked,
        )
    }

    fn delete(&mut self, handle: u32) -> Result<(), Code> {
        watching::delete(&mut *self.watches, self.port.number(), handle)
    }
}
