//! The groups of handles and of sums.

ghost use Rattle.std.specs.Prelude.{◌≡◌, is_some};
ghost use Rattle.spec_formats.specs.Groups.{group_of};
ghost use Rattle.spec_machine.specs.MoreSums.{wide_sums, sums_in_manner};
ghost use Rattle.session.specs.HandleGroups as groups;

use index_groups::{Group, HandleGroup, NameGroup, RELEASE_HANDLE, VALUE_BY_HANDLE};
use port_device::Port;
use sum_commands::{SUM_ADD, SUM_DELETE, SUM_SHORT_READ, SUM_TOLD_READ};

/// The group of a port's state words, which the wide server alone knows (ADSIGRP_DEVICE_DATA).
pub(crate) const DEVICE_DATA: u32 = 0xF100;

/// Whether the group of a number is that of the state words of a wide port.
#[inline(always)]
pub(crate) fn is_device_data(port: &Port, number: u32) -> bool
    ensures { result ≡ groups.reads_states port.now.manner number }
{
    if number != DEVICE_DATA {
        return false;
    }
    port.is_wide()
}

/// Whether the group of a number gives a handle by a name.
pub(crate) fn is_handle_by_name(number: u32) -> bool
    ensures { result ≡ groups.is_handle_by_name (group_of number) }
{
    match Group::of(number) {
        Some(Group::Handle(HandleGroup::ByName)) => true,
        _ => false,
    }
}

/// Whether the group of a number is that of values by their handles.
pub(crate) fn is_value_by_handle(number: u32) -> bool
    ensures { result ≡ groups.is_value_by_handle (group_of number) }
{
    number == VALUE_BY_HANDLE
}

/// Whether the group of a number gives a value by its name.
pub(crate) fn is_value_by_name(number: u32) -> bool
    ensures { result ≡ groups.is_value_by_name (group_of number) }
{
    match Group::of(number) {
        Some(Group::Name(NameGroup::Value)) => true,
        _ => false,
    }
}

/// Whether the data of a ReadWrite of a group is a name.
pub(crate) fn takes_name(number: u32) -> bool
    ensures { result ≡ groups.takes_name (group_of number) }
{
    match Group::of(number) {
        Some(Group::Handle(HandleGroup::ByName)) | Some(Group::Name(_)) => true,
        _ => false,
    }
}

/// Whether the group of a number releases a handle.
pub(crate) fn is_release(number: u32) -> bool
    ensures { result ≡ groups.is_release (group_of number) }
{
    number == RELEASE_HANDLE
}

/// Whether the group of a number is that of a sum.
pub(crate) fn is_sum(number: u32) -> bool
    ensures { result ≡ groups.is_sum (group_of number) }
{
    match Group::of(number) {
        Some(Group::Sum(_)) => true,
        _ => false,
    }
}

/// Whether a ReadWrite of the group of a number has parts: a wide port knows more sums than a strict one.
#[inline(always)]
pub(crate) fn takes_parts(port: &Port, number: u32) -> bool
    ensures { result ≡ groups.takes_parts port.now.manner number }
{
    is_sum(number) || is_more_sum(port, number)
}

// Whether the group of a number is that of a sum which only a wide port knows.
#[inline(always)]
fn is_more_sum(port: &Port, number: u32) -> bool
    ensures { result ≡ is_some (sums_in_manner port.now.manner number) }
{
    if !port.is_wide() {
        return false;
    }
    is_wide_sum(number)
}

fn is_wide_sum(number: u32) -> bool
    ensures { result ≡ is_some (wide_sums number) }
{
    number == SUM_TOLD_READ || number == SUM_SHORT_READ || number == SUM_ADD || number == SUM_DELETE
}
