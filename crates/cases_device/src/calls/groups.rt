//! Calls of index_groups.

use case_sheets::{Answer, Args, Fault};
use index_groups::{
    Group, HandleGroup, NameGroup, Reach, SumGroup, UploadGroup, byte_group, reach,
};
use type_layout::{Area, Sizes};

pub fn make(call: &str, args: &mut Args<'_>, answer: &mut Answer) -> Result<(), Fault> {
    match call {
        "reach" => reached(args, answer),
        "group" => group_known(args, answer),
        "byte_group" => bytes_named(args, answer),
        _ => return Err(Fault::NoCall),
    }
    Ok(())
}

// The sizes of inputs, outputs, memory and data; then group, offset and length of the access.
fn reached(args: &mut Args<'_>, answer: &mut Answer) {
    let sizes = Sizes {
        inputs: args.u32(),
        outputs: args.u32(),
        memory: args.u32(),
        process: args.u32(),
    };
    let group = args.u32();
    let offset = args.u32();
    let len = args.u32();
    match reach(&sizes, group, offset, len) {
        Ok(reach) => show(&reach, answer),
        Err(code) => answer.tell_code(code.number()),
    }
}

// A group: what it names.
fn group_known(args: &mut Args<'_>, answer: &mut Answer) {
    match Group::of(args.u32()) {
        Some(group) => show_known(group, answer),
        None => answer.say("none"),
    }
}

fn show_known(group: Group, answer: &mut Answer) {
    match group {
        Group::Bytes(area) => show_group(area, "bytes", answer),
        Group::Bit(area) => show_group(area, "bit", answer),
        Group::Size(area) => show_group(area, "size", answer),
        Group::Handle(which) => answer.say(handle_word(which)),
        Group::Name(which) => answer.say(name_word(which)),
        Group::Version => answer.say("version"),
        Group::Upload(which) => answer.say(upload_word(which)),
        Group::Sum(which) => answer.say(sum_word(which)),
    }
}

fn handle_word(which: HandleGroup) -> &'static str {
    match which {
        HandleGroup::ByName => "handle_by_name",
        HandleGroup::Value => "value_by_handle",
        HandleGroup::Release => "release",
    }
}

fn name_word(which: NameGroup) -> &'static str {
    match which {
        NameGroup::Value => "value_by_name",
        NameGroup::Info => "info_by_name",
        NameGroup::Entry => "entry_by_name",
    }
}

fn upload_word(which: UploadGroup) -> &'static str {
    match which {
        UploadGroup::Symbols => "symbols",
        UploadGroup::Info => "symbol_sizes",
        UploadGroup::Types => "types",
        UploadGroup::InfoWithTypes => "all_sizes",
    }
}

fn sum_word(which: SumGroup) -> &'static str {
    match which {
        SumGroup::Read => "sum_read",
        SumGroup::Write => "sum_write",
        SumGroup::ReadWrite => "sum_read_write",
    }
}

fn show_group(area: Area, kind: &str, answer: &mut Answer) {
    answer.say(word_of(area));
    answer.say(kind);
}

// An area: the group of its bytes.
fn bytes_named(args: &mut Args<'_>, answer: &mut Answer) {
    match args.name() {
        "inputs" => answer.tell_code(byte_group(Area::Inputs)),
        "outputs" => answer.tell_code(byte_group(Area::Outputs)),
        "memory" => answer.tell_code(byte_group(Area::Memory)),
        "data" => answer.tell_code(byte_group(Area::Process)),
        _ => args.refuse(),
    }
}

fn show(reach: &Reach, answer: &mut Answer) {
    match reach {
        Reach::Bytes { area, at, len } => {
            answer.say(word_of(*area));
            answer.name("bytes", u64::from(*at));
            answer.tell(u64::from(*len));
        }
        Reach::Bit { area, at, bit } => {
            answer.say(word_of(*area));
            answer.name("bit", u64::from(*at));
            answer.tell(u64::from(*bit));
        }
        Reach::Size { area } => show_group(*area, "size", answer),
    }
}

fn word_of(area: Area) -> &'static str {
    match area {
        Area::Inputs => "inputs",
        Area::Outputs => "outputs",
        Area::Memory => "memory",
        Area::Process => "data",
    }
}
