//! Calls of name_paths.

use case_sheets::{Answer, Args, Fault};
use name_paths::{Indexes, Path, Step, is_identifier, is_symbol_name, read_number};

pub fn make(call: &str, args: &mut Args<'_>, answer: &mut Answer) -> Result<(), Fault> {
    match call {
        "is_identifier" => answer.tell_truth(is_identifier(args.octets().as_slice())),
        "is_symbol_name" => answer.tell_truth(is_symbol_name(args.octets().as_slice())),
        "read_number" => number_read(args, answer),
        "path" => path_read(args, answer),
        "path.step" => step_read(args, answer),
        _ => return Err(Fault::NoCall),
    }
    Ok(())
}

fn number_read(args: &mut Args<'_>, answer: &mut Answer) {
    let text = args.octets();
    match read_number(text.as_slice()) {
        Some(n) => answer.tell_signed(i64::from(n)),
        None => answer.say("none"),
    }
}

// The steps of a path, in order.
fn path_read(args: &mut Args<'_>, answer: &mut Answer) {
    let text = args.octets();
    let Some(path) = Path::read(text.as_slice()) else {
        answer.say("none");
        return;
    };
    let (first, mut later) = path.first();
    answer.quote(first);
    for _ in 0..text.len() {
        let Some((step, behind)) = later.next() else {
            break;
        };
        show(&step, answer);
        later = behind;
    }
}

// The path, and the number of the step, counted from 0.
fn step_read(args: &mut Args<'_>, answer: &mut Answer) {
    let text = args.octets();
    let n = args.u32() as usize;
    let Some(path) = Path::read(text.as_slice()) else {
        answer.say("none");
        return;
    };
    match path.step(n) {
        Some(step) => show(&step, answer),
        None => answer.say("none"),
    }
}

fn show(step: &Step<'_>, answer: &mut Answer) {
    match step {
        Step::Name(name) => answer.quote(name),
        Step::Index(indexes) => show_indexes(indexes, answer),
    }
}

// The number of indexes, and the three places.
fn show_indexes(indexes: &Indexes, answer: &mut Answer) {
    answer.name("index", u64::from(indexes.count));
    answer.tell_signed(i64::from(indexes.i));
    answer.tell_signed(i64::from(indexes.j));
    answer.tell_signed(i64::from(indexes.k));
}
