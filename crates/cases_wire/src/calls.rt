//! The calls that a case may name, a library a line.

mod base;
mod codes;
mod frames;
mod header;
mod names;
mod notes;
mod outside;
mod paths;
mod payloads;
mod queues;
mod replies;
mod requests;
mod scripts;
mod symbols;
mod values;
mod waves;
mod words;

use ads_base::NoMemory;
use ams_tcp::Splitter;
use case_sheets::{Answer, Args, Fault, Libraries};
use out_queue::OutQueue;
use std::alloc::Global;

/// The objects that have a history.
#[derive(Drop)]
pub struct Wire {
    splitter: Splitter,
    queue: OutQueue,
}

impl Libraries for Wire {
    fn new(alloc: Global) -> Result<Self, NoMemory> {
        Ok(Wire {
            splitter: Splitter::new(alloc)?,
            queue: OutQueue::new(alloc)?,
        })
    }

    fn make(
        &mut self,
        alloc: Global,
        library: &str,
        call: &str,
        args: &mut Args<'_>,
        answer: &mut Answer,
    ) -> Result<(), Fault> {
        match library {
            "ads_base" => base::make(alloc, call, args, answer),
            "ads_commands" => payloads::make(alloc, call, args, answer),
            "ads_outside" => outside::make(alloc, call, args, answer),
            "ams_header" => header::make(call, args, answer),
            "ams_tcp" => frames::make(alloc, &mut self.splitter, call, args, answer),
            "cli_words" => words::make(alloc, call, args, answer),
            "name_index" => names::make(alloc, call, args, answer),
            "name_paths" => paths::make(call, args, answer),
            "notify_frames" => notes::make(alloc, call, args, answer),
            "out_queue" => queues::make(alloc, &mut self.queue, call, args, answer),
            "replay_script" => scripts::make(alloc, call, args, answer),
            "return_codes" => codes::make(alloc, call, args, answer),
            "signals" => waves::make(alloc, call, args, answer),
            "symbol_info" => symbols::make(alloc, call, args, answer),
            "value_text" => values::make(alloc, call, args, answer),
            _ => Err(Fault::NoCall),
        }
    }
}
