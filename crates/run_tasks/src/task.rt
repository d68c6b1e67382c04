//! What the words ask for.

ghost use Rattle.std.specs.Prelude.{◌≡◌, map, string_bytes, IfOk};
ghost use Rattle.run_tasks.specs.Tasks.{asked_task};
ghost use Rattle.run_tasks.specs.Fits.{FitsTask};

use crate::client_task::ClientTask;
use crate::command_task::task_of;
use crate::file_task::FileTask;
use crate::record_task::RecordTask;
use ads_base::NoMemory;
use cli_words::{ClientWords, Text, read_words};
use std::alloc::Global;

/// A command, with the names of its files.
#[derive(Drop)]
pub enum Task {
    /// It asks its files alone.
    OfFiles(FileTask),
    /// A description is served over the wire, until so many events were taken.
    Serve {
        description: Text,
        listen: Text,
        events: u64,
    },
    /// The relay of a description is served over the wire, until so many events were taken.
    RelayServe {
        description: Text,
        listen: Text,
        events: u64,
    },
    /// A script is played on the server of a description, and what its persistent symbols hold is kept in the file of a store.
    Keep {
        description: Text,
        script: Text,
        store: Text,
    },
    /// A client asks a server.
    Ask {
        what: ClientTask,
        client: ClientWords,
    },
    /// A client records what a server sends.
    Record(RecordTask),
}

/// The task that the words ask for; none where they are no command.
pub fn task_asked(alloc: Global, words: &[String]) -> Result<Option<Task>, NoMemory>
    ensures asked { IfOk result (λ task. task ≡ asked_task (map string_bytes words.now)) }
    ensures fits { IfOk result (λ task. FitsTask task) }
{
    match read_words(alloc, words) {
        Ok(Some(command)) => Ok(Some(task_of(command))),
        Ok(None) => Ok(None),
        Err(NoMemory) => Err(NoMemory),
    }
}
