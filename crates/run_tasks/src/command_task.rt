//! The task of a command.

ghost use Rattle.std.specs.Prelude.{◌≡◌};
ghost use Rattle.run_tasks.specs.Tasks.{task_of_command};

use crate::client_task::ClientTask;
use crate::file_task::FileTask;
use crate::record_task::RecordTask;
use crate::task::Task;
use cli_words::{ClientWords, Command};

/// The task of a command.
#[tactic(auto, unfolding(crate::specs::Tasks::task_of_command))]
pub(crate) fn task_of(command: Command) -> Task
    ensures { result ≡ task_of_command command }
{
    match command {
        Command::Selftest { script } => Task::OfFiles(FileTask::Selftest { script }),
        Command::Check { description } => Task::OfFiles(FileTask::Check { description }),
        Command::Replay {
            description,
            script,
        } => Task::OfFiles(FileTask::Replay {
            description,
            script,
        }),
        Command::Serve {
            description,
            listen,
            events,
        } => Task::Serve {
            description,
            listen,
            events,
        },
        Command::Load { n } => Task::OfFiles(FileTask::Load { n }),
        Command::Info(client) => ask(ClientTask::Info, client),
        Command::State(client) => ask(ClientTask::State, client),
        Command::List(client) => ask(ClientTask::List, client),
        Command::Control {
            ads,
            device,
            client,
        } => ask(ClientTask::Control { ads, device }, client),
        Command::Get { name, client } => ask(ClientTask::Get { name }, client),
        Command::Set {
            name,
            value,
            client,
        } => ask(ClientTask::Set { name, value }, client),
        Command::Watch {
            name,
            change,
            cycle,
            count,
            client,
        } => ask(
            ClientTask::Watch {
                name,
                change,
                cycle,
                count,
            },
            client,
        ),
        Command::Migrate { description } => Task::OfFiles(FileTask::Migrate { description }),
        Command::Show { name, client } => ask(ClientTask::Show { name }, client),
        Command::Relay {
            description,
            script,
        } => Task::OfFiles(FileTask::Relay {
            description,
            script,
        }),
        Command::RelayServe {
            description,
            listen,
            events,
        } => Task::RelayServe {
            description,
            listen,
            events,
        },
        Command::Keep {
            description,
            script,
            store,
        } => Task::Keep {
            description,
            script,
            store,
        },
        Command::Record {
            names,
            change,
            cycle,
            count,
            store,
            client,
        } => Task::Record(RecordTask {
            names,
            change,
            cycle,
            count,
            store,
            client,
        }),
    }
}

fn ask(what: ClientTask, client: ClientWords) -> Task
    ensures { result ≡ Task.Ask what client }
{
    Task::Ask { what, client }
}
