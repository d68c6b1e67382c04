//! Calls of cli_words.

use ads_base::NoMemory;
use case_sheets::{Answer, Args, Fault};
use cli_words::{ClientWords, Command, PeerWords, Text, TextList, read_words};
use std::alloc::Global;

pub fn make(
    alloc: Global,
    call: &str,
    args: &mut Args<'_>,
    answer: &mut Answer,
) -> Result<(), Fault> {
    match call {
        "read_words" => read(alloc, args, answer)?,
        _ => return Err(Fault::NoCall),
    }
    Ok(())
}

// The words of a line, which stand apart by one space each; no words where there is no line.
fn read(alloc: Global, args: &mut Args<'_>, answer: &mut Answer) -> Result<(), NoMemory> {
    let mut words = Vec::new(alloc);
    if args.has_more() {
        match std::str::from_utf8(args.octets().as_slice()) {
            Ok(line) => put_words(alloc, line, &mut words)?,
            Err(_) => args.refuse(),
        }
    }
    match read_words(alloc, words.as_slice())? {
        Some(command) => say_command(&command, answer),
        None => answer.say("usage"),
    }
    Ok(())
}

fn put_words(alloc: Global, line: &str, words: &mut Vec<String>) -> Result<(), NoMemory> {
    for word in line.split(' ') {
        words.push(String::from_str(alloc, word)?)?;
    }
    Ok(())
}

// A text in quotes; a long one is told by its length.
fn say_text(text: &Text, answer: &mut Answer) {
    let text = text.as_str().as_bytes();
    if text.len() > 300 {
        answer.name("bytes", text.len() as u64);
    } else {
        answer.quote(text);
    }
}

fn say_texts(name: &str, texts: &[&Text], answer: &mut Answer) {
    answer.say(name);
    for text in texts {
        say_text(text, answer);
    }
}

fn say_command(command: &Command, answer: &mut Answer) {
    match command {
        Command::Selftest { script } => say_texts("selftest", &[script], answer),
        Command::Check { description } => say_texts("check", &[description], answer),
        Command::Migrate { description } => say_texts("migrate", &[description], answer),
        Command::Replay {
            description,
            script,
        } => say_texts("replay", &[description, script], answer),
        Command::Relay {
            description,
            script,
        } => say_texts("relay", &[description, script], answer),
        Command::Keep {
            description,
            script,
            store,
        } => say_texts("keep", &[description, script, store], answer),
        Command::Load { n } => answer.name("load", *n),
        Command::Serve {
            description,
            listen,
            events,
        } => say_served("serve", description, listen, *events, answer),
        Command::RelayServe {
            description,
            listen,
            events,
        } => say_served("relay-serve", description, listen, *events, answer),
        _ => say_client_command(command, answer),
    }
}

fn say_served(name: &str, description: &Text, listen: &Text, events: u64, answer: &mut Answer) {
    say_texts(name, &[description], answer);
    say_texts("listen", &[listen], answer);
    answer.name("events", events);
}

fn say_client_command(command: &Command, answer: &mut Answer) {
    match command {
        Command::Info(client) => say_asked("info", &[], client, answer),
        Command::State(client) => say_asked("state", &[], client, answer),
        Command::List(client) => say_asked("list", &[], client, answer),
        Command::Get { name, client } => say_asked("get", &[name], client, answer),
        Command::Show { name, client } => say_asked("show", &[name], client, answer),
        Command::Set {
            name,
            value,
            client,
        } => say_asked("set", &[name, value], client, answer),
        Command::Control {
            ads,
            device,
            client,
        } => {
            answer.name("control", *ads);
            answer.tell(*device);
            say_client(client, answer);
        }
        Command::Watch {
            name,
            change,
            cycle,
            count,
            client,
        } => {
            say_texts("watch", &[name], answer);
            say_mode(*change, *cycle, *count, answer);
            say_client(client, answer);
        }
        Command::Record {
            names,
            change,
            cycle,
            count,
            store,
            client,
        } => {
            say_names(names, answer);
            say_mode(*change, *cycle, *count, answer);
            say_texts("store", &[store], answer);
            say_client(client, answer);
        }
        _ => answer.say("another command"),
    }
}

fn say_names(names: &TextList, answer: &mut Answer) {
    answer.say("record");
    for name in names.as_slice() {
        say_text(name, answer);
    }
}

fn say_mode(change: bool, cycle: u64, count: u64, answer: &mut Answer) {
    answer.name(if change { "change" } else { "cycle" }, cycle);
    answer.name("count", count);
}

fn say_asked(name: &str, texts: &[&Text], client: &ClientWords, answer: &mut Answer) {
    say_texts(name, texts, answer);
    say_client(client, answer);
}

fn say_client(client: &ClientWords, answer: &mut Answer) {
    answer.say("me");
    answer.tell_net(client.me);
    answer.name("port", client.port);
    match &client.peer {
        PeerWords::To { to, net } => {
            say_texts("to", &[to], answer);
            answer.say("netid");
            answer.tell_net(*net);
        }
        PeerWords::Local(description) => say_texts("local", &[description], answer),
    }
}
