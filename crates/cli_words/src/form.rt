//! The commands by their names, and the options that each may have.

ghost use Rattle.std.specs.Prelude.{◌≡◌, bytes_eq, map};
ghost use Rattle.std.specs.List.{list_any};
ghost use Rattle.cli_words.specs.Forms.{form_in, form_of, options_of, server_options, client_options, sample_options};

/// A command's name.
#[derive(Clone, Copy)]
pub(crate) enum Form {
    Selftest,
    Check,
    Replay,
    Serve,
    Load,
    Info,
    State,
    List,
    Control,
    Get,
    Set,
    Watch,
    Migrate,
    Show,
    Relay,
    Keep,
    Record,
}

// The commands by their names.
const FORMS: [(&str, Form); 17] = [
    ("selftest", Form::Selftest),
    ("check", Form::Check),
    ("replay", Form::Replay),
    ("serve", Form::Serve),
    ("load", Form::Load),
    ("info", Form::Info),
    ("state", Form::State),
    ("list", Form::List),
    ("control", Form::Control),
    ("get", Form::Get),
    ("set", Form::Set),
    ("watch", Form::Watch),
    ("migrate", Form::Migrate),
    ("show", Form::Show),
    ("relay", Form::Relay),
    ("keep", Form::Keep),
    ("record", Form::Record),
];

/// The command of a name.
#[tactic(auto, unfolding(crate::specs::Forms::form_of))]
pub(crate) fn form_of_name(name: &str) -> Option<Form>
    ensures { result ≡ form_of name.now }
{
    form_among(&FORMS, name)
}

// The command of a name among these.
fn form_among(rows: &[(&str, Form)], name: &str) -> Option<Form>
    ensures { result ≡ form_in (map (λ row. (row.0.now, row.1)) rows.now) name.now }
{
    for (word, form) in rows {
        if name == *word {
            return Some(*form);
        }
    }
    None
}

/// Whether a command may have an option of this name.
#[tactic(auto, unfolding(crate::specs::Forms::options_of))]
pub(crate) fn allows(form: Form, option: &str) -> bool
    ensures { result ≡ list_any (bytes_eq option.now) (options_of form) }
{
    match form {
        Form::Serve | Form::Relay => is_server_option(option),
        Form::Info
        | Form::State
        | Form::List
        | Form::Control
        | Form::Get
        | Form::Set
        | Form::Show => is_client_option(option),
        Form::Watch => is_client_option(option) || is_sample_option(option),
        Form::Record => {
            option == "--store" || is_client_option(option) || is_sample_option(option)
        }
        Form::Selftest | Form::Check | Form::Replay | Form::Load | Form::Migrate | Form::Keep =>
            false,
    }
}

fn is_server_option(option: &str) -> bool
    ensures { result ≡ list_any (bytes_eq option.now) server_options }
{
    option == "--listen" || option == "--events"
}

fn is_client_option(option: &str) -> bool
    ensures { result ≡ list_any (bytes_eq option.now) client_options }
{
    option == "--me"
        || option == "--port"
        || option == "--to"
        || option == "--netid"
        || option == "--local"
}

fn is_sample_option(option: &str) -> bool
    ensures { result ≡ list_any (bytes_eq option.now) sample_options }
{
    option == "--mode" || option == "--cycle" || option == "--count"
}
