//! What can be set for a daemon, by an option or by a key of its configuration.

/// One thing that can be set.
#[derive(Clone, Copy, Debug, PartialEq, Eq)]
pub enum Field {
    Description,
    Listen,
    Store,
    SaveEach,
    StoreDamaged,
    KeepDescription,
    Settle,
    Allow,
    OtherRoutes,
    Profile,
    Signal,
    Status,
    Log,
    StopFile,
}

// All of them.
const FIELDS: [Field; 14] = [
    Field::Description,
    Field::Listen,
    Field::Store,
    Field::SaveEach,
    Field::StoreDamaged,
    Field::KeepDescription,
    Field::Settle,
    Field::Allow,
    Field::OtherRoutes,
    Field::Profile,
    Field::Signal,
    Field::Status,
    Field::Log,
    Field::StopFile,
];

// Those that an option sets.
const OPTIONS: [Field; 12] = [
    Field::Listen,
    Field::Store,
    Field::SaveEach,
    Field::StoreDamaged,
    Field::KeepDescription,
    Field::Settle,
    Field::Allow,
    Field::OtherRoutes,
    Field::Profile,
    Field::Status,
    Field::Log,
    Field::StopFile,
];

impl Field {
    ghost use Rattle.std.specs.Prelude.{◌≡◌, IfSome};
    ghost use Rattle.daemon_words.specs.Reading.{option_of};

    /// The field of a key.
    pub fn of_key(key: &str) -> Option<Field> {
        for field in FIELDS {
            if key == field.key() {
                return Some(field);
            }
        }
        None
    }

    /// The field of an option.
    pub fn of_option(option: &str) -> Option<Field>
        ensures { IfSome result (λ field. option.now ≡ option_of field) }
    {
        for field in OPTIONS {
            if option == field.option() {
                return Some(field);
            }
        }
        None
    }

    /// Its option; empty where it has none.
    pub fn option(self) -> &'static str
        ensures { result.now ≡ option_of self }
    {
        match self {
            Field::Description | Field::Signal => "",
            Field::Listen => "--listen",
            Field::Store => "--store",
            Field::SaveEach => "--save-each",
            Field::StoreDamaged => "--store-damaged",
            Field::KeepDescription => "--keep-description",
            Field::Settle => "--settle",
            Field::Allow => "--allow",
            Field::OtherRoutes => "--other-routes",
            Field::Profile => "--profile",
            Field::Status => "--status",
            Field::Log => "--log",
            Field::StopFile => "--stop-file",
        }
    }

    /// Its key in a configuration.
    pub fn key(self) -> &'static str {
        match self {
            Field::Description => "description",
            Field::Listen => "listen",
            Field::Store => "store",
            Field::SaveEach => "save_each",
            Field::StoreDamaged => "store_damaged",
            Field::KeepDescription => "keep_description",
            Field::Settle => "settle",
            Field::Allow => "allow",
            Field::OtherRoutes => "other_routes",
            Field::Profile => "profile",
            Field::Signal => "signal",
            Field::Status => "status",
            Field::Log => "log",
            Field::StopFile => "stop_file",
        }
    }

    /// What it takes.
    pub fn rule(self) -> &'static str {
        match self {
            Field::Description => "takes the name of the file that describes the plant",
            Field::Listen =>
                "takes an address: localhost, an IPv4 address or an IPv6 address in brackets, a colon, and a port from 1 to 65535",
            Field::Store => "takes the name of the file that keeps persistent symbols",
            Field::SaveEach => "takes a number of seconds from 1 to 86400",
            Field::StoreDamaged =>
                "takes begin: copy a damaged store, and serve without what it lost",
            Field::KeepDescription => "takes true or false",
            Field::Settle => "takes a number of seconds from 0 to 3600",
            Field::Allow =>
                "takes a net, or a list of them: an IP address, or one with a slash and the number of bits that count",
            Field::OtherRoutes => "takes read or write, what each machine without a route may do",
            Field::Profile => "takes wide or strict",
            Field::Signal => "takes tables [[signal]]",
            Field::Status => "takes the name of the status file",
            Field::Log => "takes journal, plain or none",
            Field::StopFile => "takes the name of the file that ends the daemon",
        }
    }

    /// How often it may be given at most.
    pub fn most(self) -> u32 {
        match self {
            Field::Listen => 16,
            Field::Allow => 256,
            Field::Signal => 1_024,
            Field::Description
            | Field::Store
            | Field::SaveEach
            | Field::StoreDamaged
            | Field::KeepDescription
            | Field::Settle
            | Field::OtherRoutes
            | Field::Profile
            | Field::Status
            | Field::Log
            | Field::StopFile => 1,
        }
    }
}
