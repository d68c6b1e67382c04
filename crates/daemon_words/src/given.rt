//! What is given by words or by a configuration.

ghost use Rattle.std.specs.Prelude.{◌≡◌, ◌≢◌, ◌⊎◌, ◌++◌, ◌∷◌, ℕ, [], Some, None, true, false, IsSome, IfOk, OnOk, IsErr, decimal, length, ◌<◌, ◌≤◌};
ghost use Rattle.daemon_words.specs.Said.{Puts, nothing_said};
ghost use Rattle.daemon_words.specs.Setups.{SetsUp, lacks_store, said_or, listen_or, settle_or};
ghost use Rattle.daemon_words.specs.YesNo.{begins_in, truth_in};

use crate::address::is_address;
use crate::defaults::{DEFAULT_LISTEN, signals_of_serve};
use crate::joined_texts::joined;
use crate::yes_no::{begins_by_word, truth_of_word};
use crate::{
    Field, IpNet, LogForm, OthersWord, ProfileWord, Seconds, Settle, Setup, SetupFault, SignalTable,
};
use ads_base::{ListOf, NoMemory};
use cli_words::{Text, TextList};
use std::alloc::Global;
use std::marker::Model;

/// What was given so far; what was not is None, or an empty list.
#[derive(Drop)]
pub struct Given {
    description: Option<Text>,
    listen: TextList,
    store: Option<Text>,
    save_each: Option<Seconds>,
    begins: bool,
    keeps: Option<bool>,
    settle: Option<Settle>,
    allow: ListOf<IpNet>,
    others: Option<OthersWord>,
    profile: Option<ProfileWord>,
    signals: ListOf<SignalTable>,
    status: Option<Text>,
    log: Option<LogForm>,
    stop_file: Option<Text>,
}

impl Model for Given {
    ghost use Rattle.std.specs.Prelude.{◌≤◌, length};
    ghost use Rattle.daemon_words.specs.Said.{Said};

    ghost Value = { Said };

    ghost view = { λ g. record {
      description = g.description;
      listen = g.listen;
      store = g.store;
      save_each = g.save_each;
      begins = g.begins;
      keeps = g.keeps;
      settle = g.settle;
      allow = g.allow;
      others = g.others;
      profile = g.profile;
      signals = g.signals;
      status = g.status;
      log = g.log;
      stop_file = g.stop_file;
    } };

    ghost invariant = { λ g. (length g.listen ≤ 16) × (length g.allow ≤ 256) × (length g.signals ≤ 1024) };
}

impl Given {
    /// Nothing is given.
    pub fn new(alloc: Global) -> Given
        ensures { result ≡ nothing_said }
    {
        Given {
            description: None,
            listen: ListOf::new(alloc),
            store: None,
            save_each: None,
            begins: false,
            keeps: None,
            settle: None,
            allow: ListOf::new(alloc),
            others: None,
            profile: None,
            signals: ListOf::new(alloc),
            status: None,
            log: None,
            stop_file: None,
        }
    }

    /// A field is set by a text.
    pub fn put_text(&mut self, alloc: Global, field: Field, text: &str) -> Result<(), SetupFault>
        ensures { IfOk result (λ _. Puts field text.now self.old self.new) }
    {
        if text.is_empty() {
            return Err(SetupFault::Wrong(field));
        }
        match field {
            Field::Description => put_name(alloc, &mut self.description, field, text),
            Field::Listen => self.put_address(alloc, text),
            Field::Store => put_name(alloc, &mut self.store, field, text),
            Field::SaveEach => self.put_seconds_text(alloc, text),
            Field::StoreDamaged => self.put_damaged(alloc, text),
            Field::KeepDescription => self.put_keeps_text(alloc, text),
            Field::Settle => self.put_settle_text(alloc, text),
            Field::Allow => self.put_net(alloc, text),
            Field::OtherRoutes => self.put_others(alloc, text),
            Field::Profile => self.put_profile(alloc, text),
            Field::Signal => Err(SetupFault::Wrong(field)),
            Field::Status => put_name(alloc, &mut self.status, field, text),
            Field::Log => self.put_log(alloc, text),
            Field::StopFile => put_name(alloc, &mut self.stop_file, field, text),
        }
    }

    /// The seconds between two looks at what is to be saved are set; None where what was said is no such number.
    pub fn put_seconds(&mut self, seconds: Option<Seconds>) -> Result<(), SetupFault>
        ensures none { OnOk result (self.old.save_each ≡ None) }
        ensures some { OnOk result (IsSome seconds) }
        ensures put { OnOk result (self.new ≡ record self.old { save_each = seconds }) }
    {
        if self.save_each.is_some() {
            return Err(SetupFault::Twice(Field::SaveEach));
        }
        if seconds.is_none() {
            return Err(SetupFault::Wrong(Field::SaveEach));
        }
        self.save_each = seconds;
        Ok(())
    }

    /// Whether accepted descriptions are kept is set; None where what was said is neither true nor false.
    pub fn put_keeps(&mut self, keeps: Option<bool>) -> Result<(), SetupFault>
        ensures none { OnOk result (self.old.keeps ≡ None) }
        ensures some { OnOk result (IsSome keeps) }
        ensures put { OnOk result (self.new ≡ record self.old { keeps = keeps }) }
        ensures refused { IsErr result → (IsSome self.old.keeps) ⊎ (keeps ≡ None) }
    {
        if self.keeps.is_some() {
            return Err(SetupFault::Twice(Field::KeepDescription));
        }
        if keeps.is_none() {
            return Err(SetupFault::Wrong(Field::KeepDescription));
        }
        self.keeps = keeps;
        Ok(())
    }

    /// How long a changed description is to stand is set; None where what was said is no such number.
    pub fn put_settle(&mut self, settle: Option<Settle>) -> Result<(), SetupFault>
        ensures none { OnOk result (self.old.settle ≡ None) }
        ensures some { OnOk result (IsSome settle) }
        ensures put { OnOk result (self.new ≡ record self.old { settle = settle }) }
        ensures refused { IsErr result → (IsSome self.old.settle) ⊎ (settle ≡ None) }
    {
        if self.settle.is_some() {
            return Err(SetupFault::Twice(Field::Settle));
        }
        if settle.is_none() {
            return Err(SetupFault::Wrong(Field::Settle));
        }
        self.settle = settle;
        Ok(())
    }

    /// One more signal.
    pub fn put_signal(&mut self, alloc: Global, signal: SignalTable) -> Result<(), SetupFault>
        ensures { OnOk result (self.new ≡ record self.old { signals = self.old.signals ++ signal ∷ [] }) }
    {
        if self.signals.len() >= 1_024 {
            return Err(SetupFault::TooMany(Field::Signal));
        }
        self.signals.push(alloc, signal)?;
        Ok(())
    }

    /// Whether a field was set.
    pub fn has(&self, field: Field) -> bool {
        match field {
            Field::Description => self.description.is_some(),
            Field::Listen => self.listen.len() != 0,
            Field::Store => self.store.is_some(),
            Field::SaveEach => self.save_each.is_some(),
            Field::StoreDamaged => self.begins,
            Field::KeepDescription => self.keeps.is_some(),
            Field::Settle => self.settle.is_some(),
            Field::Allow => self.allow.len() != 0,
            Field::OtherRoutes => self.others.is_some(),
            Field::Profile => self.profile.is_some(),
            Field::Signal => self.signals.len() != 0,
            Field::Status => self.status.is_some(),
            Field::Log => self.log.is_some(),
            Field::StopFile => self.stop_file.is_some(),
        }
    }

    /// Whether accepted descriptions are to be kept.
    pub fn keeps(&self) -> bool
        ensures { result ≡ said_or false self.now.keeps }
    {
        self.keeps.unwrap_or(false)
    }

    /// The setup for the plant that this file describes, or the one that was given; what was not given is as usual.
    pub fn setup(self, alloc: Global, file: &str) -> Result<Setup, SetupFault>
        ensures fields { IfOk result (SetsUp self file.now) }
    {
        if let Some(field) = self.lacks_store() {
            return Err(SetupFault::NeedsStore(field));
        }
        match self.completed(alloc, file) {
            Ok(setup) => Ok(setup),
            Err(NoMemory) => Err(SetupFault::Memory),
        }
    }

    // What was said of a store, where none is named.
    fn lacks_store(&self) -> Option<Field>
        ensures { result ≡ lacks_store self.now }
    {
        if self.store.is_some() {
            return None;
        }
        if self.save_each.is_some() {
            return Some(Field::SaveEach);
        }
        if self.begins {
            return Some(Field::StoreDamaged);
        }
        if self.keeps == Some(true) {
            return Some(Field::KeepDescription);
        }
        None
    }

    fn completed(self, alloc: Global, file: &str) -> Result<Setup, NoMemory>
        ensures { IfOk result (SetsUp self file.now) }
    {
        let Given {
            description,
            listen,
            store,
            save_each,
            begins,
            keeps,
            settle,
            allow,
            others,
            profile,
            signals,
            status,
            log,
            stop_file,
        } = self;
        let seconds = save_each.unwrap_or(Seconds::usual());
        Ok(Setup {
            description: text_or(alloc, description, file)?,
            listen: joined_or(alloc, &listen, DEFAULT_LISTEN)?,
            store,
            save_each: seconds.count,
            begins_damaged: begins,
            keeps_description: keeps.unwrap_or(false),
            settle: settle_count(settle),
            allow,
            others,
            profile: profile.unwrap_or(ProfileWord::Wide),
            signals: signals_or(alloc, signals)?,
            status,
            log: log.unwrap_or(LogForm::Plain),
            stop_file,
        })
    }

    // One more address.
    fn put_address(&mut self, alloc: Global, text: &str) -> Result<(), SetupFault>
        ensures { OnOk result (self.new ≡ record self.old { listen = self.old.listen ++ text.now ∷ [] }) }
    {
        if !is_address(text) {
            return wrong(alloc, Field::Listen, text);
        }
        if self.listen.len() >= 16 {
            return Err(SetupFault::TooMany(Field::Listen));
        }
        let address = Text::copy_of(alloc, text)?;
        self.listen.push(alloc, address)?;
        Ok(())
    }

    fn put_seconds_text(&mut self, alloc: Global, text: &str) -> Result<(), SetupFault>
        ensures { OnOk result (Puts Field.SaveEach text.now self.old self.new) }
    {
        if self.save_each.is_some() {
            return Err(SetupFault::Twice(Field::SaveEach));
        }
        match Seconds::of_text(text) {
            Some(seconds) => {
                self.save_each = Some(seconds);
                Ok(())
            }
            None => wrong(alloc, Field::SaveEach, text),
        }
    }

    fn put_damaged(&mut self, alloc: Global, text: &str) -> Result<(), SetupFault>
        ensures ok { OnOk result (Puts Field.StoreDamaged text.now self.old self.new) }
        ensures refused { IsErr result → (self.old.begins ≡ true) ⊎ (begins_in text.now ≡ false) }
    {
        if self.begins {
            return Err(SetupFault::Twice(Field::StoreDamaged));
        }
        if !begins_by_word(text) {
            return wrong(alloc, Field::StoreDamaged, text);
        }
        self.begins = true;
        Ok(())
    }

    fn put_keeps_text(&mut self, alloc: Global, text: &str) -> Result<(), SetupFault>
        ensures ok { OnOk result (Puts Field.KeepDescription text.now self.old self.new) }
        ensures refused { IsErr result → (IsSome self.old.keeps) ⊎ (truth_in text.now ≡ None) }
    {
        let keeps = truth_of_word(text);
        if keeps.is_none() && self.keeps.is_none() {
            return wrong(alloc, Field::KeepDescription, text);
        }
        self.put_keeps(keeps)
    }

    fn put_settle_text(&mut self, alloc: Global, text: &str) -> Result<(), SetupFault>
        ensures ok { OnOk result (Puts Field.Settle text.now self.old self.new) }
        ensures refused { IsErr result → (IsSome self.old.settle) ⊎ ((n : ℕ) → n ≤ 3600 → text.now ≢ decimal n) }
    {
        if self.settle.is_some() {
            return Err(SetupFault::Twice(Field::Settle));
        }
        match Settle::of_text(text) {
            Some(settle) => {
                self.settle = Some(settle);
                Ok(())
            }
            None => wrong(alloc, Field::Settle, text),
        }
    }

    fn put_others(&mut self, alloc: Global, text: &str) -> Result<(), SetupFault>
        ensures { OnOk result (Puts Field.OtherRoutes text.now self.old self.new) }
    {
        if self.others.is_some() {
            return Err(SetupFault::Twice(Field::OtherRoutes));
        }
        match OthersWord::of_word(text) {
            Some(others) => {
                self.others = Some(others);
                Ok(())
            }
            None => wrong(alloc, Field::OtherRoutes, text),
        }
    }

    fn put_profile(&mut self, alloc: Global, text: &str) -> Result<(), SetupFault>
        ensures { OnOk result (Puts Field.Profile text.now self.old self.new) }
    {
        if self.profile.is_some() {
            return Err(SetupFault::Twice(Field::Profile));
        }
        match ProfileWord::of_word(text) {
            Some(profile) => {
                self.profile = Some(profile);
                Ok(())
            }
            None => wrong(alloc, Field::Profile, text),
        }
    }

    fn put_log(&mut self, alloc: Global, text: &str) -> Result<(), SetupFault>
        ensures { OnOk result (Puts Field.Log text.now self.old self.new) }
    {
        if self.log.is_some() {
            return Err(SetupFault::Twice(Field::Log));
        }
        match LogForm::of_word(text) {
            Some(form) => {
                self.log = Some(form);
                Ok(())
            }
            None => wrong(alloc, Field::Log, text),
        }
    }

    // One more net.
    fn put_net(&mut self, alloc: Global, text: &str) -> Result<(), SetupFault>
        ensures { OnOk result (Puts Field.Allow text.now self.old self.new) }
    {
        match IpNet::of_text(text) {
            None => wrong(alloc, Field::Allow, text),
            Some(net) => self.add_net(alloc, net),
        }
    }

    fn add_net(&mut self, alloc: Global, net: IpNet) -> Result<(), SetupFault>
        ensures { OnOk result (self.new ≡ record self.old { allow = self.old.allow ++ net ∷ [] }) }
    {
        if self.allow.len() >= 256 {
            return Err(SetupFault::TooMany(Field::Allow));
        }
        self.allow.push(alloc, net)?;
        Ok(())
    }
}

// That a field does not take this text.
fn wrong(alloc: Global, field: Field, text: &str) -> Result<(), SetupFault>
    ensures { IsErr result }
{
    Err(SetupFault::WrongText(field, Text::copy_of(alloc, text)?))
}

fn settle_count(settle: Option<Settle>) -> u32
    ensures count { result ≡ settle_or settle }
    ensures hour { result ≤ 3600 }
{
    match settle {
        Some(settle) => settle.count,
        None => 0,
    }
}

fn text_or(alloc: Global, text: Option<Text>, other: &str) -> Result<Text, NoMemory>
    ensures { IfOk result (λ t. t ≡ said_or other.now text) }
{
    match text {
        Some(text) => Ok(text),
        None => Text::copy_of(alloc, other),
    }
}

fn joined_or(alloc: Global, texts: &TextList, other: &str) -> Result<Text, NoMemory>
    ensures { IfOk result (λ line. line ≡ listen_or other.now texts.now) }
{
    if texts.len() == 0 {
        return Text::copy_of(alloc, other);
    }
    joined(alloc, texts.as_slice())
}

fn signals_or(alloc: Global, signals: ListOf<SignalTable>) -> Result<ListOf<SignalTable>, NoMemory>
    requires { length signals ≤ 1024 }
    ensures some { IfOk result (λ list. 0 < length list) }
    ensures few { IfOk result (λ list. length list ≤ 1024) }
{
    if signals.len() == 0 {
        return signals_of_serve(alloc);
    }
    Ok(signals)
}

fn put_name(
    alloc: Global,
    place: &mut Option<Text>,
    field: Field,
    text: &str,
) -> Result<(), SetupFault>
    ensures none { OnOk result (place.old ≡ None) }
    ensures put { OnOk result (place.new ≡ Some text.now) }
{
    if place.is_some() {
        return Err(SetupFault::Twice(field));
    }
    *place = Some(Text::copy_of(alloc, text)?);
    Ok(())
}
