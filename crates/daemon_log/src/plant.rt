//! What a log knows of the plant that is served.

ghost use Rattle.std.specs.Prelude.{◌≡◌};

use crate::judge::Judge;
use crate::spoken::Spoken;
use ads_base::{ListOf, NetId, Octets};
use std::alloc::Global;
use std::mem;

/// The text of the description that is served, its routes as soon as they are asked for, and the text that is on trial.
#[derive(Drop)]
pub(crate) struct Plant {
    text: Octets,
    trial: Octets,
    // The routes were looked up, and whether they are known.
    looked: bool,
    known: bool,
    routes: ListOf<NetId>,
}

impl Plant {
    /// Nothing is known.
    pub(crate) fn new(alloc: Global) -> Plant {
        Plant {
            text: Octets::new(alloc),
            trial: Octets::new(alloc),
            looked: true,
            known: false,
            routes: ListOf::new(alloc),
        }
    }

    /// A text is on trial. Where there is no memory for it, its routes will not be known.
    pub(crate) fn hear(&mut self, alloc: Global, bytes: &[u8]) {
        self.trial = match Octets::copy_of(alloc, bytes) {
            Ok(text) => text,
            Err(_) => Octets::new(alloc),
        };
    }

    /// The text on trial is served from here on.
    pub(crate) fn accept(&mut self, alloc: Global) {
        self.text = mem::replace(&mut self.trial, Octets::new(alloc));
        self.looked = false;
        self.known = false;
    }

    /// The text that is served; empty where there was no memory for it.
    pub(crate) fn text(&self) -> &[u8]
        ensures { result.now ≡ self.now.text }
    {
        self.text.as_slice()
    }

    /// Whether who speaks has rights, by a route or since all others have some, as far as that is known.
    pub(crate) fn has_rights<J: Judge>(
        &mut self,
        alloc: Global,
        judge: &J,
        spoken: Spoken,
    ) -> bool {
        let Spoken::As(net, _) = spoken else {
            return true;
        };
        if judge.lets_others_in() {
            return true;
        }
        self.look(alloc, judge);
        !self.known || self.has_net(net)
    }

    // The routes are looked up, once.
    fn look<J: Judge>(&mut self, alloc: Global, judge: &J) {
        if self.looked {
            return;
        }
        self.looked = true;
        if self.text.len() == 0 {
            return;
        }
        if let Some(routes) = judge.routes(alloc, self.text.as_slice()) {
            self.known = true;
            self.routes = routes;
        }
    }

    fn has_net(&self, net: NetId) -> bool {
        for route in self.routes.as_slice() {
            if route.is(net) {
                return true;
            }
        }
        false
    }
}
