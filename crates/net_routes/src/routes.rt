//! The routes of a description, found by NetId.

ghost use Rattle.std.specs.Prelude.{◌≡◌, ℕ, List, ◌++◌, ◌∷◌, [], OnOk, IfOk, option_map, slice_get};
ghost use Rattle.spec_plant.specs.Rights.{rights_of};
ghost use Rattle.type_layout.specs.Descriptions as plain;
ghost use Rattle.net_routes.specs.Shown.{rights_in};

use ads_base::{NetId, NoMemory};
use indexmap::IndexMap;
use std::alloc::Global;
use std::marker::Model;
use type_layout::{Rights, Routes4};

// So many routes are walked, which costs less than to find one among them by its NetId.
const FEW: usize = 8;

/// The rights of each machine that has a route, in a map from NetIds. Contracts see the routes as a list.
#[derive(Drop)]
pub struct Routes {
    by_net: IndexMap<[u8; 6], Rights>,
}

impl Model for Routes {
    ghost use Rattle.std.specs.Prelude.{List, map};
    ghost use Rattle.spec_plant.specs.Description.{Route};
    ghost use Rattle.net_routes.specs.Shown.{shown};

    ghost Value = { List Route };

    ghost view = { λ r. map shown r.by_net.entries };
}

impl Routes {
    /// The routes of a list. Of two with the same NetId the first counts.
    pub fn build(alloc: Global, list: &Routes4) -> Result<Routes, NoMemory>
        ensures { IfOk result (λ routes. (net : List ℕ)
            → rights_of net routes ≡ rights_of net (plain.routes_of list.now)) }
    {
        let mut routes = Routes {
            by_net: IndexMap::new(alloc),
        };
        for route in list.as_slice() {
            routes.add(route.net, route.rights)?;
        }
        Ok(routes)
    }

    /// The rights of a machine. None exactly where no route has its NetId.
    #[inline(always)]
    pub fn rights(&self, net: NetId) -> Option<Rights>
        ensures { option_map plain.rights_of result ≡ rights_of net.bytes self.now }
    {
        // The first route is looked at without a call.
        match self.rights_at(0, net) {
            Some(rights) => Some(rights),
            None => self.rights_among_all(net),
        }
    }

    // The same by all routes.
    #[inline(never)]
    fn rights_among_all(&self, net: NetId) -> Option<Rights>
        ensures { option_map plain.rights_of result ≡ rights_of net.bytes self.now }
    {
        if self.by_net.len() <= FEW {
            return self.rights_among_few(net);
        }
        self.by_net.get(&net.bytes).copied()
    }

    // The same by a walk.
    fn rights_among_few(&self, net: NetId) -> Option<Rights>
        ensures { option_map plain.rights_of result ≡ rights_of net.bytes self.now }
    {
        for i in 0..self.by_net.len() {
            if let Some(rights) = self.rights_at(i, net) {
                return Some(rights);
            }
        }
        None
    }

    // The rights at a place, where it is this machine's.
    #[inline(always)]
    fn rights_at(&self, i: usize, net: NetId) -> Option<Rights>
        ensures { option_map plain.rights_of result ≡ rights_in net.bytes (slice_get self.now i) }
    {
        match self.by_net.get_index(i) {
            Some((there, rights)) => {
                let machine = NetId { bytes: *there };
                if machine.is(net) { Some(*rights) } else { None }
            }
            None => None,
        }
    }

    // A further route, which counts where its NetId has none.
    fn add(&mut self, net: NetId, rights: Rights) -> Result<(), NoMemory>
        ensures { OnOk result ((n : List ℕ) → rights_of n self.new
            ≡ rights_of n (self.old ++ record { net = net.bytes; rights = plain.rights_of rights } ∷ [])) }
    {
        if self.rights(net).is_some() {
            return Ok(());
        }
        self.by_net.insert(net.bytes, rights)?;
        Ok(())
    }
}
