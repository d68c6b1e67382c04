//! Who may connect, and with what rights.

ghost use Rattle.std.specs.Prelude.{◌≡◌, ℕ, List, IfOk, option_map};
ghost use Rattle.spec_plant.specs.Rights.{rights_of};
ghost use Rattle.spec_machine.specs.GivenRights.{given_rights};
ghost use Rattle.type_layout.specs.Descriptions as plain;

use crate::Routes;
use ads_base::{NetId, NoMemory};
use std::alloc::Global;
use std::marker::Model;
use type_layout::{Rights, Routes4};

/// The rights of each machine: those of its route, and without a route those of all others, or none. Contracts see the
/// routes as a list, and the right of the others beside it.
#[derive(Drop)]
pub struct Admission {
    routes: Routes,
    others: Option<Rights>,
}

impl Model for Admission {
    ghost use Rattle.net_routes.specs.Admitted.{Admitted, admitted_of};

    ghost Value = { Admitted };

    ghost view = { λ a. admitted_of a.routes a.others };
}

impl Admission {
    /// The rights by the routes of a list, of which the first with a NetId counts, and these of all others.
    pub fn build(
        alloc: Global,
        list: &Routes4,
        others: Option<Rights>,
    ) -> Result<Admission, NoMemory>
        ensures routes { IfOk result (λ admission. (net : List ℕ)
            → rights_of net admission.routes ≡ rights_of net (plain.routes_of list.now)) }
        ensures others { IfOk result (λ admission. admission.others ≡ option_map plain.rights_of others) }
    {
        let routes = Routes::build(alloc, list)?;
        Ok(Admission { routes, others })
    }

    /// The rights of a machine. None exactly where no route has its NetId, and all others have none.
    #[inline(always)]
    pub fn rights(&self, net: NetId) -> Option<Rights>
        ensures { option_map plain.rights_of result ≡ given_rights self.now.others net.bytes self.now.routes }
    {
        match self.routes.rights(net) {
            Some(rights) => Some(rights),
            None => self.others,
        }
    }

    /// The rights of all machines without a route.
    pub fn others(&self) -> Option<Rights>
        ensures { option_map plain.rights_of result ≡ self.now.others }
    {
        self.others
    }
}
