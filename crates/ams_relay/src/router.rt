//! The relay, and all that it keeps.

ghost use Rattle.std.specs.Prelude.{◌≡◌, [], IfOk};
ghost use Rattle.type_layout.specs.Descriptions.{description_of};
ghost use Rattle.spec_relay.specs.RelayState.{relay_start};
ghost use Rattle.spec_relay.specs.RelaySummary.{relay_summary_of};
ghost use Rattle.ams_relay.specs.Counts.{counts_in};
ghost use Rattle.ams_relay.specs.Relays.{RelayStanding, StandsAt, standing_at_start};

use crate::RelaySummary;
use crate::peer::Peer;
use ads_base::NoMemory;
use ams_tcp::Splitter;
use connections::Outlets;
use indexmap::IndexMap;
use net_routes::Routes;
use std::alloc::Global;
use type_layout::Description;

/// The routes, the connections that are there, and the counts.
#[derive(Drop)]
pub(crate) struct Router {
    pub(crate) routes: Routes,
    /// What waits for each connection, by its number, in the order of opening.
    pub(crate) outlets: Outlets,
    /// At equal places, what else is kept of each.
    pub(crate) peers: Vec<Peer>,
    /// At equal places, where the connection stood that gave it a frame last; mostly its next frame goes there. No clause
    /// speaks of it.
    pub(crate) nears: Vec<usize>,
    /// Of each NetId that a connection owns which is there and not closing, the number.
    pub(crate) owners: IndexMap<Vec<u8>, u32>,
    pub(crate) counts: RelaySummary,
}

impl Router {
    /// A router without a connection.
    fn empty(alloc: Global, routes: Routes) -> Router
        ensures routes { result.routes ≡ routes }
        ensures outlets { result.outlets ≡ [] }
        ensures peers { result.peers.items ≡ [] }
        ensures owners { result.owners.entries ≡ [] }
        ensures counts { result.counts ≡ record { connections = 0; frames = 0; passed = 0; unknown = 0 } }
    {
        Router {
            routes,
            outlets: Outlets::new(alloc),
            peers: Vec::new(alloc),
            nears: Vec::new(alloc),
            owners: IndexMap::new(alloc),
            counts: RelaySummary::nothing(),
        }
    }
}

/// A router between connections. Each owns the NetId of the frames that it sends; a frame is passed on to the owner of its
/// target, a response to the connection whose request it answers.
#[derive(Drop)]
pub struct Relay {
    pub(crate) router: Router,
    // Of each connection, in the order of opening, what came of it and was not taken yet.
    pub(crate) streams: Vec<Splitter>,
    // Memory was wanting: nothing is passed on any more.
    pub(crate) failed: bool,
}

impl Relay {
    /// A relay without a connection. Of a description it uses the routes alone.
    pub fn build(alloc: Global, d: Description) -> Result<Relay, NoMemory>
        ensures { IfOk result (λ relay. StandsAt relay (standing_at_start (relay_start (description_of d)))) }
    {
        let routes = Routes::build(alloc, &d.routes)?;
        Ok(Relay {
            router: Router::empty(alloc, routes),
            streams: Vec::new(alloc),
            failed: false,
        })
    }

    /// The counts.
    pub fn summary(&self) -> RelaySummary
        ensures { (x : RelayStanding) → StandsAt self.now x → counts_in result ≡ relay_summary_of x.running.state }
    {
        self.router.counts
    }
}
