//! What holds of all that is heard.

ghost use Rattle.std.specs.Prelude.{◌≡◌, ℕ, List, ◌++◌, None};
ghost use Rattle.std.specs.List.{flat_map};
ghost use Rattle.ads_outside.specs.WireState.{WireState};
ghost use Rattle.local_router.specs.Asks.{AreBytes, HasPort, ask_bytes};
ghost use Rattle.local_router.specs.Fronts.{front_of};
ghost use Rattle.local_router.specs.Heard.{heard, heard_then, rest_bytes};
ghost use Rattle.local_router.specs.Seen.{state_seen};
ghost use Rattle.local_router.specs.declared.ask.Ask.{Ask as AskOf};
ghost use Rattle.local_router.specs.declared.front.Front.TheVariants as front;

/// What is heard does not hang on the pieces in which bytes come.
#[tactic(auto, using(crate::proofs::PieceLemmas::joined))]
pub fn pieces_are_joined()
    ensures { (text bytes more : List ℕ)
        → heard text (bytes ++ more) ≡ heard_then (heard text bytes).asks (heard text bytes).rest more }
{}

/// A text is read as a packet to the router exactly where it is that packet.
#[tactic(auto, using(crate::proofs::PacketLemmas::is_read, crate::proofs::PacketLemmas::is_packet))]
pub fn packets_are_read()
    ensures packet { (text : List ℕ) (ask : AskOf) → AreBytes text → front_of text ≡ front.Asks ask → text ≡ ask_bytes ask }
    ensures read { (ask : AskOf) → HasPort ask → front_of (ask_bytes ask) ≡ front.Asks ask }
{}

/// The packets to the router that are heard, and what is left behind them, are the bytes that came.
#[tactic(auto, using(crate::proofs::PacketLemmas::divided))]
pub fn bytes_are_divided()
    ensures { (text bytes : List ℕ) → AreBytes (text ++ bytes)
        → text ++ bytes ≡ flat_map ask_bytes (heard text bytes).asks ++ rest_bytes (heard text bytes).rest }
{}

/// Without a router the state that is seen is that of the wire inside.
pub fn without_a_router_all_is_seen()
    ensures { (events wants : ℕ) (s : WireState) → state_seen {Net = ℕ} None events wants s ≡ s }
{}
