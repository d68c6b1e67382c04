//! Laws: what happened to the notifications of a connection determines them.

ghost use Rattle.std.specs.Prelude.{◌≡◌, List, [], ◌∷◌, ◌++◌};
ghost use Rattle.notify_table.specs.Table.{WatchEvent, no_watches, table_after, table_of};

/// There are no notifications after an empty history, and one more event changes those that there were before it. Each
/// call of `Watches` leaves the notifications after the event that it is.
pub fn histories_determine_notifications()
    ensures begin { table_of [] ≡ no_watches }
    ensures more { (history : List WatchEvent) (event : WatchEvent)
        → table_of (history ++ event ∷ []) ≡ table_after (table_of history) event }
{}
