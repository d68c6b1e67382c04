//! A notification is read.

ghost use Rattle.std.specs.Prelude.{◌≡◌, ◌≤◌, ℕ, List, length, drop, IfSome, IsNone, IsSome, None, MatchOption, ◌↔◌, option_map};
ghost use Rattle.spec_formats.specs.Notification.{Stamp, IsNotificationPayload};
ghost use Rattle.spec_formats.specs.NotificationReading.{notification_of};
ghost use Rattle.notify_frames.specs.Notes.{IsNoNotification, samples_in};
ghost use Rattle.notify_frames.specs.Whole.{IsWhole};

use crate::Notes;
use crate::place::Place;
use crate::skipping::after_stamps;
use ads_base::get32;

/// The samples of a notification's payload. The stated length may be four greater than it is; nothing stands behind the
/// last stamp. `None` where the payload is no notification.
pub fn read_note(bytes: &[u8]) -> Option<Notes<'_>>
    ensures text { IfSome result (λ notes. (stamps : List Stamp)
        × (IsNotificationPayload bytes.now stamps × (notes ≡ samples_in stamps))) }
    ensures none { IsNone result ↔ IsNoNotification bytes.now }
    ensures read { result ≡ option_map samples_in (notification_of bytes.now) }
{
    let stamps = stamps_in(bytes)?;
    let place = Place {
        time: 0,
        samples: 0,
        stamps,
        bytes: &bytes[8..],
    };
    Some(Notes::at(place))
}

// The number of stamps of a notification that is whole.
fn stamps_in(bytes: &[u8]) -> Option<u32>
    ensures { MatchOption result (notification_of bytes.now ≡ None) (λ stamps. IsWhole bytes.now stamps) }
{
    if bytes.len() < 8 {
        return None;
    }
    let stated = get32(bytes, 0) as usize;
    if stated + 4 != bytes.len() && stated != bytes.len() {
        return None;
    }
    let stamps = get32(bytes, 4);
    let rest = after_stamps(stamps, &bytes[8..])?;
    if rest.len() != 0 {
        return None;
    }
    Some(stamps)
}
