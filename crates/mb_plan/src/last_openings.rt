//! What a shown log says of the view that it opened last: of the entries, oldest first, each opening takes the place of the one before it.

ghost use Rattle.std.specs.Prelude.{◌≡◌, ◌∷◌, ℕ, List, [], Option, option_map};
ghost use Rattle.mb_parts.specs.Certificates.{first_floor};
ghost use Rattle.mb_msg.specs.declared.stamped.Shown.{Shown as TheEntry};
ghost use Rattle.mb_model.specs.UsableLogs.{newest_first};
ghost use Rattle.mb_model.specs.Plans.{opened_from, view_if_open, view_at_floor, body_base, base_shown};

use mb_base::{Host, View};
use mb_cert::CheckFloor;
use mb_msg::{Body, FloorCert, OpenBody, Shown, StableCert};
use mb_parts::{Floor, Phase};

/// The view of a floor that stands in an open view.
fn view_if_open(floor: Option<Floor>) -> Option<View>
    ensures { result ≡ view_if_open floor }
{
    match floor?.phase {
        Phase::Open => Some(floor?.view),
        _ => None,
    }
}

/// The view that is open where a log begins: view 0 at its host's start.
pub(crate) fn view_at_floor(host: Host, floor: &Option<FloorCert>) -> Option<View>
    ensures { result ≡ view_at_floor host floor.now }
{
    match floor {
        None => Some(0),
        Some(cert) => view_if_open(cert.first_floor(host)),
    }
}

/// The opened view with one more entry.
fn opened_by(entry: &Shown, before: Option<View>) -> Option<View>
    ensures { (floor : Option ℕ) (l : List TheEntry) → before ≡ opened_from floor l → result ≡ opened_from floor (entry.now ∷ l) }
{
    match entry {
        Shown::Open(m) => Some(m.evidence.view),
        Shown::Join(m) => Some(m.view),
        _ => before,
    }
}

/// The view of the last opening; where none is shown, that of the floor.
pub(crate) fn opened_in(entries: &[Shown], floor: Option<View>) -> Option<View>
    ensures { result ≡ opened_from floor (newest_first [] entries.now) }
{
    let mut opened = floor;
    for entry in entries {
        opened = opened_by(entry, opened);
    }
    opened
}

/// The certificate of the base in the body of an OPEN, where it is shown.
fn body_base(body: &Body<OpenBody>) -> Option<&StableCert>
    ensures { option_map (λ c. c.now) result ≡ body_base body.now }
{
    match body {
        Body::Whole(body) => Some(&body.stable),
        Body::Bare(_) => None,
    }
}

/// The base of the last opening with one more entry.
fn base_by<'a>(entry: &'a Shown, before: Option<&'a StableCert>) -> Option<&'a StableCert>
    ensures { (l : List TheEntry) → option_map (λ c. c.now) before.entry ≡ base_shown l → option_map (λ c. c.now) result ≡ base_shown (entry.now ∷ l) }
{
    match entry {
        Shown::Open(m) => body_base(&m.body),
        Shown::Join(m) => Some(&m.stable),
        _ => before,
    }
}

/// The certificate of the base of the last opening.
pub(crate) fn base_in(entries: &[Shown]) -> Option<&StableCert>
    ensures { option_map (λ c. c.now) result ≡ base_shown (newest_first [] entries.now) }
{
    let mut base = None;
    for entry in entries {
        base = base_by(entry, base);
    }
    base
}
