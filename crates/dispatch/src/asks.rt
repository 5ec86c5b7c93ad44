// What a call asks before it is decided: of the desk's tables, and of the book.
ghost use Rattle.std.specs.Prelude.{◌≡◌, List, ℕ, ℤ};
ghost use Rattle.model.specs.Causes.{terms};
ghost use Rattle.checks.specs.Survey.{place_of};
ghost use Rattle.dispatch.specs.Asked.{asked};

use checks::looks::{asking_nothing, asking_series, asking_versions};
use checks::points::place_of;
use message::DeskCall;
use model::Asks;
use quantity::Version;
use state::Series;

// The point and version that it names, or the series that may stand only once.
pub fn asks_of(call: DeskCall) -> Asks
    ensures { (groups : List ℕ) (energies : List ℤ) → result ≡ (terms (asked call groups energies)).asks }
{
    match call {
        DeskCall::Activate {
            point,
            kind,
            area,
            partner,
            ..
        } => {
            let series = Series {
                kind,
                area,
                partner,
            };
            asking_series(point, series)
        }
        DeskCall::Deactivate { point, .. } => asking_versions(point, Version(0)),
        DeskCall::Submit { point, version, .. } | DeskCall::Notice { point, version, .. } => {
            asking_versions(point, version)
        }
        DeskCall::Open { .. }
        | DeskCall::Assign { .. }
        | DeskCall::Close { .. }
        | DeskCall::Issue { .. } => asking_nothing(),
    }
}

// Where the record of the point that it names stands.
pub fn place_in(call: DeskCall) -> usize
    ensures { (groups : List ℕ) (energies : List ℤ) → result ≡ place_of (terms (asked call groups energies)).asks.point.0 }
{
    place_of(asks_of(call).point)
}

// Q of the book that it is lent: an opening's own, else the desk's.
pub fn quarters_of(call: DeskCall, q: u64) -> u64
    ensures { (groups : List ℕ) (energies : List ℤ) → result ≡ (terms (asked call groups energies)).quarters q }
{
    match call {
        DeskCall::Open { quarters, .. } => quarters,
        _ => q,
    }
}
