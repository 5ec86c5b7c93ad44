// An effect, and the desk after it.
ghost use Rattle.std.specs.Prelude.{◌≡◌};
ghost use Rattle.state.specs.Effect.{unchanged_in, changed_by, Fits};

use crate::fresh::fresh_desk;
use crate::settling::settled_versions;
use crate::{Desk, Effect, Frame, Tables};

pub fn unchanged(f: Frame) -> Effect
    ensures { result ≡ unchanged_in f }
{
    Effect {
        tables: Tables::Same,
        frame: f,
    }
}

// `carry_out` of `replay` carries the same effect out on the desk that it holds: a desk that goes in here and comes back is copied.
pub fn changed(d: Desk, e: Effect) -> Desk
    requires { Fits d e }
    ensures { result ≡ changed_by d e }
{
    let mut n = d;
    match e.tables {
        Tables::Same => {}
        Tables::Fresh => {
            n = fresh_desk();
        }
        Tables::Point { at, record } => {
            n.points[at as usize] = record;
        }
        Tables::Version { at, record } => {
            n.versions[at as usize] = record;
        }
        Tables::Settled { run } => {
            n.versions = settled_versions(n.versions, n.frame.count, run);
        }
    }
    n.frame = e.frame;
    n
}
