// The state made anew.
ghost use Rattle.std.specs.Prelude.{◌≡◌};
ghost use Rattle.state.specs.Desk.{open_frame, open_desk, fresh_desk};

use crate::{
    DeltaGroups, Desk, Frame, Opening, PerRun, PointRecord, PointState, Row, ShortPoint, Status,
    VersionRecord,
};
use quantity::limits::{DELTAS, POINTS, VERSIONS};
use quantity::{Day, Version};

// What stands beside the tables at an opening: both runs have the groups given.
pub fn open_frame(opening: Opening, groups: [u64; DELTAS as usize]) -> Frame
    ensures { result ≡ open_frame opening groups }
{
    let none = PerRun {
        first: false,
        second: false,
    };
    Frame {
        opening,
        day: Day(0),
        groups: PerRun {
            first: groups,
            second: groups,
        },
        count: 0,
        used: 0,
        closed: none,
        issued: none,
    }
}

pub fn opened(opening: Opening, groups: [u64; DELTAS as usize]) -> Desk
    ensures { result ≡ open_desk opening groups }
{
    let free = PointRecord {
        state: PointState::Free,
    };
    let empty = VersionRecord {
        version: Version(0),
        point: ShortPoint(0),
        row: Row(0),
        status: Status::Check,
    };
    Desk {
        frame: open_frame(opening, groups),
        points: [free; POINTS as usize],
        versions: [empty; VERSIONS as usize],
    }
}

pub fn fresh_desk() -> Desk
    ensures { result ≡ fresh_desk }
{
    let opening = Opening {
        quarters: 0,
        first: Day(0),
        clearing: Day(0),
        correction: Day(0),
        values: 0,
        book: 0,
        log: 0,
        schedules: 0,
    };
    opened(opening, [0; DELTAS as usize])
}
