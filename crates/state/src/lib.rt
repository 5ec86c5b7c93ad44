// The desk's state: its points, its versions, what the opening fixed. It goes into a call by value and comes back. What a call makes of it is an
// effect: at most one record of a table and what stands beside the tables; an issue goes over the whole version table.
// The fields of the two tables are narrow, since the state is copied; a number from outside is tested before it is narrowed.
#![tactic(auto)]

pub mod changes;
pub mod effects;
pub mod fresh;
pub mod groups;
pub mod selections;
pub mod settling;
pub mod statuses;

use quantity::limits::{DELTAS, POINTS, VERSIONS};
use quantity::{Day, Version};

// A day from 0 to 400.
#[derive(Clone, Copy)]
pub struct ShortDay(pub u16);

// A point from 1 to 256.
#[derive(Clone, Copy)]
pub struct ShortPoint(pub u16);

// The kind of a series, from 1 to 5.
#[derive(Clone, Copy)]
pub struct Kind(pub u8);

// An area from 1 to 16, or 0.
#[derive(Clone, Copy)]
pub struct Area(pub u8);

// The other side of a series: an area, a balance group, or 0.
#[derive(Clone, Copy)]
pub struct Partner(pub u8);

// A row of values: row i begins at i × Q.
#[derive(Clone, Copy)]
pub struct Row(pub u16);

// "a point is either free or active since a day, with its kind, area and partner"
#[derive(Clone, Copy)]
pub enum PointState {
    Free,
    Active {
        since: ShortDay,
        kind: Kind,
        area: Area,
        partner: Partner,
    },
}

#[derive(Clone, Copy)]
pub struct PointRecord {
    pub state: PointState,
}

// A point's series as a call names it, in any numbers: its kind, area and partner.
#[derive(Clone, Copy)]
pub struct Series {
    pub kind: u64,
    pub area: u64,
    pub partner: u64,
}

// Check data, settlement data, settled, correction settlement data, correction settled.
#[derive(Clone, Copy)]
pub enum Status {
    Check,
    Settlement,
    Settled,
    Correction,
    CorrectionSettled,
}

#[derive(Clone, Copy)]
pub struct VersionRecord {
    pub version: Version,
    pub point: ShortPoint,
    pub row: Row,
    pub status: Status,
}

// What the opening fixes: Q (0: not open), the deadlines F, C and K, the lengths of the four stores.
#[derive(Clone, Copy)]
pub struct Opening {
    pub quarters: u64,
    pub first: Day,
    pub clearing: Day,
    pub correction: Day,
    pub values: u64,
    pub book: u64,
    pub log: u64,
    pub schedules: u64,
}

// A value for each run.
#[derive(Clone, Copy)]
pub struct PerRun<T> {
    pub first: T,
    pub second: T,
}

// The delta groups of T and of areas 1 to 16, for each run.
pub type DeltaGroups = PerRun<[u64; DELTAS as usize]>;

// What stands beside the two tables: what the opening fixed, the day, the delta groups, how many versions are held, how many rows of the log
// are used, the runs closed and the runs issued.
#[derive(Clone, Copy)]
pub struct Frame {
    pub opening: Opening,
    pub day: Day,
    pub groups: DeltaGroups,
    pub count: u64,
    pub used: u64,
    pub closed: PerRun<bool>,
    pub issued: PerRun<bool>,
}

// The first `count` records of `versions` are the versions held, in the order of their submission; what stands past them is unused.
#[derive(Clone, Copy)]
pub struct Desk {
    pub frame: Frame,
    pub points: [PointRecord; POINTS as usize],
    pub versions: [VersionRecord; VERSIONS as usize],
}

// A row of the version table: its index, the number of the version there, its row of values and its status.
#[derive(Clone, Copy)]
pub struct VersionRow {
    pub at: u64,
    pub version: Version,
    pub row: Row,
    pub status: Status,
}

// The version that a run selects for a point with its status, if there is one.
#[derive(Clone, Copy)]
pub enum Selection {
    None,
    Selected(VersionRow),
}

// A version that was asked for: where it stands in the version table, and its record.
#[derive(Clone, Copy)]
pub struct HeldVersion {
    pub at: u64,
    pub record: VersionRecord,
}

// What becomes of the two tables: both are made anew, one record of one of them is put, or the versions are settled in a run.
#[derive(Clone, Copy)]
pub enum Tables {
    Same,
    Fresh,
    Point { at: u64, record: PointRecord },
    Version { at: u64, record: VersionRecord },
    Settled { run: u64 },
}

// What becomes of the tables, and all else of the desk after the call.
#[derive(Clone, Copy)]
pub struct Effect {
    pub tables: Tables,
    pub frame: Frame,
}
