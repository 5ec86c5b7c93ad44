// The types that document 01's definitions and the calls share: causes, answers, what a call asks, selections before and after, log rows, the
// sides of a series.
#![tactic(auto)]

ghost use Rattle.std.specs.Prelude.{◌≡◌};
ghost use Rattle.model.specs.Call.{cause_number, answer_number};

use quantity::{Day, PointNo, Version};
use state::{Selection, Series, Status};

// Why a call is refused, in the order of the table, with its number there. A01 to A05 are the codes of the published decision trees.
#[derive(Clone, Copy)]
pub enum Cause {
    NotOpen = 1,
    WrongLength = 2,
    BadField = 3,
    OpenAgain = 6,
    BadOpening = 4,
    PastDay = 5,
    // A01
    AfterCorrection = 11,
    TooLate = 26,
    PointActive = 21,
    SameSeries = 22,
    // A02
    NotActive = 12,
    HasVersion = 23,
    // A03
    TooEarly = 13,
    // A04
    VersionPresent = 14,
    // A05
    VersionBelow = 15,
    NoVersion = 24,
    NoticeBelow = 37,
    NotCheckData = 25,
    NoRow = 16,
    NoLogRow = 17,
    CloseTooEarly = 27,
    AlreadyClosed = 28,
    FirstRunOpen = 29,
    NotClosed = 38,
    AlreadyIssued = 39,
}

// The answer of a call. An accepted status is a case of its own.
#[derive(Clone, Copy)]
pub enum Answer {
    Accepted,
    HasStatus(Status),
    Refused(Cause),
}

impl From<Cause> for u64 {
    ghost from_gives = { λ cause number. number ≡ cause_number cause };

    fn from(cause: Cause) -> u64 {
        cause as u64
    }
}

// What a call returns: 0 where it is accepted, a status, or the cause of its refusal.
impl From<Answer> for u64 {
    ghost from_gives = { λ answer number. number ≡ answer_number answer };

    fn from(answer: Answer) -> u64 {
        match answer {
            Answer::Accepted => 0,
            Answer::HasStatus(status) => u64::from(status),
            Answer::Refused(cause) => u64::from(cause),
        }
    }
}

// What a call asks of the desk: a point, 0 where there is none; whether an active point has a series; the point's versions, and one of them by its
// number.
#[derive(Clone, Copy)]
pub struct Asks {
    pub point: PointNo,
    pub series: Option<Series>,
    pub version: Option<Version>,
}

// Run 1's selection and run 2's own for a point, before and after a call.
#[derive(Clone, Copy)]
pub struct Turn {
    pub old1: Selection,
    pub new1: Selection,
    pub old2: Selection,
    pub new2: Selection,
}

// A row of the log: day, point, run, new version.
#[derive(Clone, Copy)]
pub struct LogRow {
    pub day: Day,
    pub point: PointNo,
    pub run: u64,
    pub version: Version,
}

// One side of a series: no row of the book, a group's row, or a delta's row and that of its delta group.
#[derive(Clone, Copy)]
pub enum Side {
    Outside,
    Group(u64),
    Delta { delta: u64, group: u64 },
}

// Every series moves its value from one side to the other.
#[derive(Clone, Copy)]
pub struct Sides {
    pub to: Side,
    pub from: Side,
}
