// The kinds of calls and their fields.
ghost use Rattle.std.specs.Prelude.{◌≡◌, length, drop};
ghost use Rattle.message.specs.Call.{is_kind, fields_of, count_in};
ghost use Rattle.message.specs.Offset.{itself, number_of};
ghost use Rattle.message.specs.Named.{call_of, later_call_of, groups_of};

use crate::{DeskCall, FileCause, NumberRead, number};
use quantity::{Day, PointNo, Version, limits};

pub const OPENING: u64 = 1;

pub const ACTIVATION: u64 = 2;

pub const DEACTIVATION: u64 = 3;

pub const SUBMISSION: u64 = 4;

pub const NOTICE: u64 = 5;

pub const ASSIGNMENT: u64 = 6;

pub const CLOSING: u64 = 7;

pub const ISSUING: u64 = 8;

// The kinds are 1 to this one.
pub const KINDS: u64 = ISSUING;

// The fields of an opening before its delta groups: Q, F, C, K.
pub const BEFORE_GROUPS: usize = 4;

// The most fields that a call has: those of an opening.
pub const MOST_FIELDS: usize = BEFORE_GROUPS + limits::DELTAS as usize;

pub fn kind_ok(kind: u64) -> bool
    ensures { result ≡ is_kind kind }
{
    (1 <= kind) & (kind <= KINDS)
}

// How many fields a kind has.
pub fn fields_of(kind: u64) -> usize
    ensures { result ≡ fields_of kind }
{
    if kind == OPENING {
        return MOST_FIELDS;
    }
    if kind == ACTIVATION {
        return 5;
    }
    if kind == DEACTIVATION {
        return 2;
    }
    if kind == SUBMISSION {
        return 3;
    }
    if kind == NOTICE {
        return 4;
    }
    if kind == ASSIGNMENT {
        return 3;
    }
    if kind == CLOSING {
        return 2;
    }
    if kind == ISSUING {
        return 2;
    }
    0
}

// The call of a kind with its fields, none where there is no such kind.
pub fn call_of(kind: u64, fields: [u64; MOST_FIELDS]) -> Option<DeskCall>
    ensures { result ≡ call_of kind fields }
{
    let a = fields[0];
    let b = fields[1];
    let c = fields[2];
    let d = fields[3];
    if kind == OPENING {
        return Some(DeskCall::Open {
            quarters: a,
            first: Day(b),
            clearing: Day(c),
            correction: Day(d),
        });
    }
    if kind == ACTIVATION {
        return Some(DeskCall::Activate {
            point: PointNo(a),
            kind: b,
            area: c,
            partner: d,
            day: Day(fields[4]),
        });
    }
    if kind == DEACTIVATION {
        return Some(DeskCall::Deactivate {
            point: PointNo(a),
            day: Day(b),
        });
    }
    later_call_of(kind, a, b, c, d)
}

fn later_call_of(kind: u64, a: u64, b: u64, c: u64, d: u64) -> Option<DeskCall>
    ensures { result ≡ later_call_of kind a b c d }
{
    if kind == SUBMISSION {
        return Some(DeskCall::Submit {
            point: PointNo(a),
            version: Version(b),
            day: Day(c),
        });
    }
    if kind == NOTICE {
        return Some(DeskCall::Notice {
            point: PointNo(a),
            version: Version(b),
            verdict: c,
            day: Day(d),
        });
    }
    if kind == ASSIGNMENT {
        return Some(DeskCall::Assign {
            area: a,
            group: b,
            day: Day(c),
        });
    }
    if kind == CLOSING {
        return Some(DeskCall::Close {
            run: a,
            day: Day(b),
        });
    }
    if kind == ISSUING {
        return Some(DeskCall::Issue {
            run: a,
            day: Day(b),
        });
    }
    None
}

// The 17 delta groups of an opening.
pub fn groups_of(fields: [u64; MOST_FIELDS]) -> [u64; limits::DELTAS as usize]
    ensures { result ≡ groups_of fields }
{
    let mut groups = [0u64; limits::DELTAS as usize];
    groups.copy_from_slice(&fields[BEFORE_GROUPS..]);
    groups
}

// A count of energies, at most 2,980 and at most as many as there is room for.
pub fn read_count(file: &[u8], at: usize, room: usize) -> Result<NumberRead, FileCause>
    ensures { result ≡ number_of itself (length file.now) (count_in room (drop at file.now)) }
{
    let count = number::read_number(file, at)?;
    if limits::QUARTERS < count.value {
        return Err(FileCause::TooLarge);
    }
    if (room as u64) < count.value {
        return Err(FileCause::NoRoom);
    }
    Ok(count)
}
