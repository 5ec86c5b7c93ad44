// For tests only: a desk with one field overwritten, as no call would do it, so that cause 1 can be tried field by field.
#![tactic(auto)]

ghost use Rattle.std.specs.Prelude.{◌≡◌, slice_set};
ghost use Rattle.damage.specs.Record.{status_by, record_by};

use book::figure::BYTE;
use quantity::limits::DELTAS;
use quantity::{Day, Version};
use state::{
    Area, DeltaGroups, Desk, Frame, Kind, Opening, Partner, PointRecord, PointState, Row, ShortDay,
    ShortPoint, Status, VersionRecord,
};

// How many values two bytes have.
const SHORT: u64 = BYTE * BYTE;

// An item into a place; nothing where there is no such place.
pub fn overwrite<T: Copy>(items: &mut [T], place: u64, item: T)
    ensures { items.new ≡ slice_set items.old place item }
{
    if place < items.len() as u64 {
        items[place as usize] = item;
    }
}

// A field that the opening fixed.
fn damage_opening(opening: &mut Opening, which: u64, a: u64) {
    match which {
        1 => opening.quarters = a,
        2 => opening.first = Day(a),
        3 => opening.clearing = Day(a),
        4 => opening.correction = Day(a),
        5 => opening.values = a,
        6 => opening.book = a,
        7 => opening.log = a,
        17 => opening.schedules = a,
        _ => {}
    }
}

// A delta group: run 1's have the places 0 to 16, run 2's 17 to 33.
fn damage_groups(groups: &mut DeltaGroups, place: u64, a: u64) {
    if place < DELTAS {
        overwrite(&mut groups.first, place, a);
    } else {
        overwrite(&mut groups.second, place - DELTAS, a);
    }
}

// A field beside the tables.
fn damage_frame(frame: &mut Frame, which: u64, place: u64, a: u64) {
    match which {
        8 => frame.day = Day(a),
        9 => damage_groups(&mut frame.groups, place, a),
        10 => frame.count = a,
        11 => frame.used = a,
        12 => frame.closed.first = a != 0,
        13 => frame.closed.second = a != 0,
        18 => frame.issued.first = a != 0,
        19 => frame.issued.second = a != 0,
        _ => damage_opening(&mut frame.opening, which, a),
    }
}

// A number that no status has is taken for check data.
#[tactic(auto, unfolding(crate::specs::Record::status_by))]
fn status_of(number: u64) -> Status
    ensures { result ≡ status_by number }
{
    match number {
        2 => Status::Settlement,
        3 => Status::Settled,
        4 => Status::Correction,
        5 => Status::CorrectionSettled,
        _ => Status::Check,
    }
}

// A version's record of four numbers; of a point and a row it has the two low bytes.
pub fn record_of(version: u64, point: u64, row: u64, status: u64) -> VersionRecord
    ensures { result ≡ record_by version point row status }
{
    VersionRecord {
        version: Version(version),
        point: ShortPoint((point % SHORT) as u16),
        row: Row((row % SHORT) as u16),
        status: status_of(status),
    }
}

// The field by its number; another number changes nothing.
pub fn damaged(d: Desk, which: u64, place: u64, a: u64, b: u64, c: u64, e: u64) -> Desk {
    let mut r = d;
    match which {
        14 => {
            let free = PointState::Free;
            overwrite(&mut r.points, place, PointRecord { state: free });
        }
        15 => {
            let active = PointState::Active {
                since: ShortDay((a % SHORT) as u16),
                kind: Kind((b % BYTE) as u8),
                area: Area((c % BYTE) as u8),
                partner: Partner((e % BYTE) as u8),
            };
            overwrite(&mut r.points, place, PointRecord { state: active });
        }
        16 => overwrite(&mut r.versions, place, record_of(a, b, c, e)),
        _ => damage_frame(&mut r.frame, which, place, a),
    }
    r
}
