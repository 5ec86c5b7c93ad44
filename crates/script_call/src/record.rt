// A record of a script: its number, the four lengths of the stores that are lent to it, its own numbers.
ghost use Rattle.std.specs.Prelude.{◌≤◌, length, IfSome};

use message::call::{ASSIGNMENT, CLOSING, ISSUING, MOST_FIELDS};
use writer::fields::{field_at, pad_fields};

// Records by their numbers: the nine calls by document 01's, of which settle is close, the three of document 02, and what somebody else does to the
// state and to a store.
const SUBMIT: u64 = 4;

pub const SHOW: u64 = 7;

pub const STATUS: u64 = 8;

const CLOSE: u64 = 9;

pub const LODGE: u64 = 10;

pub const REPORT: u64 = 11;

const ISSUE: u64 = 12;

pub const DAMAGE: u64 = 13;

pub const WRITE: u64 = 14;

// Where a record's own numbers begin.
const OWN: usize = 5;

// How many numbers a record has, the energies of a submission or a lodging apart; 0 for number 0, which no record has.
const SIZES: [usize; 15] = [0, 26, 10, 7, SUBMITTED, 9, 8, 7, 7, 7, LODGED, 7, 7, 11, 8];

// Where a submission's energies begin; their count stands before them.
pub const SUBMITTED: usize = 9;

// The same of a lodging.
pub const LODGED: usize = 8;

// How many energies stand behind the numbers of the record at the head of what is left of a script.
fn energies_in(rest: &[u64]) -> u64 {
    match field_at(rest, 0) {
        SUBMIT => field_at(rest, SUBMITTED - 1),
        LODGE => field_at(rest, LODGED - 1),
        _ => 0,
    }
}

// That record; none where there is none, or it is cut short.
pub fn record_in(rest: &[u64]) -> Option<&[u64]>
    ensures { IfSome result (λ r. (1 ≤ length r.now) × (length r.now ≤ length rest.now)) }
{
    let op = field_at(rest, 0);
    let size = SIZES.get(op as usize).copied().unwrap_or(0);
    if size == 0 || rest.len() < size {
        return None;
    }
    let count = energies_in(rest);
    if ((rest.len() - size) as u64) < count {
        return None;
    }
    Some(&rest[..size + count as usize])
}

// The numbers of a record from a place on; none where it has fewer.
pub fn behind(record: &[u64], at: usize) -> &[u64] {
    record.get(at..).unwrap_or(&[])
}

// A record's own numbers, with 0 behind them.
pub fn fields_in(record: &[u64]) -> [u64; MOST_FIELDS] {
    pad_fields(behind(record, OWN))
}

// The kind under which a message file has the call: up to assign the same number; 0, which is no kind, for one that no file has and for what is no call.
pub fn kind_in_file(op: u64) -> u64 {
    match op {
        0..=ASSIGNMENT => op,
        CLOSE => CLOSING,
        ISSUE => ISSUING,
        _ => 0,
    }
}
