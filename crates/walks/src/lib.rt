// For tests only: the two walks over the versions, on a table of numbers that may hold anything.
#![tactic(auto)]

ghost use Rattle.std.specs.Prelude.{◌≡◌, ◌+◌, ◌≤◌, length};
ghost use Rattle.walks.specs.Walk.{record_from, Made, is_held, held_at, selected_at, numbers_of, walks_in, Walks};

use amend::copies::put_row;
use checks::surveys::{survey, survey_tested};
use checks::{Survey, Tested};
use damage::record_of;
use quantity::limits::VERSIONS;
use quantity::{PointNo, Version};
use state::{HeldVersion, Row, Selection, ShortPoint, Status, VersionRecord, selections};

// How many numbers a record has: version, point, row, status.
const RECORD: usize = 4;

// How many numbers a table has.
pub const TABLE: usize = RECORD * VERSIONS as usize;

// How many numbers a walk gives.
const WALK: usize = 10;

// How many numbers the driver gives.
pub const OUT: usize = 2 * WALK + 1;

// The record of the four numbers from a place on.
fn record_at(table: &[u64], at: usize) -> VersionRecord
    requires { at + 4 ≤ length table.now }
    ensures { result ≡ record_from table.now at }
{
    record_of(table[at], table[at + 1], table[at + 2], table[at + 3])
}

fn records_of(table: &[u64]) -> [VersionRecord; VERSIONS as usize]
    requires { length table.now ≡ 2048 }
    ensures { Made table.now result }
{
    let empty = VersionRecord {
        version: Version(0),
        point: ShortPoint(0),
        row: Row(0),
        status: Status::Check,
    };
    let mut versions = [empty; VERSIONS as usize];
    for i in 0..VERSIONS as usize {
        versions[i] = record_at(table, RECORD * i);
    }
    versions
}

fn is_held(held: Option<HeldVersion>) -> u64
    ensures { result ≡ is_held held }
{
    held.map_or(0, |_| 1)
}

fn held_at(held: Option<HeldVersion>) -> u64
    ensures { result ≡ held_at held }
{
    held.map_or(0, |found| found.at)
}

fn selected_at(s: Selection) -> u64
    ensures { result ≡ selected_at s }
{
    match s {
        Selection::None => 0,
        Selection::Selected(row) => row.at,
    }
}

// What a walk found: 1 or 0 for the version asked for and its index; the highest; status, version and index of run 1's selection and of run 2's own;
// the records read. What was not found is 0.
fn numbers_of(s: Survey) -> [u64; WALK]
    ensures { result ≡ numbers_of s }
{
    [
        is_held(s.held),
        held_at(s.held),
        s.highest.0,
        selections::status_of(s.first),
        selections::version_of(s.first).0,
        selected_at(s.first),
        selections::status_of(s.second),
        selections::version_of(s.second).0,
        selected_at(s.second),
        s.read,
    ]
}

// The numbers of both walks, and 1 or 0 for whether all records held fit.
fn put_walks(out: &mut [u64], s: Survey, t: Tested)
    requires { 21 ≤ length out.old }
    ensures { out.new ≡ walks_in out.old s t }
{
    put_row(out, 0, &numbers_of(s));
    put_row(out, WALK, &numbers_of(t.survey));
    out[2 * WALK] = u64::from(t.fit);
}

// One walk over the table without the limits of each record, and one with them.
pub fn put_walks_of(table: &[u64], count: u64, rows: u64, point: u64, version: u64, out: &mut [u64])
    requires { (length table.now ≡ 2048) × (21 ≤ length out.old) }
    ensures { Walks table.now count rows point version out.old out.new }
{
    let versions = records_of(table);
    let s = survey(versions, count, PointNo(point), Version(version));
    let t = survey_tested(versions, count, rows, PointNo(point), Version(version));
    put_walks(out, s, t);
}
