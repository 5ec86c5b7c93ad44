// The walk over the versions: all that a call asks of them, with the limits of each record or without.
ghost use Rattle.std.specs.Prelude.{◌≡◌, Bool, cond, ltb, take};
ghost use Rattle.quantity.specs.Limits.{versions as most_versions};
ghost use Rattle.quantity.specs.Lists.{all};
ghost use Rattle.checks.specs.Decides.{Decides};
ghost use Rattle.checks.specs.Survey.{nothing_found, survey_step, Surveyed, TestedIn};
ghost use Rattle.state.specs.Version.{or_held};
ghost use Rattle.state.specs.declared.VersionRecord.{VersionRecord};

use crate::limits::version_record_ok;
use crate::{Survey, Tested};
use quantity::limits::VERSIONS;
use quantity::{PointNo, Version};
use state::selections::{higher, is_at, is_counted, is_version, raised_if, row_at};
use state::{HeldVersion, Selection, VersionRecord};

pub fn or_held(
    held: Option<HeldVersion>,
    at: u64,
    v: VersionRecord,
    point: PointNo,
    version: Version,
) -> Option<HeldVersion>
    ensures { result ≡ or_held point.0 version.0 held at v }
{
    match held {
        Some(_) => held,
        None => {
            if is_version(v, point, version) {
                Some(HeldVersion { at, record: v })
            } else {
                held
            }
        }
    }
}

// In no record.
pub fn nothing_found() -> Survey
    ensures { result ≡ nothing_found }
{
    Survey {
        held: None,
        highest: Version(0),
        first: Selection::None,
        second: Selection::None,
        read: 0,
    }
}

// One record of the point more.
fn surveyed(s: Survey, at: u64, v: VersionRecord, point: PointNo, version: Version) -> Survey
    ensures { result ≡ survey_step point.0 version.0 s at v }
{
    let row = row_at(at, v);
    Survey {
        held: or_held(s.held, at, v, point, version),
        highest: higher(s.highest, is_at(v, point), v.version),
        first: raised_if(is_counted(v, 1, point), s.first, row),
        second: raised_if(is_counted(v, 2, point), s.second, row),
        read: s.read,
    }
}

// A count past the table's end means the whole table.
pub fn records_in(count: u64) -> usize
    ensures { result ≡ cond (ltb count most_versions) count most_versions }
{
    if count < VERSIONS {
        count as usize
    } else {
        VERSIONS as usize
    }
}

// All that a call asks of the versions, with a test of each record. A record is read at the number of those read before it, and nowhere else.
fn walk<F: Fn(VersionRecord) -> bool>(
    versions: &[VersionRecord],
    point: PointNo,
    version: Version,
    fits: F,
) -> Tested
    requires { F.IsAlwaysCallable fits }
    ensures survey { Surveyed point.0 version.0 versions.now result.survey }
    ensures fit { (test : VersionRecord → Bool) → Decides (F.post fits) test → result.fit ≡ all test versions.now }
{
    let mut fit = true;
    let mut s = nothing_found();
    for v in versions {
        fit &= fits(*v);
        if is_at(*v, point) {
            s = surveyed(s, s.read, *v, point, version);
        }
        s.read += 1;
    }
    Tested { fit, survey: s }
}

// No limit is tested.
pub fn survey(
    versions: [VersionRecord; VERSIONS as usize],
    count: u64,
    point: PointNo,
    version: Version,
) -> Survey
    ensures { Surveyed point.0 version.0 (take count versions) result }
{
    walk(&versions[..records_in(count)], point, version, |_| true).survey
}

// The same with the limits of each record; one of another point is only asked whether it fits.
pub fn survey_tested(
    versions: [VersionRecord; VERSIONS as usize],
    count: u64,
    rows: u64,
    point: PointNo,
    version: Version,
) -> Tested
    ensures { TestedIn rows point.0 version.0 (take count versions) result }
{
    walk(&versions[..records_in(count)], point, version, |v| {
        version_record_ok(v, rows)
    })
}
