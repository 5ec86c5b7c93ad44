// The pick of a version.
ghost use Rattle.std.specs.Prelude.{◌≡◌, cond};
ghost use Rattle.state.specs.Selection.{row_at, raise, raise_earlier, is_counted, higher_of, version_of, status_of, or_else};
ghost use Rattle.state.specs.Version.{is_at, is_version};

use crate::statuses::counts_in;
use crate::{Selection, VersionRecord, VersionRow};
use quantity::{PointNo, Version};

pub fn is_at(v: VersionRecord, point: PointNo) -> bool
    ensures { result ≡ is_at point.0 v }
{
    u64::from(v.point.0) == point.0
}

pub fn is_version(v: VersionRecord, point: PointNo, version: Version) -> bool
    ensures { result ≡ is_version point.0 version.0 v }
{
    is_at(v, point) & (v.version == version)
}

pub fn is_counted(v: VersionRecord, run: u64, point: PointNo) -> bool
    ensures { result ≡ is_counted run point.0 v }
{
    is_at(v, point) & counts_in(run, v.status)
}

// A record as a row of the version table.
pub fn row_at(at: u64, v: VersionRecord) -> VersionRow
    ensures { result ≡ row_at at v }
{
    VersionRow {
        at,
        version: v.version,
        row: v.row,
        status: v.status,
    }
}

// A version beside the highest so far.
pub fn raised(s: Selection, r: VersionRow) -> Selection
    ensures { result ≡ raise s r }
{
    match s {
        Selection::None => Selection::Selected(r),
        Selection::Selected(top) => {
            if top.version < r.version {
                Selection::Selected(r)
            } else {
                s
            }
        }
    }
}

// The same, where no record of its number stands before its own.
pub fn raised_earlier(s: Selection, r: VersionRow) -> Selection
    ensures { result ≡ raise_earlier s r }
{
    match s {
        Selection::None => Selection::Selected(r),
        Selection::Selected(top) => {
            if top.version <= r.version {
                Selection::Selected(r)
            } else {
                s
            }
        }
    }
}

pub fn raised_if(test: bool, s: Selection, r: VersionRow) -> Selection
    ensures { result ≡ cond test (raise s r) s }
{
    if test { raised(s, r) } else { s }
}

// The higher of two versions, where the second counts.
pub fn higher(top: Version, counts: bool, version: Version) -> Version
    ensures { result ≡ higher_of top counts version }
{
    if counts & (top < version) {
        version
    } else {
        top
    }
}

pub fn version_of(s: Selection) -> Version
    ensures { result.0 ≡ version_of s }
{
    let Selection::Selected(row) = s else {
        return Version(0);
    };
    row.version
}

pub fn status_of(s: Selection) -> u64
    ensures { result ≡ status_of s }
{
    let Selection::Selected(row) = s else {
        return 0;
    };
    u64::from(row.status)
}

pub fn or_else(s: Selection, t: Selection) -> Selection
    ensures { result ≡ or_else s t }
{
    match s {
        Selection::None => t,
        Selection::Selected(_) => s,
    }
}
