// Settling over the whole version table, in two passes: the highest version that counts for each point, then exactly those restated.
ghost use Rattle.std.specs.Prelude.{◌≡◌, ◌≤◌, take, replicate};
ghost use Rattle.quantity.specs.Limits.{points, versions as most_versions};
ghost use Rattle.state.specs.Change.{settle_by, settle};
ghost use Rattle.state.specs.Selection.{no_version};
ghost use Rattle.state.specs.Settling.{PointsIn};
ghost use Rattle.state.specs.Walk.{map_first};

use crate::VersionRecord;
use crate::changes::restated;
use crate::selections::higher;
use crate::statuses::{counts_in, settled_status};
use quantity::Version;
use quantity::limits::{POINTS, VERSIONS};

// Nothing found yet.
pub fn no_tops() -> [Version; POINTS as usize]
    ensures { result ≡ replicate points no_version }
{
    [Version(0); POINTS as usize]
}

// A record that counts and is its point's highest is restated.
pub fn settled_record(v: VersionRecord, run: u64, top: Version) -> VersionRecord
    ensures { result ≡ settle_by run top.0 v }
{
    if counts_in(run, v.status) & (v.version == top) {
        restated(v, settled_status(run))
    } else {
        v
    }
}

// Run 1: each selected version gets 3. Run 2: each own one gets 5. Both passes go over one table here: handed on for each, it is copied for each.
pub fn settled_versions(
    versions: [VersionRecord; VERSIONS as usize],
    count: u64,
    run: u64,
) -> [VersionRecord; VERSIONS as usize]
    requires count_le_most_versions { count ≤ most_versions }
    requires points_in { PointsIn (take count versions) }
    ensures { result ≡ map_first count (settle run (take count versions)) versions }
{
    let mut vs = versions;
    let mut tops = no_tops();
    let n = count as usize;
    for i in 0..n {
        let v = vs[i];
        let k = (v.point.0 - 1) as usize;
        tops[k] = higher(tops[k], counts_in(run, v.status), v.version);
    }
    for i in 0..n {
        let v = vs[i];
        let k = (v.point.0 - 1) as usize;
        vs[i] = settled_record(v, run, tops[k]);
    }
    vs
}
