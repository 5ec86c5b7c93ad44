// The sides of a point's series, by the table of series.
ghost use Rattle.std.specs.Prelude.{◌≡◌, ◌≤◌};
ghost use Rattle.model.specs.Series.{group_side, delta_side, to_side, from_side, sides_of};
ghost use Rattle.book.specs.Place.{group_row};

use model::{Side, Sides};
use quantity::limits::{DELTAS, GROUPS};
use state::{PointState, Series};

// The row of a group, counted from 0.
pub fn group_row(group: u64) -> u64
    ensures { result ≡ group_row group }
{
    group.saturating_sub(1)
}

pub fn group_side(group: u64) -> Side
    ensures { result ≡ group_side group }
{
    Side::Group(group_row(group))
}

// An area's delta with its delta group; area 0 is T.
fn delta_side(groups: [u64; DELTAS as usize], area: u64) -> Side
    requires { area ≤ 255 }
    ensures { result ≡ delta_side groups area }
{
    let group = if area < DELTAS {
        group_row(groups[area as usize])
    } else {
        0
    };
    Side::Delta {
        delta: GROUPS + area,
        group,
    }
}

// What +v goes to.
#[tactic(auto, unfolding(model::specs::Series::to_side))]
fn to_side(groups: [u64; DELTAS as usize], series: Series) -> Side
    requires { series.area ≤ 255 }
    ensures { result ≡ to_side groups series.kind series.area series.partner }
{
    match series.kind {
        1 | 5 => delta_side(groups, series.area),
        2 | 4 => group_side(series.partner),
        3 => delta_side(groups, 0),
        _ => Side::Outside,
    }
}

// What -v goes to. As a partner 0 is the outside, and not T.
#[tactic(auto, unfolding(model::specs::Series::from_side))]
fn from_side(groups: [u64; DELTAS as usize], series: Series) -> Side
    requires area_bound { series.area ≤ 255 }
    requires partner_bound { series.partner ≤ 255 }
    ensures { result ≡ from_side groups series.kind series.area series.partner }
{
    match series.kind {
        1 if 0 < series.partner => delta_side(groups, series.partner),
        2 | 3 => delta_side(groups, series.area),
        4 | 5 => delta_side(groups, 0),
        _ => Side::Outside,
    }
}

#[tactic(auto, unfolding(model::specs::Series::sides_of))]
pub fn sides_of(groups: [u64; DELTAS as usize], s: PointState) -> Sides
    ensures { result ≡ sides_of groups s }
{
    match s {
        PointState::Free => Sides {
            to: Side::Outside,
            from: Side::Outside,
        },
        PointState::Active {
            kind,
            area,
            partner,
            ..
        } => {
            let series = Series {
                kind: kind.0 as u64,
                area: area.0 as u64,
                partner: partner.0 as u64,
            };
            Sides {
                to: to_side(groups, series),
                from: from_side(groups, series),
            }
        }
    }
}
