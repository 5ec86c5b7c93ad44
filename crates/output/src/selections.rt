// What the runs select, put behind what is filled of a buffer.
ghost use Rattle.std.specs.Prelude.{◌+◌, ◌≤◌, ◌≡◌, length, take};
ghost use Rattle.quantity.specs.Limits.{points};
ghost use Rattle.text.specs.Puts.{Puts};
ghost use Rattle.output.specs.Fill.{selection_room, run_room, selections_room};
ghost use Rattle.output.specs.Parts.{picks_text};
ghost use Rattle.output.specs.Output.{selection_text, selections_text};

use checks::picks::{picks_of, selected_in};
use quantity::limits;
use quantity::limits::VERSIONS;
use state::{PerRun, Selection, VersionRecord};
use text::Text;

const POINTS: usize = limits::POINTS as usize;

// A point's version and its status, where the run selects one.
fn put_selection(text: &mut Text, run: u64, point: usize, s: Selection)
    requires { text.old.filled + selection_room ≤ length text.old.buffer.now }
    ensures { Puts selection_room (selection_text run point s) text.old text.new }
{
    if let Selection::Selected(row) = s {
        text.selection_line(run, point as u64, row.version.0, u64::from(row.status));
    }
}

// What a run selects of each point, points rising.
fn put_picks(text: &mut Text, picks: &[PerRun<Selection>; POINTS], run: u64)
    requires { (length picks.now ≡ points) × (text.old.filled + run_room ≤ length text.old.buffer.now) }
    ensures { Puts run_room (picks_text run picks.now) text.old text.new }
{
    for (i, p) in picks.iter().enumerate() {
        put_selection(text, run, i + 1, selected_in(*p, run));
    }
}

// What both runs select. All of it comes from one walk over the versions.
pub fn put_selections(text: &mut Text, versions: [VersionRecord; VERSIONS as usize], count: u64)
    requires { text.old.filled + selections_room ≤ length text.old.buffer.now }
    ensures { Puts selections_room (selections_text (take count versions)) text.old text.new }
{
    let picks = picks_of(versions, count);
    put_picks(text, &picks, 1);
    put_picks(text, &picks, 2);
}
