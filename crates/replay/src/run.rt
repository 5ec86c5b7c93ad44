// The calls of a file on a fresh desk, one after the other.
ghost use Rattle.std.specs.Prelude.{◌≡◌, ◌≤◌, false, cond, eqb, length, map, take};
ghost use Rattle.quantity.specs.Limits.{versions as most_versions};
ghost use Rattle.quantity.specs.Word.{signed};
ghost use Rattle.state.specs.Change.{settle};
ghost use Rattle.state.specs.Desk.{is_open, fresh_desk};
ghost use Rattle.state.specs.Effect.{changed_by, Fits};
ghost use Rattle.state.specs.Settling.{PointsIn};
ghost use Rattle.state.specs.Valid.{valid_desk};
ghost use Rattle.state.specs.Walk.{map_first};
ghost use Rattle.checks.specs.Stepped.{stores_of};
ghost use Rattle.dispatch.specs.Asked.{asked};
ghost use Rattle.replay.specs.Play.{starting};
ghost use Rattle.replay.specs.Run.{playing_of, running_of, Handed, Ran};
ghost use Rattle.replay.specs.declared.Ending.TheVariants.{End, Full};

use crate::lending::lend_call;
use crate::{Ending, Replayed};
use dispatch::asks::place_in;
use message::FileRefusal;
use model::Answer;
use quantity::limits::VERSIONS;
use reader::{CallRead, read_call};
use state::fresh::fresh_desk;
use state::settling::settled_versions;
use state::{Desk, Effect, Tables, VersionRecord};

// How a file ends where the answers are full.
fn ended_at(at: usize, length: usize) -> Ending
    ensures { result ≡ cond (eqb at length) End Full }
{
    if at == length {
        Ending::End
    } else {
        Ending::Full
    }
}

// The versions held are settled for a run. On its own: the copy that settling takes then has no room of its own on the stack of a turn.
fn settle_held(versions: &mut [VersionRecord; VERSIONS as usize], count: u64, run: u64)
    requires count_le_most_versions { count ≤ most_versions }
    requires points_in { PointsIn (take count versions.old) }
    ensures { versions.new ≡ map_first count (settle run (take count versions.old)) versions.old }
{
    let held = *versions;
    *versions = settled_versions(held, count, run);
}

// An effect on the desk that is held, as `state::effects::changed` makes one of a desk that is handed on. What is made anew is a desk that is not open:
// its tables are a fresh desk's already.
fn carry_out(desk: &mut Desk, effect: Effect)
    requires fits { Fits desk.old effect }
    requires fresh { is_open desk.old.frame.opening ≡ false → desk.old ≡ fresh_desk }
    ensures { desk.new ≡ changed_by desk.old effect }
{
    match effect.tables {
        Tables::Same | Tables::Fresh => {}
        Tables::Point { at, record } => {
            desk.points[at as usize] = record;
        }
        Tables::Version { at, record } => {
            desk.versions[at as usize] = record;
        }
        Tables::Settled { run } => {
            settle_held(&mut desk.versions, desk.frame.count, run);
        }
    }
    desk.frame = effect.frame;
}

// A call that was read is handed on with its energies, its effect carried out on the desk. The point that it names is read where it stands.
fn hand_on(
    desk: &mut Desk,
    read: CallRead,
    series: &[u64],
    values: &mut [u64],
    book: &mut [u64],
    log: &mut [u64],
    schedules: &mut [u64],
) -> Answer
    requires value { valid_desk desk.old ≡ is_open desk.old.frame.opening }
    requires fresh { is_open desk.old.frame.opening ≡ false → desk.old ≡ fresh_desk }
    requires count { read.count ≤ length series.now }
    ensures { Handed (running_of desk.old (stores_of values.old book.old log.old schedules.old)) (asked read.call read.groups (map signed (take read.count series.now))) result (running_of desk.new (stores_of values.new book.new log.new schedules.new)) }
{
    let point = desk.points[place_in(read.call)];
    let sent = &series[0..read.count];
    let out = lend_call(
        *desk,
        point,
        read.call,
        read.groups,
        sent,
        values,
        book,
        log,
        schedules,
    );
    carry_out(desk, out.effect);
    out.answer
}

// While there is room for an answer the next call is read and handed on. Without room the next call is not looked at.
pub fn run_file(
    file: &[u8],
    values: &mut [u64],
    book: &mut [u64],
    log: &mut [u64],
    schedules: &mut [u64],
    series: &mut [u64],
    answers: &mut [u64],
) -> Replayed
    ensures { Ran file.now (starting (stores_of values.old book.old log.old schedules.old) series.old answers.old) (playing_of result.desk (stores_of values.new book.new log.new schedules.new) series.new answers.new result.answered) result.ending }
{
    let mut desk = fresh_desk();
    let mut at = 0;
    let mut answered = 0;
    while answered < answers.len() {
        let read = match read_call(file, at, series) {
            Ok(Some(read)) => read,
            Ok(None) => {
                return Replayed {
                    answered,
                    ending: Ending::End,
                    desk,
                };
            }
            Err(FileRefusal { cause, offset }) => {
                return Replayed {
                    answered,
                    ending: Ending::Refused { cause, offset },
                    desk,
                };
            }
        };
        let answer = hand_on(&mut desk, read, series, values, book, log, schedules);
        answers[answered] = u64::from(answer);
        answered += 1;
        at = read.next;
    }
    Replayed {
        answered,
        ending: ended_at(at, file.len()),
        desk,
    }
}
