// A script of the twelve calls on a fresh desk, each with its own lengths of the stores; damage to the desk's fields, and writing in a store.
ghost use Rattle.std.specs.Prelude.{◌≤◌, length, IfSome};

use crate::Room;
use damage::{damaged, overwrite};
use script_call::Output;
use script_call::call::run_call;
use script_call::record::{DAMAGE, WRITE, fields_in, record_in};
use state::Desk;
use state::fresh::fresh_desk;
use writer::fields::field_at;

// The first n numbers of a store; all of them where it has fewer.
fn first_of(store: &mut [u64], n: usize) -> &mut [u64] {
    let end = n.min(store.len());
    &mut store[..end]
}

// Somebody else's number into a place of the store that has a number; nothing where none has it.
fn write_in(
    store: u64,
    place: u64,
    number: u64,
    values: &mut [u64],
    book: &mut [u64],
    log: &mut [u64],
    schedules: &mut [u64],
) {
    match store {
        0 => overwrite(values, place, number),
        1 => overwrite(book, place, number),
        2 => overwrite(log, place, number),
        3 => overwrite(schedules, place, number),
        _ => {}
    }
}

// A record that fits the stores.
fn run_record(
    d: Desk,
    record: &[u64],
    values: &mut [u64],
    book: &mut [u64],
    log: &mut [u64],
    schedules: &mut [u64],
    out: &mut Output,
) -> Desk {
    let f = fields_in(record);
    match field_at(record, 0) {
        DAMAGE => damaged(d, f[0], f[1], f[2], f[3], f[4], f[5]),
        WRITE => {
            write_in(f[0], f[1], f[2], values, book, log, schedules);
            d
        }
        _ => run_call(
            d,
            record,
            first_of(values, field_at(record, 1) as usize),
            first_of(book, field_at(record, 2) as usize),
            first_of(log, field_at(record, 3) as usize),
            first_of(schedules, field_at(record, 4) as usize),
            out,
        ),
    }
}

// Whether the output has room for the answer of a call that is lent so many figures: show's number, its row's length and its row, or a report's three.
fn has_room(out: &Output, book: u64) -> bool {
    let n = out.numbers.len();
    out.filled <= n && 3 <= n - out.filled && book <= (n - out.filled - 2) as u64
}

// Whether the buffers have the lengths that a record lends.
fn lends_within(record: &[u64], room: Room) -> bool {
    field_at(record, 1) <= room.values as u64
        && field_at(record, 2) <= room.book as u64
        && field_at(record, 3) <= room.log as u64
        && field_at(record, 4) <= room.schedules as u64
}

// The record at the head of what is left of a script; none where it cannot be run.
fn ready<'a>(rest: &'a [u64], room: Room, out: &Output) -> Option<&'a [u64]>
    ensures { IfSome result (λ r. (1 ≤ length r.now) × (length r.now ≤ length rest.now)) }
{
    let record = record_in(rest)?;
    let is_call = field_at(record, 0) < DAMAGE;
    if is_call && !(lends_within(record, room) && has_room(out, field_at(record, 2))) {
        return None;
    }
    Some(record)
}

// Runs a script on a fresh desk; the answer is how many places of the output are filled. It stops before a record that cannot be run.
// Each call gives its number (`number_in`: a cause's own, 100 added to a status), show also the length of its row and the row, a report its
// surplus and its shortfall.
#[unsafe(no_mangle)]
pub extern "C" fn drive_script(
    script: &[u64],
    values: &mut [u64],
    book: &mut [u64],
    log: &mut [u64],
    schedules: &mut [u64],
    out: &mut [u64],
) -> u64 {
    let room = Room {
        values: values.len(),
        book: book.len(),
        log: log.len(),
        schedules: schedules.len(),
    };
    let mut output = Output {
        numbers: out,
        filled: 0,
    };
    let mut desk = fresh_desk();
    let mut rest = script;
    while let Some(record) = ready(rest, room, &output) {
        rest = &rest[record.len()..];
        desk = run_record(desk, record, values, book, log, schedules, &mut output);
    }
    output.filled as u64
}
