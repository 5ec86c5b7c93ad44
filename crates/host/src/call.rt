// One call of a message file read, and one call written, as numbers in slices.
ghost use Rattle.std.specs.Prelude.{◌≡◌, ◌≤◌, length};
ghost use Rattle.reader.specs.Reader.{read_at};
ghost use Rattle.host.specs.Call.{places, written, step_offset, ReadCall, sent_as, WriteCall};

use crate::{TOO_SHORT, numbers};
use message::call::MOST_FIELDS;
use message::file::pass_any;
use writer::fields::pad_fields;

// The places of what was read: the offset behind it, its kind, 21 fields, a count.
const FIELDS_AT: usize = 2;

const COUNT_AT: usize = FIELDS_AT + MOST_FIELDS;

const PLACES: usize = COUNT_AT + 1;

// No call follows.
const NO_CALL: u64 = 1;

// A call that was read, into its places.
fn fill_out(out: &mut [u64], first: u64, kind: u64, fields: [u64; MOST_FIELDS], count: u64)
    requires { places ≤ length out.old }
    ensures { out.new ≡ written first kind fields count out.old }
{
    out[0] = first;
    out[1] = kind;
    out[FIELDS_AT..COUNT_AT].copy_from_slice(&fields);
    out[COUNT_AT] = count;
}

#[unsafe(no_mangle)]
pub extern "C" fn emorizugu_read(
    file: &[u8],
    start: u64,
    series: &mut [u64],
    out: &mut [u64],
) -> u64
    ensures { ReadCall file.now start series.old out.old result series.new out.new }
{
    if out.len() < PLACES {
        return TOO_SHORT;
    }
    match reader::read_call(file, start as usize, series) {
        Ok(Some(read)) => {
            let kind = numbers::kind_of(read.call);
            let fields = numbers::numbers_of(read.call, read.groups);
            fill_out(out, read.next as u64, kind, fields, read.count as u64);
            0
        }
        Ok(None) => NO_CALL,
        Err(unread) => u64::from(unread.cause),
    }
}

// Over the same input, with room for as many energies as the series buffer: the offset of the refused call, or that behind a call that is read; at
// the file's end that end.
#[unsafe(no_mangle)]
pub extern "C" fn emorizugu_read_offset(file: &[u8], start: u64, room: u64) -> u64
    ensures { result ≡ step_offset start (read_at file.now start room) }
{
    let at = start as usize;
    if at == file.len() {
        return start;
    }
    match pass_any(file, at, room as usize) {
        Ok(next) => next as u64,
        Err(_) => start,
    }
}

#[unsafe(no_mangle)]
pub extern "C" fn emorizugu_write(
    kind: u64,
    fields: &[u64],
    series: &[u64],
    output: &mut [u8],
    out: &mut [u64],
) -> u64
    ensures { WriteCall (sent_as kind fields.now series.now) output.old out.old result output.new out.new }
{
    if out.len() == 0 {
        return TOO_SHORT;
    }
    match writer::write_call(kind, pad_fields(fields), series, output) {
        Ok(length) => {
            out[0] = length as u64;
            0
        }
        Err(unwritten) => u64::from(unwritten.cause),
    }
}
