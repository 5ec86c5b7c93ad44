// A whole file: its first refusal, or none. Nothing is kept of the calls.
ghost use Rattle.std.specs.Prelude.{◌≡◌, ◌≤◌, length, drop};
ghost use Rattle.quantity.specs.Limits.{most_quarters};
ghost use Rattle.message.specs.Call.{tail_in, kind_in, parse};
ghost use Rattle.message.specs.File.{verdict_of};
ghost use Rattle.message.specs.Offset.{passed_of};

use crate::{FileCause, FileRefusal, call, number, pass};
use quantity::limits;

// A kind of one byte and the fields of a call take fewer bytes than this.
const ROOMY: usize = 1 + pass::ROOMY * call::MOST_FIELDS;

// The most energies that a call has.
const ROOM: usize = limits::QUARTERS as usize;

// What follows the fields of a kind, with room for so many energies.
fn pass_tail(file: &[u8], at: usize, kind: u64, room: usize) -> Result<usize, FileCause>
    requires { at ≤ length file.now }
    ensures { result ≡ passed_of (length file.now) (tail_in room kind (drop at file.now)) }
{
    if kind != call::SUBMISSION {
        return Ok(at);
    }
    let count = call::read_count(file, at, room)?;
    pass::pass_numbers(file, count.next, count.value as usize)
}

// A call whose kind was read and whose fields begin at `from`.
fn pass_kind(file: &[u8], kind: u64, from: usize, room: usize) -> Result<usize, FileCause>
    requires { from ≤ length file.now }
    ensures { result ≡ passed_of (length file.now) (kind_in room kind (drop from file.now)) }
{
    if !call::kind_ok(kind) {
        return Err(FileCause::BadKind);
    }
    let after = pass::pass_near(file, from, call::fields_of(kind))?;
    pass_tail(file, after, kind, room)
}

// The offset behind the call at an offset, whatever stands there, with room for so many energies.
pub fn pass_any(file: &[u8], at: usize, room: usize) -> Result<usize, FileCause>
    ensures { result ≡ passed_of (length file.now) (parse room (drop at file.now)) }
{
    let kind = number::read_number(file, at)?;
    pass_kind(file, kind.value, kind.next, room)
}

// The same with room for 2,980, and with no call for the kind and short fields where the file goes on for some bytes.
fn pass_call(file: &[u8], at: usize) -> Result<usize, FileCause>
    requires { at ≤ length file.now }
    ensures { result ≡ passed_of (length file.now) (parse most_quarters (drop at file.now)) }
{
    if file.len() - at < ROOMY {
        return pass_any(file, at, ROOM);
    }
    let kind = u64::from(file[at]);
    if !call::kind_ok(kind) {
        return pass_any(file, at, ROOM);
    }
    let after = pass::pass_inside(file, at + 1, call::fields_of(kind))?;
    pass_tail(file, after, kind, ROOM)
}

// A whole file's length, or its first refusal.
pub fn check_file(file: &[u8]) -> Result<usize, FileRefusal>
    ensures { result ≡ verdict_of file.now }
{
    let mut at = 0;
    while at < file.len() {
        at = pass_call(file, at).map_err(|cause| FileRefusal { cause, offset: at })?;
    }
    Ok(file.len())
}
