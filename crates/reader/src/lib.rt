// The reader: one call from a start in a lent file, with a lent series buffer.
#![tactic(auto)]

ghost use Rattle.std.specs.Prelude.{◌≡◌, ◌≤◌, length, drop};
ghost use Rattle.message.specs.Number.{numbers_in};
ghost use Rattle.message.specs.Call.{most_fields, tail_in, kind_in};
ghost use Rattle.message.specs.Named.{call_of, groups_of};
ghost use Rattle.message.specs.Offset.{number_of};
ghost use Rattle.message.specs.Series.{list_of, filled};
ghost use Rattle.reader.specs.Reader.{fields_read, read_as, call_read, read_at, energies_of, series_after};

use message::call::MOST_FIELDS;
use message::{DeskCall, FileCause, FileRefusal, NumberRead, call, number, series};
use quantity::limits::DELTAS;

// Fields that were read, with 0 behind them, and the offset behind those read.
#[derive(Clone, Copy)]
pub struct FieldsRead {
    pub fields: [u64; MOST_FIELDS],
    pub next: usize,
}

// A call, the numbers behind its first four (an opening's delta groups), how many energies of it stand in the series buffer, and the offset behind it.
#[derive(Clone, Copy)]
pub struct CallRead {
    pub call: DeskCall,
    pub groups: [u64; DELTAS as usize],
    pub count: usize,
    pub next: usize,
}

// The fields of a call, n of them.
fn read_fields(file: &[u8], at: usize, n: usize) -> Result<FieldsRead, FileCause>
    requires { (at ≤ length file.now) × (n ≤ most_fields) }
    ensures { result ≡ fields_read (length file.now) (numbers_in n (drop at file.now)) }
{
    let mut fields = [0u64; MOST_FIELDS];
    let mut next = at;
    for i in 0..n {
        let read = number::read_number(file, next)?;
        fields[i] = read.value;
        next = read.next;
    }
    Ok(FieldsRead { fields, next })
}

// What follows the fields of a kind: how many energies, and the offset behind them. Only a submission has any.
fn read_tail(file: &[u8], at: usize, kind: u64, series: &mut [u64]) -> Result<NumberRead, FileCause>
    requires { at ≤ length file.now }
    ensures { (result ≡ number_of length (length file.now) (tail_in (length series.old) kind (drop at file.now)))
        × (series.new ≡ filled (list_of (tail_in (length series.old) kind (drop at file.now))) series.old) }
{
    if kind != call::SUBMISSION {
        return Ok(NumberRead { value: 0, next: at });
    }
    series::read_series(file, at, series)
}

// The call whose fields and energies were read.
fn read_as(
    kind: u64,
    fields: [u64; MOST_FIELDS],
    count: usize,
    next: usize,
) -> Result<CallRead, FileCause>
    ensures { result ≡ read_as (call_of kind fields) (groups_of fields) count next }
{
    let call = call::call_of(kind, fields).ok_or(FileCause::BadKind)?;
    Ok(CallRead {
        call,
        groups: call::groups_of(fields),
        count,
        next,
    })
}

// The call whose kind was read and whose fields begin at `from`.
fn read_kind(file: &[u8], kind: u64, from: usize, series: &mut [u64]) -> Result<CallRead, FileCause>
    requires { from ≤ length file.now }
    ensures { (result ≡ call_read (length file.now) (kind_in (length series.old) kind (drop from file.now)))
        × (series.new ≡ filled (energies_of (kind_in (length series.old) kind (drop from file.now))) series.old) }
{
    if !call::kind_ok(kind) {
        return Err(FileCause::BadKind);
    }
    let read = read_fields(file, from, call::fields_of(kind))?;
    let tail = read_tail(file, read.next, kind, series)?;
    read_as(kind, read.fields, tail.value as usize, tail.next)
}

// The call at an offset, none at the file's end. An accepted submission's energies go to the first places of the buffer.
pub fn read_call(
    file: &[u8],
    at: usize,
    series: &mut [u64],
) -> Result<Option<CallRead>, FileRefusal>
    ensures { (result ≡ read_at file.now at (length series.old)) × (series.new ≡ series_after file.now at series.old) }
{
    if at == file.len() {
        return Ok(None);
    }
    let refused = |cause| FileRefusal { cause, offset: at };
    let kind = number::read_number(file, at).map_err(refused)?;
    let read = read_kind(file, kind.value, kind.next, series).map_err(refused)?;
    Ok(Some(read))
}
