// The writer: one call to the start of a lent output. The size is known before the first byte is written.
#![tactic(auto)]

pub mod fields;

ghost use Rattle.std.specs.Prelude.{ℕ, ◌≡◌, true, map, ◌+◌, ◌<◌, ◌≤◌, ◌^◌, length, take};
ghost use Rattle.quantity.specs.Limits.{most_quarters};
ghost use Rattle.quantity.specs.Lists.{all};
ghost use Rattle.quantity.specs.Word.{signed};
ghost use Rattle.message.specs.Number.{fits_number, encode, encode_all};
ghost use Rattle.message.specs.Energy.{sent};
ghost use Rattle.message.specs.Call.{most_fields, is_kind, numbers_of, print, small, tail_small, tail_of};
ghost use Rattle.writer.specs.Writer.{energies_for, handed, sized, not_written, written_in, put_in, output_after};

use message::call::MOST_FIELDS;
use message::number::SEVEN_BITS;
use message::{FileCause, FileRefusal, call, energy};
use quantity::{WattHours, limits};

// The first number that a file cannot carry.
const LIMIT: u64 = 0x8000_0000_0000_0000;

// A word that is lent, as a number of the file.
trait Word {
    ghost sent_for: { ℕ → ℕ };

    fn number_of(word: u64) -> u64
        ensures { result ≡ sent_for word };
}

// A field is sent as it is.
struct Field;

impl Word for Field {
    ghost sent_for = { λ n. n };

    fn number_of(word: u64) -> u64 {
        word
    }
}

// An energy of a series.
struct Energy;

impl Word for Energy {
    ghost sent_for = { λ w. sent (signed w) };

    fn number_of(word: u64) -> u64 {
        energy::sent_of(WattHours(word))
    }
}

// How many bytes a number takes: one for each seven bits. One byte is told by itself, since most numbers of a call have no more.
fn number_size(n: u64) -> usize
    requires { n < 2 ^ 63 }
    ensures { result ≡ length (encode n) }
{
    if n < SEVEN_BITS {
        return 1;
    }
    n.checked_ilog2().unwrap_or(0) as usize / 7 + 1
}

// A number's bytes from an index on; the index behind them.
fn put_number(output: &mut [u8], at: usize, n: u64) -> usize
    requires { (n < 2 ^ 63) × (at + length (encode n) ≤ length output.old) }
    ensures { (result ≡ at + length (encode n)) × (output.new ≡ put_in output.old at (encode n)) }
{
    let mut left = n;
    let mut j = at;
    while left >= SEVEN_BITS {
        output[j] = (SEVEN_BITS + left % SEVEN_BITS) as u8;
        left /= SEVEN_BITS;
        j += 1;
    }
    output[j] = left as u8;
    j + 1
}

// How many bytes words take.
fn words_size<W: Word>(words: &[u64]) -> Result<usize, FileCause>
    requires { length words.now ≤ most_quarters }
    ensures { result ≡ sized (all fits_number (map W.sent_for words.now)) (map W.sent_for words.now) }
{
    let mut size = 0;
    for word in words {
        let number = W::number_of(*word);
        if number >= LIMIT {
            return Err(FileCause::TooLarge);
        }
        size += number_size(number);
    }
    Ok(size)
}

// How many bytes follow the fields of a kind.
fn size_tail(kind: u64, series: &[u64]) -> Result<usize, FileCause>
    ensures { result ≡ sized (tail_small (energies_for kind series.now)) (tail_of kind (energies_for kind series.now)) }
{
    if kind != call::SUBMISSION {
        return Ok(0);
    }
    let n = series.len() as u64;
    if limits::QUARTERS < n {
        return Err(FileCause::TooLarge);
    }
    let size = words_size::<Energy>(series)?;
    Ok(number_size(n) + size)
}

// How many bytes the call takes.
fn size_call(kind: u64, fields: &[u64], series: &[u64]) -> Result<usize, FileCause>
    requires { (is_kind kind ≡ true) × (length fields.now ≡ most_fields) }
    ensures { result ≡ sized (small (handed kind fields.now series.now)) (numbers_of (handed kind fields.now series.now)) }
{
    let head = words_size::<Field>(&fields[..call::fields_of(kind)])?;
    let tail = size_tail(kind, series)?;
    Ok(number_size(kind) + head + tail)
}

// The bytes of words from an index on; the index behind them.
fn put_words<W: Word>(words: &[u64], output: &mut [u8], at: usize) -> usize
    requires { (all fits_number (map W.sent_for words.now) ≡ true) × (at + length (encode_all (map W.sent_for words.now)) ≤ length output.old) }
    ensures { (result ≡ at + length (encode_all (map W.sent_for words.now))) × (output.new ≡ put_in output.old at (encode_all (map W.sent_for words.now))) }
{
    let mut next = at;
    for word in words {
        next = put_number(output, next, W::number_of(*word));
    }
    next
}

// What follows the fields of a kind, from an index on; the index behind it.
fn put_tail(kind: u64, series: &[u64], output: &mut [u8], at: usize) -> usize
    requires { (tail_small (energies_for kind series.now) ≡ true) × (at + length (encode_all (tail_of kind (energies_for kind series.now))) ≤ length output.old) }
    ensures { (result ≡ at + length (encode_all (tail_of kind (energies_for kind series.now)))) × (output.new ≡ put_in output.old at (encode_all (tail_of kind (energies_for kind series.now)))) }
{
    if kind != call::SUBMISSION {
        return at;
    }
    let from = put_number(output, at, series.len() as u64);
    put_words::<Energy>(series, output, from)
}

// The call from the output's start on; its length.
fn put_call(kind: u64, fields: &[u64], series: &[u64], output: &mut [u8]) -> usize
    requires { (is_kind kind ≡ true) × (length fields.now ≡ most_fields) × (small (handed kind fields.now series.now) ≡ true) × (length (print (handed kind fields.now series.now)) ≤ length output.old) }
    ensures { (result ≡ length (print (handed kind fields.now series.now))) × (output.new ≡ put_in output.old 0 (print (handed kind fields.now series.now))) }
{
    let head = put_number(output, 0, kind);
    let tail = put_words::<Field>(&fields[..call::fields_of(kind)], output, head);
    put_tail(kind, series, output, tail)
}

fn refused(cause: FileCause) -> FileRefusal
    ensures { Err result ≡ not_written cause }
{
    FileRefusal { cause, offset: 0 }
}

// The call's bytes to the output's start: their count, or why nothing is written, with the offset 0.
pub fn write_call(
    kind: u64,
    fields: [u64; MOST_FIELDS],
    series: &[u64],
    output: &mut [u8],
) -> Result<usize, FileRefusal>
    ensures { (result ≡ written_in (length output.old) (handed kind fields series.now)) × (output.new ≡ output_after result (handed kind fields series.now) output.old) }
{
    if !call::kind_ok(kind) {
        return Err(refused(FileCause::BadKind));
    }
    let size = size_call(kind, &fields, series).map_err(refused)?;
    if output.len() < size {
        return Err(refused(FileCause::NoRoom));
    }
    Ok(put_call(kind, &fields, series, output))
}
