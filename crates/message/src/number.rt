// A number of the file.
ghost use Rattle.std.specs.Prelude.{◌≡◌, true, false, ◌<◌, length, drop, Ok};
ghost use Rattle.message.specs.Read.{accepted};
ghost use Rattle.message.specs.Number.{above, decode_in, decode};
ghost use Rattle.message.specs.Offset.{itself, number_at, number_of};

use crate::{FileCause, NumberRead};

// How many values a group of seven bits has; a byte from here on has its top bit set.
pub const SEVEN_BITS: u64 = 128;

// What the bits of a third and of a fourth byte count.
const THIRD: u64 = SEVEN_BITS * SEVEN_BITS;

const FOURTH: u64 = SEVEN_BITS * THIRD;

// The most bytes that a number has.
pub const MOST_BYTES: usize = 9;

// A number whose first byte, with its top bit set, gave `low`: the bytes that follow, eight at most.
fn read_more(file: &[u8], at: usize, low: u64) -> Result<NumberRead, FileCause>
    requires { low < 128 }
    ensures { result ≡ number_of itself (length file.now) (above low 128 (decode_in 8 false (drop at file.now))) }
{
    let mut value = low;
    let mut place = SEVEN_BITS;
    for i in 0..MOST_BYTES - 1 {
        let j = at + i;
        if file.len() <= j {
            return Err(FileCause::Cut);
        }
        let b = u64::from(file[j]);
        if b < SEVEN_BITS {
            if b == 0 {
                return Err(FileCause::NotShortest);
            }
            return Ok(NumberRead {
                value: value + place * b,
                next: j + 1,
            });
        }
        value += place * (b % SEVEN_BITS);
        place *= SEVEN_BITS;
    }
    Err(FileCause::NotShortest)
}

// A number of one to three bytes is taken as it stands, a longer one by `read_more`.
pub fn read_number(file: &[u8], at: usize) -> Result<NumberRead, FileCause>
    ensures { result ≡ number_at file.now at }
{
    if file.len() <= at {
        return Err(FileCause::Cut);
    }
    let a = u64::from(file[at]);
    if a < SEVEN_BITS {
        return Ok(NumberRead {
            value: a,
            next: at + 1,
        });
    }
    let low = a % SEVEN_BITS;
    if file.len() - at < 3 {
        return read_more(file, at + 1, low);
    }
    let b = u64::from(file[at + 1]);
    if b < SEVEN_BITS {
        if b == 0 {
            return Err(FileCause::NotShortest);
        }
        return Ok(NumberRead {
            value: low + SEVEN_BITS * b,
            next: at + 2,
        });
    }
    let c = u64::from(file[at + 2]);
    if c < SEVEN_BITS {
        if c == 0 {
            return Err(FileCause::NotShortest);
        }
        return Ok(NumberRead {
            value: low + SEVEN_BITS * (b % SEVEN_BITS) + THIRD * c,
            next: at + 3,
        });
    }
    read_more(file, at + 1, low)
}

// A number that is known to stand there and is longer than four bytes.
fn known_long(file: &[u8], at: usize) -> NumberRead
    requires { accepted (decode (drop at file.now)) ≡ true }
    ensures { Ok result ≡ number_at file.now at }
{
    read_number(file, at).unwrap()
}

// A number that is known to stand at an offset: nothing is tested of it but where it ends.
pub fn known_number(file: &[u8], at: usize) -> NumberRead
    requires { accepted (decode (drop at file.now)) ≡ true }
    ensures { Ok result ≡ number_at file.now at }
{
    let a = u64::from(file[at]);
    if a < SEVEN_BITS {
        return NumberRead {
            value: a,
            next: at + 1,
        };
    }
    let b = u64::from(file[at + 1]);
    if b < SEVEN_BITS {
        return NumberRead {
            value: a + SEVEN_BITS * b - SEVEN_BITS,
            next: at + 2,
        };
    }
    let c = u64::from(file[at + 2]);
    if c < SEVEN_BITS {
        return NumberRead {
            value: a + SEVEN_BITS * b + THIRD * c - (SEVEN_BITS + THIRD),
            next: at + 3,
        };
    }
    let d = u64::from(file[at + 3]);
    if d < SEVEN_BITS {
        return NumberRead {
            value: a + SEVEN_BITS * b + THIRD * c + FOURTH * d - (SEVEN_BITS + THIRD + FOURTH),
            next: at + 4,
        };
    }
    known_long(file, at)
}
