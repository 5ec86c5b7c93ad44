// Numbers passed over: only where they end is found.
ghost use Rattle.std.specs.Prelude.{◌≡◌, ◌<◌, ◌≤◌, ◌+◌, ◌*◌, length, drop, get_or};
ghost use Rattle.message.specs.Number.{decode, numbers_in};
ghost use Rattle.message.specs.Offset.{passed_of};
ghost use Rattle.message.specs.Block.{goes_on, standing, sound_to, more_to, begin_of, Reaches};

use crate::{Block, FileCause, Reached, number};

// A byte from here on has its top bit set.
const TOP: u8 = 128;

// How many bytes are looked at together, and how many before them are looked at too.
const BLOCK: usize = 32;

const BEHIND: usize = 8;

// A number has fewer bytes than this.
pub const ROOMY: usize = 16;

fn top_bit(b: u8) -> u8
    ensures { (result ≡ goes_on b) × (result ≤ 1) }
{
    u8::from(TOP <= b)
}

// A byte behind eight others makes no number that is refused.
fn stands(a: u8, b: u8, c: u8, d: u8, e: u8, f: u8, g: u8, h: u8, i: u8) -> bool
    ensures { result ≡ standing a b c d e f g h i }
{
    let former = (a < TOP) | ((b < TOP) | ((c < TOP) | (d < TOP)));
    let latter = (e < TOP) | ((f < TOP) | ((g < TOP) | ((h < TOP) | (i < TOP))));
    ((i != 0) | (h < TOP)) & (former | latter)
}

// The 32 bytes behind eight others.
fn pass_block(file: &[u8], from: usize) -> Block
    requires { from + 40 ≤ length file.now }
    ensures { (result.sound ≡ sound_to file.now from 32) × (result.more ≡ more_to file.now from 32) × (result.more ≤ 32) }
{
    let mut sound = true;
    let mut more: u8 = 0;
    for t in 0..BLOCK {
        let k = from + t;
        let last = file[k + 8];
        sound = sound
            & stands(
                file[k],
                file[k + 1],
                file[k + 2],
                file[k + 3],
                file[k + 4],
                file[k + 5],
                file[k + 6],
                file[k + 7],
                last,
            );
        more += top_bit(last);
    }
    Block { sound, more }
}

// Where the number begins whose first bytes stand before an offset.
fn begin_of(file: &[u8], at: usize) -> usize
    requires { at ≤ length file.now }
    ensures { result ≡ begin_of file.now at }
{
    let mut j = at;
    while 0 < j {
        if file[j - 1] < TOP {
            return j;
        }
        j -= 1;
    }
    0
}

// As many of n numbers as blocks of bytes hold, none where a block has a number that is refused. Each block is in all numbers: it ends at most 32 of them.
fn pass_blocks(file: &[u8], at: usize, n: usize) -> Reached
    requires { at ≤ length file.now }
    ensures { Reaches file.now at n result.numbers result.at }
{
    if at < BEHIND {
        return Reached { numbers: 0, at };
    }
    if TOP <= file[at - 1] {
        return Reached { numbers: 0, at };
    }
    let mut i = 0;
    let mut j = at;
    while BLOCK <= n - i {
        if file.len() - j < BLOCK {
            return Reached {
                numbers: i,
                at: begin_of(file, j),
            };
        }
        let block = pass_block(file, j - BEHIND);
        if !block.sound {
            return Reached { numbers: 0, at };
        }
        i += BLOCK - usize::from(block.more);
        j += BLOCK;
    }
    Reached {
        numbers: i,
        at: begin_of(file, j),
    }
}

// The offset behind a number, whatever its bytes.
fn pass_any(file: &[u8], at: usize) -> Result<usize, FileCause>
    ensures { result ≡ passed_of (length file.now) (decode (drop at file.now)) }
{
    Ok(number::read_number(file, at)?.next)
}

// The offset behind a number whose first byte has its top bit set: its bytes are not decoded.
fn pass_long(file: &[u8], at: usize) -> Result<usize, FileCause>
    requires { (at < length file.now) × (128 ≤ get_or file.now at 0) }
    ensures { result ≡ passed_of (length file.now) (decode (drop at file.now)) }
{
    for i in 1..number::MOST_BYTES {
        let j = at + i;
        if file.len() <= j {
            return Err(FileCause::Cut);
        }
        let b = file[j];
        if b < TOP {
            if b == 0 {
                return Err(FileCause::NotShortest);
            }
            return Ok(j + 1);
        }
    }
    Err(FileCause::NotShortest)
}

// The offset behind a number, with no call where it has one to three bytes.
fn pass_one(file: &[u8], at: usize) -> Result<usize, FileCause>
    requires { at + 3 ≤ length file.now }
    ensures { result ≡ passed_of (length file.now) (decode (drop at file.now)) }
{
    if file[at] < TOP {
        return Ok(at + 1);
    }
    let b = file[at + 1];
    if b == 0 {
        return pass_long(file, at);
    }
    if b < TOP {
        return Ok(at + 2);
    }
    let c = file[at + 2];
    if c == 0 {
        return pass_long(file, at);
    }
    if c < TOP {
        return Ok(at + 3);
    }
    pass_long(file, at)
}

// The offset behind n numbers that the file has room for, whatever their bytes.
pub fn pass_inside(file: &[u8], at: usize, n: usize) -> Result<usize, FileCause>
    requires { at + 16 * n ≤ length file.now }
    ensures { result ≡ passed_of (length file.now) (numbers_in n (drop at file.now)) }
{
    let mut j = at;
    for _ in 0..n {
        j = pass_one(file, j)?;
    }
    Ok(j)
}

// The offset behind n numbers, by one call a number: for what stands near the file's end.
pub fn pass_near(file: &[u8], at: usize, n: usize) -> Result<usize, FileCause>
    requires { at ≤ length file.now }
    ensures { result ≡ passed_of (length file.now) (numbers_in n (drop at file.now)) }
{
    let mut j = at;
    for _ in 0..n {
        j = pass_any(file, j)?;
    }
    Ok(j)
}

// The offset behind n numbers, from an offset in the file.
fn pass_from(file: &[u8], at: usize, n: usize) -> Result<usize, FileCause>
    requires { at ≤ length file.now }
    ensures { result ≡ passed_of (length file.now) (numbers_in n (drop at file.now)) }
{
    if n <= (file.len() - at) / ROOMY {
        return pass_inside(file, at, n);
    }
    pass_near(file, at, n)
}

// The offset behind n numbers; an offset beyond the file's end counts as the end.
pub fn pass_numbers(file: &[u8], at: usize, n: usize) -> Result<usize, FileCause>
    ensures { result ≡ passed_of (length file.now) (numbers_in n (drop at file.now)) }
{
    if file.len() < at {
        return pass_near(file, file.len(), n);
    }
    let reached = pass_blocks(file, at, n);
    pass_from(file, reached.at, n - reached.numbers)
}
