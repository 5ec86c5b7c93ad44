// Prints the calendar's table, an entry a line, worked out by the rule: what crates/calendar/src/table.rt holds.
#![tactic(auto)]

ghost use Rattle.std.specs.Prelude.{◌+◌, ◌≤◌, length};
ghost use Rattle.text.specs.Puts.{Puts};
ghost use Rattle.text.specs.Text.{Put};
ghost use Rattle.calendar_table.specs.Table.{line_of, table_text};

use text::Text;
use workdays::dates::MONTHS;

const STDOUT: i32 = 1;

const STDERR: i32 = 2;

// An entry has at most 20 digits and a line end.
const MOST: usize = 21 * MONTHS;

fn put_line(text: &mut Text, n: u64)
    requires { text.old.filled + 21 ≤ length text.old.buffer.now }
    ensures { Puts 21 (line_of n) text.old text.new }
{
    text.put_number(n);
    text.put_byte(b'\n');
}

fn put_table(out: &mut [u8]) -> usize
    requires { 10080 ≤ length out.old }
    ensures { Put 10080 0 table_text out.old out.new result }
{
    let entries = workdays::generator::generate();
    let mut text = Text {
        buffer: out,
        filled: 0,
    };
    for entry in entries {
        put_line(&mut text, entry);
    }
    text.filled
}

// Whether the table got out.
fn run(out: &mut [u8]) -> bool
    requires { 10080 ≤ length out.old }
{
    let n = put_table(out);
    io::write_all(STDOUT, &out[..n])
}

fn main() {
    let mut out = [0u8; MOST];
    if !run(&mut out) {
        io::write_all(STDERR, b"calendar_table: the table cannot be written\n");
    }
}
