// The lines that the program prints, each put behind what is filled of a buffer.
ghost use Rattle.std.specs.Prelude.{◌+◌, ◌≤◌, length};
ghost use Rattle.quantity.specs.Word.{signed};
ghost use Rattle.text.specs.Puts.{Puts};
ghost use Rattle.text.specs.Line.{answer_line, refusal_line, group_line, total_line, selection_line};

use crate::Text;
use quantity::WattHours;

impl Text<'_> {
    pub fn answer_line(&mut self, number: u64, answer: u64)
        requires { self.old.filled + 42 ≤ length self.old.buffer.now }
        ensures { Puts 42 (answer_line number answer) self.old self.new }
    {
        self.put_number(number);
        self.put_field(answer);
        self.put_byte(b'\n');
    }

    pub fn refusal_line(&mut self, number: u64, offset: u64)
        requires { self.old.filled + 44 ≤ length self.old.buffer.now }
        ensures { Puts 44 (refusal_line number offset) self.old self.new }
    {
        self.put_byte(b'F');
        self.put_field(number);
        self.put_field(offset);
        self.put_byte(b'\n');
    }

    pub fn group_line(&mut self, run: u64, quarter: u64, group: u64, figure: WattHours)
        requires { self.old.filled + 87 ≤ length self.old.buffer.now }
        ensures { Puts 87 (group_line run quarter group (signed figure.0)) self.old self.new }
    {
        self.put_byte(b'G');
        self.put_field(run);
        self.put_field(quarter);
        self.put_field(group);
        self.put_figure(figure);
        self.put_byte(b'\n');
    }

    pub fn total_line(&mut self, run: u64, quarter: u64, sum: WattHours)
        requires { self.old.filled + 66 ≤ length self.old.buffer.now }
        ensures { Puts 66 (total_line run quarter (signed sum.0)) self.old self.new }
    {
        self.put_byte(b'T');
        self.put_field(run);
        self.put_field(quarter);
        self.put_figure(sum);
        self.put_byte(b'\n');
    }

    pub fn selection_line(&mut self, run: u64, point: u64, version: u64, status: u64)
        requires { self.old.filled + 86 ≤ length self.old.buffer.now }
        ensures { Puts 86 (selection_line run point version status) self.old self.new }
    {
        self.put_byte(b'S');
        self.put_field(run);
        self.put_field(point);
        self.put_field(version);
        self.put_field(status);
        self.put_byte(b'\n');
    }
}
