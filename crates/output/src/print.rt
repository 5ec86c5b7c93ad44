// The parts of the output, each put behind what is filled of a buffer.
ghost use Rattle.std.specs.Prelude.{ℕ, ◌+◌, ◌*◌, ◌≤◌, length, take};
ghost use Rattle.quantity.specs.Limits.{groups, runs};
ghost use Rattle.quantity.specs.Word.{signed};
ghost use Rattle.text.specs.Puts.{Puts};
ghost use Rattle.text.specs.Text.{each_to};
ghost use Rattle.output.specs.Figures.{IsPlace, read_of};
ghost use Rattle.output.specs.Fill.{most_calls, answer_room, line_room, group_room, quarter_room, figures_room, end_room};
ghost use Rattle.output.specs.Parts.{Short, ended_text};
ghost use Rattle.output.specs.Output.{answers_text, group_text, quarter_text, month_text};

use crate::figures::{GROUPS, Month, SummedMonth};
use crate::selections::put_selections;
use quantity::WattHours;
use quantity::limits::VERSIONS;
use replay::Ending;
use state::VersionRecord;
use text::Text;

// The number of each call, from 1, and its answer.
pub fn put_answers(text: &mut Text, answers: &[u64])
    requires { (length answers.now ≤ most_calls) × Short answers.now (length answers.now) × (text.old.filled + answer_room * length answers.now + line_room ≤ length text.old.buffer.now) }
    ensures { Puts (answer_room * length answers.now) (answers_text answers.now) text.old text.new }
{
    for (i, answer) in answers.iter().enumerate() {
        text.answer_line(i as u64 + 1, *answer);
    }
}

// A group's figure, where it is not 0.
fn put_group(text: &mut Text, run: usize, quarter: usize, group: usize, f: WattHours)
    requires { text.old.filled + group_room ≤ length text.old.buffer.now }
    ensures { Puts group_room (group_text run quarter group (signed f.0)) text.old text.new }
{
    if f.0 != 0 {
        text.group_line(run as u64, quarter as u64, group as u64, f);
    }
}

// The groups of a run and quarter hour, rising.
fn put_groups(text: &mut Text, month: &Month, run: usize, quarter: usize)
    requires { IsPlace month.now.quarters run quarter × (text.old.filled + group_room * groups ≤ length text.old.buffer.now) }
    ensures { Puts (group_room * groups) (each_to groups (λ (g : ℕ). group_text run quarter g (read_of month.now.book.now month.now.quarters run quarter g))) text.old text.new }
{
    for group in 1..=GROUPS {
        let f = month.figure(run, group, quarter);
        put_group(text, run, quarter, group, f);
    }
}

// A quarter hour of a run: its groups, then their sum.
fn put_quarter(text: &mut Text, month: &SummedMonth, run: usize, quarter: usize)
    requires { IsPlace month.now.month.quarters run quarter × (text.old.filled + quarter_room ≤ length text.old.buffer.now) }
    ensures { Puts quarter_room (quarter_text run quarter (read_of month.now.month.book.now month.now.month.quarters run quarter)) text.old text.new }
{
    put_groups(text, &month.month, run, quarter);
    let sum = month.month.total(run, quarter);
    text.total_line(run as u64, quarter as u64, sum);
}

// The quarter hours of a run, one after the other.
fn put_run(text: &mut Text, month: &SummedMonth, run: usize)
    requires { ((1 ≤ run) × (run ≤ runs)) × (text.old.filled + quarter_room * month.now.month.quarters ≤ length text.old.buffer.now) }
    ensures { Puts (quarter_room * month.now.month.quarters) (each_to month.now.month.quarters (λ (q : ℕ). quarter_text run q (read_of month.now.month.book.now month.now.month.quarters run q))) text.old text.new }
{
    for quarter in 1..=month.month.quarters {
        put_quarter(text, month, run, quarter);
    }
}

// The figures of both runs.
fn put_month(text: &mut Text, month: &SummedMonth)
    requires { text.old.filled + figures_room ≤ length text.old.buffer.now }
    ensures { Puts figures_room (month_text month.now.month.quarters (read_of month.now.month.book.now month.now.month.quarters)) text.old text.new }
{
    put_run(text, month, 1);
    put_run(text, month, 2);
}

// What stands behind the answers: the file's refusal, or the figures and the selections.
pub fn put_ending(
    text: &mut Text,
    ending: Ending,
    month: &SummedMonth,
    versions: [VersionRecord; VERSIONS as usize],
    count: u64,
)
    requires { text.old.filled + end_room ≤ length text.old.buffer.now }
    ensures { Puts end_room (ended_text ending month.now.month.quarters (read_of month.now.month.book.now month.now.month.quarters) (take count versions)) text.old text.new }
{
    match ending {
        Ending::End => {
            put_month(text, month);
            put_selections(text, versions, count);
        }
        Ending::Refused { cause, offset } => text.refusal_line(u64::from(cause), offset as u64),
        Ending::Full => {}
    }
}
