// One of the twelve calls on a desk, from its record and with the stores that are lent to it.
use crate::Output;
use crate::record::{
    LODGE, LODGED, REPORT, SHOW, STATUS, SUBMITTED, behind, fields_in, kind_in_file,
};
use crate::via::{via_apply, via_lodge};
use calls::show::{show_number, show_row};
use calls::status::status;
use checks::Outcome;
use message::call::{call_of, groups_of};
use model::Answer;
use quantity::{Day, PointNo, Version};
use schedules::report::report;
use state::Desk;
use writer::fields::field_at;

// What a script adds to an accepted status.
const STATUS_FROM: u64 = 100;

// An answer as a script gives it: 0, a cause's number, or an accepted status with 100 added, which is the number of no cause.
fn number_in(answer: Answer) -> u64 {
    match answer {
        Answer::Accepted => 0,
        Answer::HasStatus(s) => STATUS_FROM + u64::from(s),
        Answer::Refused(cause) => u64::from(cause),
    }
}

// Show: its number, the length of its row, the row.
fn run_show(d: Desk, run: u64, group: u64, book: &[u64], out: &mut Output) {
    let row = show_row(d, run, group, book);
    out.put(number_in(show_number(d, run, group, book)));
    out.put(row.len() as u64);
    out.put_row(row);
}

// Report: its number, its surplus, its shortfall.
fn run_report(d: Desk, run: u64, group: u64, book: &[u64], schedules: &[u64], out: &mut Output) {
    let r = report(d, run, group, book, schedules);
    out.put(number_in(r.answer));
    out.put(r.surplus.0);
    out.put(r.shortfall.0);
}

// The answer goes to the output.
fn answered(o: Outcome, out: &mut Output) -> Desk {
    out.put(number_in(o.answer));
    o.desk
}

// A call that is not in message files, with its stores; what is none of them is not run.
fn run_unfiled(
    d: Desk,
    record: &[u64],
    book: &[u64],
    schedules: &mut [u64],
    out: &mut Output,
) -> Desk {
    let f = fields_in(record);
    match field_at(record, 0) {
        SHOW => {
            run_show(d, f[0], f[1], book, out);
            d
        }
        REPORT => {
            run_report(d, f[0], f[1], book, schedules, out);
            d
        }
        STATUS => answered(status(d, PointNo(f[0]), Version(f[1])), out),
        LODGE => {
            let series = behind(record, LODGED);
            answered(via_lodge(d, f[0], Day(f[1]), series, schedules), out)
        }
        _ => d,
    }
}

// A call with its stores: one that changes the desk goes through an entry over the lent state. What is no call is not run.
pub fn run_call(
    d: Desk,
    record: &[u64],
    values: &mut [u64],
    book: &mut [u64],
    log: &mut [u64],
    schedules: &mut [u64],
    out: &mut Output,
) -> Desk {
    let f = fields_in(record);
    match call_of(kind_in_file(field_at(record, 0)), f) {
        Some(call) => {
            let groups = groups_of(f);
            let series = behind(record, SUBMITTED);
            answered(
                via_apply(d, call, groups, series, values, book, log, schedules),
                out,
            )
        }
        None => run_unfiled(d, record, book, schedules, out),
    }
}
