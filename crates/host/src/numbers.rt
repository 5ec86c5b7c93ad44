// A call as numbers again: its kind, its fields.
ghost use Rattle.std.specs.Prelude.{◌≡◌, ◌++◌};
ghost use Rattle.host.specs.Call.{kind_of, head_of};

use message::DeskCall;
use message::call::{
    ACTIVATION, ASSIGNMENT, BEFORE_GROUPS, CLOSING, DEACTIVATION, ISSUING, MOST_FIELDS, NOTICE,
    OPENING, SUBMISSION,
};
use quantity::limits::DELTAS;

pub fn kind_of(call: DeskCall) -> u64
    ensures { result ≡ kind_of call }
{
    match call {
        DeskCall::Open { .. } => OPENING,
        DeskCall::Activate { .. } => ACTIVATION,
        DeskCall::Deactivate { .. } => DEACTIVATION,
        DeskCall::Submit { .. } => SUBMISSION,
        DeskCall::Notice { .. } => NOTICE,
        DeskCall::Assign { .. } => ASSIGNMENT,
        DeskCall::Close { .. } => CLOSING,
        DeskCall::Issue { .. } => ISSUING,
    }
}

// A call's first four numbers, 0 where it has fewer.
fn head_of(call: DeskCall) -> [u64; BEFORE_GROUPS]
    ensures { result ≡ head_of call }
{
    match call {
        DeskCall::Open {
            quarters,
            first,
            clearing,
            correction,
        } => [quarters, first.0, clearing.0, correction.0],
        DeskCall::Activate {
            point,
            kind,
            area,
            partner,
            ..
        } => [point.0, kind, area, partner],
        DeskCall::Deactivate { point, day } => [point.0, day.0, 0, 0],
        DeskCall::Submit {
            point,
            version,
            day,
        } => [point.0, version.0, day.0, 0],
        DeskCall::Notice {
            point,
            version,
            verdict,
            day,
        } => [point.0, version.0, verdict, day.0],
        DeskCall::Assign { area, group, day } => [area, group, day.0, 0],
        DeskCall::Close { run, day } => [run, day.0, 0, 0],
        DeskCall::Issue { run, day } => [run, day.0, 0, 0],
    }
}

// The 21 numbers of a call: its first four, and those that stand beside it.
pub fn numbers_of(call: DeskCall, groups: [u64; DELTAS as usize]) -> [u64; MOST_FIELDS]
    ensures { result ≡ head_of call ++ groups }
{
    let mut numbers = [0u64; MOST_FIELDS];
    numbers[..BEFORE_GROUPS].copy_from_slice(&head_of(call));
    numbers[BEFORE_GROUPS..].copy_from_slice(&groups);
    numbers
}
