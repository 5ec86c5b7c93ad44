// Statuses of versions.
ghost use Rattle.std.specs.Prelude.{◌≡◌};
ghost use Rattle.state.specs.Status.{status_number, counts, is_check, submitted_status, confirmed_status, settled_status};

use crate::Status;
use quantity::Day;

impl From<Status> for u64 {
    ghost from_gives = { λ s n. n ≡ status_number s };

    fn from(s: Status) -> u64 {
        match s {
            Status::Check => 1,
            Status::Settlement => 2,
            Status::Settled => 3,
            Status::Correction => 4,
            Status::CorrectionSettled => 5,
        }
    }
}

pub fn counts_in(run: u64, s: Status) -> bool
    ensures { result ≡ counts run s }
{
    match s {
        Status::Check => false,
        Status::Settlement | Status::Settled => run == 1,
        Status::Correction | Status::CorrectionSettled => run == 2,
    }
}

pub fn is_check(s: Status) -> bool
    ensures { result ≡ is_check s }
{
    matches!(s, Status::Check)
}

pub fn submitted_status(first: Day, day: Day) -> Status
    ensures { result ≡ submitted_status first.0 day.0 }
{
    if day <= first {
        Status::Settlement
    } else {
        Status::Check
    }
}

pub fn confirmed_status(clearing: Day, day: Day) -> Status
    ensures { result ≡ confirmed_status clearing.0 day.0 }
{
    if day <= clearing {
        Status::Settlement
    } else {
        Status::Correction
    }
}

pub fn settled_status(run: u64) -> Status
    ensures { result ≡ settled_status run }
{
    if run == 1 {
        return Status::Settled;
    }
    Status::CorrectionSettled
}
