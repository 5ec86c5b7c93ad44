// The numbers of the table of causes.
ghost use Rattle.std.specs.Prelude.{◌≡◌};
ghost use Rattle.message.specs.Cause.{cause_number};

use crate::FileCause;

// The file ends inside a call.
pub const CUT: u64 = 31;

// A number not shortest, or its ninth byte with the top bit set.
pub const NOT_SHORTEST: u64 = 32;

// A kind that is not 1 to 8.
pub const BAD_KIND: u64 = 33;

// A count, a field or an energy too large.
pub const TOO_LARGE: u64 = 34;

// A series buffer or an output too short.
pub const NO_ROOM: u64 = 35;

impl From<FileCause> for u64 {
    ghost from_gives = { λ cause number. number ≡ cause_number cause };

    fn from(cause: FileCause) -> u64 {
        match cause {
            FileCause::Cut => CUT,
            FileCause::NotShortest => NOT_SHORTEST,
            FileCause::BadKind => BAD_KIND,
            FileCause::TooLarge => TOO_LARGE,
            FileCause::NoRoom => NO_ROOM,
        }
    }
}
