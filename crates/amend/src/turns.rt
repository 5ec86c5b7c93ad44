// A change of a point's versions: the rows of the book that it touches, and the log row that is due.
ghost use Rattle.amend.specs.Lent.{RoomIn, Changed, Followed};

use crate::log::{put_row, used_after};
use crate::runs::amend;
use model::{LogRow, Turn};
use state::{Frame, PointState};

// By the point's state, and the selections before and after. Gives the log rows in use then.
pub fn follow(
    f: Frame,
    here: PointState,
    t: Turn,
    due: Option<LogRow>,
    values: &[u64],
    book: &mut [u64],
    log: &mut [u64],
) -> u64
    requires changed { Changed f here values.now book.old t }
    requires room_in { RoomIn f.used log.old due }
    ensures { Followed f here t due values.now book.old log.old result book.new log.new }
{
    amend(f.groups, here, t, f.opening.quarters as usize, values, book);
    put_row(log, f.used as usize, due);
    used_after(due, f.used)
}
