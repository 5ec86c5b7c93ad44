// The walks over a version table of numbers.
ghost use Rattle.walks.specs.Walk.{Driven};

use walks::{OUT, TABLE, put_walks_of};

// The table has four numbers for each of 512 records: version, point, row, status. A table of another length, or an output too short, changes nothing.
#[unsafe(no_mangle)]
pub extern "C" fn drive_walk(
    table: &[u64],
    count: u64,
    rows: u64,
    point: u64,
    version: u64,
    out: &mut [u64],
)
    ensures { Driven table.now count rows point version out.old out.new }
{
    if table.len() == TABLE && OUT <= out.len() {
        put_walks_of(table, count, rows, point, version, out);
    }
}
