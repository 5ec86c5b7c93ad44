// A submission's count and energies, read into a lent series buffer.
ghost use Rattle.std.specs.Prelude.{◌≡◌, true, map, ◌≤◌, length, drop};
ghost use Rattle.message.specs.Read.{accepted};
ghost use Rattle.message.specs.Number.{numbers_in};
ghost use Rattle.message.specs.Energy.{received};
ghost use Rattle.message.specs.Call.{series_in};
ghost use Rattle.message.specs.Offset.{number_of};
ghost use Rattle.message.specs.Series.{list_of, filled};

use crate::{FileCause, NumberRead, call, energy, number, pass};

// The energies of n numbers that are known to be there, into the first places of the buffer.
fn fill_series(file: &[u8], at: usize, n: usize, series: &mut [u64])
    requires { (at ≤ length file.now) × (n ≤ length series.old) × (accepted (numbers_in n (drop at file.now)) ≡ true) }
    ensures { series.new ≡ filled (map received (list_of (numbers_in n (drop at file.now)))) series.old }
{
    let mut j = at;
    for i in 0..n {
        let known = number::known_number(file, j);
        let energy = energy::received_of(known.value);
        series[i] = energy.0;
        j = known.next;
    }
}

// A submission's count and energies: all are checked before the first is stored, and then decoded once.
pub fn read_series(file: &[u8], at: usize, series: &mut [u64]) -> Result<NumberRead, FileCause>
    ensures { (result ≡ number_of length (length file.now) (series_in (length series.old) (drop at file.now)))
        × (series.new ≡ filled (list_of (series_in (length series.old) (drop at file.now))) series.old) }
{
    let count = call::read_count(file, at, series.len())?;
    let n = count.value as usize;
    let end = pass::pass_numbers(file, count.next, n)?;
    fill_series(file, count.next, n, series);
    Ok(NumberRead {
        value: count.value,
        next: end,
    })
}
