// Fields as a caller lends them, in the number that the writer takes.
ghost use Rattle.std.specs.Prelude.{◌≡◌, get_or};
ghost use Rattle.writer.specs.Fields.{fields21};

use message::call::MOST_FIELDS;

// A field, or 0 where there is none.
pub fn field_at(fields: &[u64], i: usize) -> u64
    ensures { result ≡ get_or fields.now i 0 }
{
    fields.get(i).copied().unwrap_or(0)
}

// The first 21 fields, with 0 behind them.
pub fn pad_fields(fields: &[u64]) -> [u64; MOST_FIELDS]
    ensures { result ≡ fields21 fields.now }
{
    let mut padded = [0; MOST_FIELDS];
    for i in 0..MOST_FIELDS {
        padded[i] = field_at(fields, i);
    }
    padded
}
