// Sums and differences of figures: "sums wrap at 64 bits".
ghost use Rattle.std.specs.Prelude.{◌≡◌, ◌^◌, ◌≤◌, ◌↔◌, IsTrue};
ghost use Rattle.quantity.specs.Word.{plus, minus, signed, negative};

use crate::WattHours;

// The first word that is read as a negative number.
const HALF: u64 = 0x8000_0000_0000_0000;

pub fn sum(a: WattHours, b: WattHours) -> WattHours
    ensures { result.0 ≡ plus a.0 b.0 }
{
    WattHours(a.0.wrapping_add(b.0))
}

pub fn difference(a: WattHours, b: WattHours) -> WattHours
    ensures { result.0 ≡ minus a.0 b.0 }
{
    WattHours(a.0.wrapping_sub(b.0))
}

pub fn is_negative(a: WattHours) -> bool
    ensures read { result ≡ negative (signed a.0) }
    ensures half { IsTrue result ↔ (2 ^ 63 ≤ a.0) }
{
    HALF <= a.0
}
