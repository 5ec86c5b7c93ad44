// An energy as a number of the file: "An energy v is sent as 2v if v ≥ 0, else -2v-1."
ghost use Rattle.std.specs.Prelude.{◌≡◌};
ghost use Rattle.quantity.specs.Word.{word, signed};
ghost use Rattle.message.specs.Energy.{sent, received};

use quantity::{WattHours, word};

// The largest word: all bits set, which is -1.
const MINUS_ONE: u64 = 0xffff_ffff_ffff_ffff;

pub fn received_of(n: u64) -> WattHours
    ensures { result.0 ≡ word (received n) }
{
    if n % 2 == 0 {
        WattHours(n / 2)
    } else {
        WattHours(MINUS_ONE - n / 2)
    }
}

pub fn sent_of(energy: WattHours) -> u64
    ensures { result ≡ sent (signed energy.0) }
{
    let w = energy.0;
    if word::is_negative(energy) {
        2 * (MINUS_ONE - w) + 1
    } else {
        2 * w
    }
}
