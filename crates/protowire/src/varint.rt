ghost use Rattle.std.specs.Prelude.{◌≡◌};
ghost use Rattle.codec.specs.Steps.{result_map};
ghost use Rattle.protowire.specs.Reading.{varint_at};

use super::refusal::WireRefusal;

/// The number at the front, and what follows it.
#[tactic(auto, unfolding(crate::specs::Reading::varint_at))]
#[inline(always)]
pub(crate) fn varint(bytes: &[u8]) -> Result<(u64, &[u8]), WireRefusal>
    ensures { result_map (λ x. (x.0, x.1.now)) result ≡ varint_at bytes.now }
{
    let mut number = 0;
    let mut weight = 1;
    for (place, byte) in bytes.iter().enumerate() {
        let byte = u64::from(*byte);
        if place == 9 {
            return if byte < 2 {
                Ok((number + byte * weight, &bytes[place + 1..]))
            } else {
                Err(WireRefusal::VarintTooLong)
            };
        }
        number += byte % 128 * weight;
        if byte < 128 {
            return Ok((number, &bytes[place + 1..]));
        }
        weight *= 128;
    }
    Err(WireRefusal::Truncated)
}
