// The conditions of a well-formed record, one by one, its quirks and its layout apart.
ghost use Rattle.std.specs.Prelude.{◌≡◌};
ghost use Rattle.basis.specs.Bytes.{byte_at, be16};
ghost use Rattle.sigrecord.specs.WellFormed.{version_good, ttl_good, presence_good, window_good, forms_good};

use crate::{
    DISTANCE, GENERIC, MSS, MSS_PRESENT, PAYLOAD, SCALE, SCALE_PRESENT, TTL_FORM, VERSION, WINDOW,
    WINDOW_FORM,
};
use numbers::{be16_at, byte_at, wide};

#[tactic(auto, unfolding(crate::specs::WellFormed::version_good))]
pub(crate) fn version_good(raw: &[u8]) -> bool
    ensures { result ≡ version_good (byte_at raw.now 0) }
{
    matches!(byte_at(raw, VERSION), 0 | 4 | 6)
}

#[tactic(auto, unfolding(crate::specs::WellFormed::ttl_good))]
pub(crate) fn ttl_good(raw: &[u8]) -> bool
    ensures { result ≡ ttl_good (byte_at raw.now 1) (byte_at raw.now 3) }
{
    let form = byte_at(raw, TTL_FORM);
    form <= 3 && (form == 1 || byte_at(raw, DISTANCE) == 0)
}

#[tactic(auto, unfolding(crate::specs::WellFormed::presence_good))]
pub(crate) fn presence_good(present: u8, number: u16) -> bool
    ensures { result ≡ presence_good present number }
{
    match present {
        0 => number == 0,
        1 => true,
        _ => false,
    }
}

#[tactic(auto, unfolding(crate::specs::WellFormed::window_good))]
pub(crate) fn window_good(raw: &[u8]) -> bool
    ensures { result ≡ window_good (byte_at raw.now 8) (be16 raw.now 9) }
{
    let number = be16_at(raw, WINDOW);
    match byte_at(raw, WINDOW_FORM) {
        0 => number == 0,
        1 | 2 => true,
        3 | 4 => number <= 255,
        _ => false,
    }
}

// All of them but that of the quirks.
#[tactic(auto, unfolding(crate::specs::WellFormed::forms_good, crate::specs::WellFormed::payload_good))]
pub(crate) fn forms_good(raw: &[u8]) -> bool
    ensures { result ≡ forms_good raw.now }
{
    version_good(raw)
        && ttl_good(raw)
        && presence_good(byte_at(raw, MSS_PRESENT), be16_at(raw, MSS))
        && window_good(raw)
        && presence_good(byte_at(raw, SCALE_PRESENT), wide(byte_at(raw, SCALE)))
        && byte_at(raw, PAYLOAD) <= 2
        && byte_at(raw, GENERIC) <= 1
}
