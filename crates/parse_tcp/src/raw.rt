// The 24 bytes of a record.
ghost use Rattle.std.specs.Prelude.{◌≡◌};
ghost use Rattle.parse_tcp.specs.LineParts.{record_bytes};

use crate::LineFields;

// Numbers of two and four bytes have their high byte first; first entry, byte 21 and label are 0. Each is cut to its byte by `% 256`, as
// the definition has it: a conversion that could fail would be no plainer.
#[tactic(auto, unfolding(crate::specs::LineParts::record_bytes))]
pub(crate) fn record_of(fields: LineFields) -> [u8; 24]
    ensures { result ≡ record_bytes fields }
{
    [
        (fields.version % 256) as u8,
        (fields.ttl_form % 256) as u8,
        (fields.ttl % 256) as u8,
        (fields.distance % 256) as u8,
        (fields.olen % 256) as u8,
        (fields.mss_form % 256) as u8,
        (fields.mss / 256 % 256) as u8,
        (fields.mss % 256) as u8,
        (fields.wsize_form % 256) as u8,
        (fields.wsize / 256 % 256) as u8,
        (fields.wsize % 256) as u8,
        (fields.wscale_form % 256) as u8,
        (fields.wscale % 256) as u8,
        (fields.pclass % 256) as u8,
        (fields.quirks / 16777216 % 256) as u8,
        (fields.quirks / 65536 % 256) as u8,
        (fields.quirks / 256 % 256) as u8,
        (fields.quirks % 256) as u8,
        0,
        0,
        (fields.layout.count % 256) as u8,
        0,
        0,
        0,
    ]
}
