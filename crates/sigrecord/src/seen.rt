// An observation's version and payload as a signature declares them.
ghost use Rattle.std.specs.Prelude.{◌≡◌};
ghost use Rattle.sigrecord.specs.Seen.{version_seen, payload_seen};

use crate::{SigPayload, SigVersion};
use tcp::{IpVersion, PayloadSize};

impl From<IpVersion> for SigVersion {
    ghost from_gives = { λ seen declared. declared ≡ version_seen seen };

    fn from(seen: IpVersion) -> SigVersion {
        match seen {
            IpVersion::V4 => SigVersion::V4,
            IpVersion::V6 => SigVersion::V6,
        }
    }
}

impl From<PayloadSize> for SigPayload {
    ghost from_gives = { λ seen declared. declared ≡ payload_seen seen };

    fn from(seen: PayloadSize) -> SigPayload {
        match seen {
            PayloadSize::Zero => SigPayload::Zero,
            PayloadSize::NonZero => SigPayload::NonZero,
        }
    }
}
