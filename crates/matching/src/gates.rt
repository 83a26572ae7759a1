// Two gates where they lie in a list: the layout of an observation against a signature's entries, and its window against a record's.
ghost use Rattle.std.specs.Prelude.{◌≡◌, ◌*◌, ◌≤◌, length};
ghost use Rattle.sigrecord.specs.Record.{signature_of};
ghost use Rattle.distances.specs.DistanceGates.{window_matches};
ghost use Rattle.matching.specs.Gates.{good_entries_match};

use distances::window_size_matches;
use numbers::byte_at;
use sigrecord::{WINDOW_FORM, WINDOW_LOW, WindowSize, entry_good, window_of};
use window_size::WindowMultiplier;

// Each kind and byte of an observation's layout against the entries of a signature, which lie kind before byte, in one walk with
// whether the entries are good.
pub(crate) fn entries_match(kinds: &[u8], bytes: &[u8], entries: &[u8], count: usize) -> bool
    requires { (count ≤ length kinds.now) × (count ≤ length bytes.now) × (2 * count ≤ length entries.now) }
    ensures { result ≡ good_entries_match kinds.now bytes.now entries.now count }
{
    for i in 0..count {
        let byte = entries[2 * i + 1];
        if bytes[i] != byte {
            return false;
        }
        let kind = entries[2 * i];
        if !entry_good(kind, byte) {
            return false;
        }
        if kinds[i] != kind {
            return false;
        }
    }
    true
}

// Most windows are declared as multiples of the MSS, so that form is tested first, and its number is one byte.
pub(crate) fn window_gate(observed: u16, multiplier: Option<WindowMultiplier>, raw: &[u8]) -> bool
    ensures { result ≡ window_matches observed (signature_of raw.now).wsize multiplier }
{
    if byte_at(raw, WINDOW_FORM) == 3 {
        return window_size_matches(
            observed,
            WindowSize::Mss(byte_at(raw, WINDOW_LOW)),
            multiplier,
        );
    }
    window_size_matches(observed, window_of(raw), multiplier)
}
