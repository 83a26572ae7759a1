// The line of a signature written into a lent buffer: an observation as p0f's raw line, a record of a list as its signature line (document
// 02, Wish 7). A line is counted before it is written, so that a buffer that is too short is left as it was.
#![tactic(auto)]

ghost use Rattle.std.specs.Prelude.{◌≡◌, length};
ghost use Rattle.text.specs.Written.{Put, Writes};
ghost use Rattle.written_line.specs.LineText.{signature_text};
ghost use Rattle.written_line.specs.Signature.{signature_seen};
ghost use Rattle.written_line.specs.Writing.{signature_line, observation_line, record_line, listed_line};

use display::lengths::{mss_length, ttl_length, window_length, wscale_length};
use display::{put_mss, put_payload, put_ttl, put_version, put_window, put_wscale};
use observable::TcpObservation;
use refusals::Refusal;
use rows::{Entries, entries_in, put_layout, put_quirks, quirks_length};
use siglist::{check_list, entries_lie, read_header, record_at};
use sigrecord::{
    SigPayload, SigVersion, Signature, WindowSize, entry_count, first_entry, signature_of,
};
use text::{decimal_length, put_byte, put_decimal};

mod rows;

// A line to be written: a signature, and the entries of its layout.
#[derive(Clone, Copy)]
struct Line<'a> {
    signature: Signature,
    entries: Entries<'a>,
}

impl Line<'_> {
    // How long it is: version, payload's class and the bytes between are eight, the rows have the colon before them.
    #[tactic(auto, using(crate::proofs::Bounds::few))]
    fn length(self) -> usize
        ensures { result ≡ length (signature_text self.entry.signature self.entry.entries.bytes.now) }
    {
        let s = self.signature;
        let sizes = mss_length(s.mss) + window_length(s.wsize) + wscale_length(s.wscale);
        let rows = self.entries.row_length() + quirks_length(s.quirks);
        ttl_length(s.ittl) + decimal_length(u16::from(s.olen)) + sizes + rows + 8
    }

    // As much of it as finds room.
    fn put(self, buffer: &mut [u8]) -> usize
        ensures { Put buffer.old 0 (signature_text self.entry.signature self.entry.entries.bytes.now) result buffer.new }
    {
        let s = self.signature;
        let behind_version = put_version(buffer, 0, s.version);
        let at_ttl = put_byte(buffer, behind_version, b':');
        let behind_ttl = put_ttl(buffer, at_ttl, s.ittl);
        let at_olen = put_byte(buffer, behind_ttl, b':');
        let behind_olen = put_decimal(buffer, at_olen, u16::from(s.olen));
        let at_mss = put_byte(buffer, behind_olen, b':');
        let behind_mss = put_mss(buffer, at_mss, s.mss);
        let at_window = put_byte(buffer, behind_mss, b':');
        let behind_window = put_window(buffer, at_window, s.wsize);
        let at_scale = put_byte(buffer, behind_window, b',');
        let behind_scale = put_wscale(buffer, at_scale, s.wscale);
        let behind_layout = put_layout(buffer, behind_scale, self.entries.bytes);
        let behind_quirks = put_quirks(buffer, behind_layout, s.quirks);
        let at_payload = put_byte(buffer, behind_quirks, b':');
        put_payload(buffer, at_payload, s.pclass)
    }

    // All of it, or refusal 15.
    fn write(self, buffer: &mut [u8]) -> Result<usize, Refusal>
        ensures { Writes buffer.old (signature_line self.entry.signature self.entry.entries.bytes.now) result buffer.new }
    {
        let size = self.length();
        if buffer.len() < size {
            return Err(Refusal::BufferTooShort);
        }
        self.put(buffer);
        Ok(size)
    }
}

// ---- an observation

// An observation as a signature of its own.
#[tactic(auto, unfolding(written_line::specs::Signature::signature_seen))]
fn signature_seen(o: TcpObservation) -> Signature
    ensures { result ≡ signature_seen o }
{
    Signature {
        version: SigVersion::from(o.version),
        ittl: o.ittl,
        olen: o.olen,
        mss: o.mss,
        wsize: WindowSize::Value(o.wsize),
        wscale: o.wscale,
        pclass: SigPayload::from(o.pclass),
        quirks: o.quirks,
    }
}

// The raw line of an observation, or refusal 11 or 15.
pub fn write_observation(buffer: &mut [u8], o: TcpObservation) -> Result<usize, Refusal>
    ensures { Writes buffer.old (observation_line o) result buffer.new }
{
    if 40 < o.olayout.count {
        return Err(Refusal::LayoutTooLong);
    }
    let row = entries_in(o.olayout);
    let entries = Entries {
        bytes: &row[..2 * o.olayout.count],
    };
    let line = Line {
        signature: signature_seen(o),
        entries,
    };
    line.write(buffer)
}

// ---- a record

// The line of record `index` of a list that was checked before; 23 for what no list so checked could have.
pub fn write_listed(buffer: &mut [u8], list: &[u8], index: usize) -> Result<usize, Refusal>
    ensures { Writes buffer.old (listed_line list.now index) result buffer.new }
{
    let Some(areas) = read_header(list) else {
        return Err(Refusal::NoSuchRecord);
    };
    if areas.records as usize <= index {
        return Err(Refusal::NoSuchRecord);
    }
    let raw = record_at(list, areas, index);
    let first = first_entry(raw);
    let count = entry_count(raw);
    if !entries_lie(areas, first, count) {
        return Err(Refusal::NoSuchRecord);
    }
    let start = areas.entries_offset as usize + 2 * first as usize;
    let end = start + 2 * count as usize;
    let entries = Entries {
        bytes: &list[start..end],
    };
    let line = Line {
        signature: signature_of(raw),
        entries,
    };
    line.write(buffer)
}

// The line of record `index` of a list, or refusal 9, 10, 23 or 15.
pub fn write_record(buffer: &mut [u8], list: &[u8], index: usize) -> Result<usize, Refusal>
    ensures { Writes buffer.old (record_line list.now index) result buffer.new }
{
    check_list(list)?;
    write_listed(buffer, list, index)
}
