// parse/tcp.rs: a signature line, as p0f writes it, read into a record of the signature list with its layout (document 02, Wish 1).
#![tactic(auto)]

ghost use Rattle.std.specs.Prelude.{◌≡◌};
ghost use Rattle.signature_line.specs.Answer.{refused_at};
ghost use Rattle.signature_line.specs.LineReader.{read_line};
ghost use Rattle.parse_tcp.specs.LineParts.{line_fields};

use layout::parse_olayout;
use one_field::{
    behind, parse_ip_version, parse_mss, parse_olen, parse_payload_size, parse_ttl,
    parse_window_size, parse_wscale,
};
use quirk_set::parse_quirks;
use raw::record_of;
use signature_line::{BadLine, SignatureRead};
use tcp::Layout;

mod layout;
mod quirk_set;
mod raw;

// The longest line.
const LONGEST: usize = 512;

// What the fields of a line say, and where the last of them ended.
#[derive(Clone, Copy)]
pub struct LineFields {
    pub at: usize,
    pub version: u32,
    pub ttl_form: u32,
    pub ttl: u32,
    pub distance: u32,
    pub olen: u32,
    pub mss_form: u32,
    pub mss: u32,
    pub wsize_form: u32,
    pub wsize: u32,
    pub wscale_form: u32,
    pub wscale: u32,
    pub pclass: u32,
    pub quirks: u32,
    pub layout: Layout,
}

// Each field is read where the one before it ended and its separator stands.
#[tactic(auto, unfolding(crate::specs::LineParts::line_fields, numerals::specs::Pieces::and_then))]
fn read_fields(line: &[u8]) -> Result<LineFields, BadLine>
    ensures { result ≡ line_fields line.now }
{
    let version = parse_ip_version(line, Ok(0))?;
    let ittl = parse_ttl(line, behind(line, Ok(version.at), b':'))?;
    let olen = parse_olen(line, behind(line, Ok(ittl.at), b':'))?;
    let mss = parse_mss(line, behind(line, Ok(olen.at), b':'))?;
    let wsize = parse_window_size(line, behind(line, Ok(mss.at), b':'))?;
    let wscale = parse_wscale(line, behind(line, Ok(wsize.at), b','))?;
    let olayout = parse_olayout(line, behind(line, Ok(wscale.at), b':')?)?;
    let quirks = parse_quirks(line, behind(line, Ok(olayout.at), b':')?)?;
    let pclass = parse_payload_size(line, behind(line, Ok(quirks.at), b':'))?;
    Ok(LineFields {
        at: pclass.at,
        version: version.form,
        ttl_form: ittl.form,
        ttl: ittl.ttl,
        distance: ittl.distance,
        olen: olen.number,
        mss_form: mss.form,
        mss: mss.number,
        wsize_form: wsize.form,
        wsize: wsize.number,
        wscale_form: wscale.form,
        wscale: wscale.number,
        pclass: pclass.form,
        quirks: quirks.bits,
        layout: olayout.layout,
    })
}

// Refusal 13: its offset, and nothing beside.
pub fn refused_at(at: usize) -> Result<SignatureRead, BadLine>
    ensures { result ≡ refused_at at }
{
    Err(BadLine { offset: at })
}

// A line is read into a record and its layout, or refused by 13 with the offset of the first byte at which no line goes on.
pub fn parse_tcp_signature(line: &[u8]) -> Result<SignatureRead, BadLine>
    ensures { result ≡ read_line line.now }
{
    if LONGEST < line.len() {
        return refused_at(LONGEST);
    }
    let fields = read_fields(line)?;
    if fields.at != line.len() {
        return Err(BadLine { offset: fields.at });
    }
    Ok(SignatureRead {
        raw: record_of(fields),
        layout: fields.layout,
    })
}
