// A reading, and what is parsed of an option string, as structs of numbers.
ghost use Rattle.std.specs.Prelude.{◌≡◌};
ghost use Rattle.ttl.specs.Table.{form_of};
ghost use Rattle.flow.specs.Reading.{observation_read};
ghost use Rattle.witness.specs.Written.{version_number, ttl_hops, payload_number, multiple_number, multiple_of, plain_observation};
ghost use Rattle.witness.specs.Written.{answer_number, plain_packet, plain_options};

use crate::{PlainObservation, PlainOptions, PlainPacket};
use flow::{Kind, Reading};
use observable::TcpObservation;
use refusals::{OptionsTooLong, PacketRefusal, packet_value, refusal_number};
use syn_options::ParsedTcpOptions;
use tcp::{IpVersion, PayloadSize};
use ttl::{Ttl, observed_ttl};
use window_size::WindowMultiplier;

// ---- an observation

fn version_number(version: IpVersion) -> u8
    ensures { result ≡ version_number version }
{
    match version {
        IpVersion::V4 => 4,
        IpVersion::V6 => 6,
    }
}

fn ttl_form(ttl: Ttl) -> u8
    ensures { result ≡ form_of ttl }
{
    match ttl {
        Ttl::Value(_) => 0,
        Ttl::Distance(_, _) => 1,
        Ttl::Guess(_) => 2,
        Ttl::Bad(_) => 3,
    }
}

fn ttl_hops(ttl: Ttl) -> u8
    ensures { result ≡ ttl_hops ttl }
{
    match ttl {
        Ttl::Distance(_, hops) => hops,
        _ => 0,
    }
}

fn payload_number(pclass: PayloadSize) -> u8
    ensures { result ≡ payload_number pclass }
{
    match pclass {
        PayloadSize::Zero => 0,
        PayloadSize::NonZero => 1,
    }
}

fn multiple_number(multiplier: Option<WindowMultiplier>) -> u16
    ensures { result ≡ multiple_number multiplier }
{
    match multiplier {
        None => 0,
        Some(found) => found.multiple,
    }
}

fn multiple_of(multiplier: Option<WindowMultiplier>) -> u8
    ensures { result ≡ multiple_of multiplier }
{
    match multiplier {
        None => 0,
        Some(found) => if found.of_mtu { 2 } else { 1 },
    }
}

#[tactic(auto, unfolding(crate::specs::Written::plain_observation))]
fn plain_observation(o: TcpObservation, multiplier: Option<WindowMultiplier>) -> PlainObservation
    ensures { result ≡ plain_observation o multiplier }
{
    PlainObservation {
        count: o.olayout.count,
        quirks: o.quirks.bits(),
        mss: o.mss.unwrap_or(0),
        wsize: o.wsize,
        peer_mss: o.peer_mss.unwrap_or(0),
        tot_hdr: o.tot_hdr,
        multiple: multiple_number(multiplier),
        multiple_of: multiple_of(multiplier),
        version: version_number(o.version),
        ttl_form: ttl_form(o.ittl),
        ttl: observed_ttl(o.ittl),
        hops: ttl_hops(o.ittl),
        olen: o.olen,
        tos: o.tos,
        wscale: o.wscale.unwrap_or(0),
        pclass: payload_number(o.pclass),
        has_mss: u8::from(o.mss.is_some()),
        has_wscale: u8::from(o.wscale.is_some()),
        has_peer_mss: u8::from(o.peer_mss.is_some()),
        kinds: o.olayout.kinds,
        bytes: o.olayout.bytes,
    }
}

// ---- a packet

// 1 SYN, 2 SYN+ACK, 3 nothing, 4 refused.
pub fn answer_number(reading: Result<Reading, PacketRefusal>) -> u8
    ensures { result ≡ answer_number reading }
{
    match reading {
        Ok(Reading::Opening(Kind::Syn, _)) => 1,
        Ok(Reading::Opening(Kind::SynAck, _)) => 2,
        Ok(Reading::Nothing) => 3,
        Err(_) => 4,
    }
}

// What was observed; beside nothing and a refusal the empty observation.
pub fn observation_read(reading: Result<Reading, PacketRefusal>) -> TcpObservation
    ensures { result ≡ observation_read reading }
{
    match reading {
        Ok(Reading::Opening(_, observation)) => observation,
        _ => TcpObservation::empty(),
    }
}

// A reading; the window's multiplier is the caller's.
#[tactic(auto, unfolding(crate::specs::Written::plain_packet))]
pub fn plain_packet(
    reading: Result<Reading, PacketRefusal>,
    multiplier: Option<WindowMultiplier>,
) -> PlainPacket
    ensures { result ≡ plain_packet reading multiplier }
{
    let (refusal, flags) = match reading {
        Ok(_) => (0, 0),
        Err(why) => (refusal_number(why.into()), packet_value(why)),
    };
    PlainPacket {
        observation: plain_observation(observation_read(reading), multiplier),
        answer: answer_number(reading),
        refusal,
        flags,
    }
}

// ---- an option string

#[tactic(auto, unfolding(crate::specs::Written::plain_options))]
pub(crate) fn plain_options(read: Result<ParsedTcpOptions, OptionsTooLong>) -> PlainOptions
    ensures { result ≡ plain_options read }
{
    match read {
        Ok(options) => PlainOptions {
            count: options.olayout.count,
            mss: options.mss.unwrap_or(0),
            refusal: 0,
            malformed: options.malformed,
            has_mss: u8::from(options.mss.is_some()),
            has_wscale: u8::from(options.wscale.is_some()),
            wscale: options.wscale.unwrap_or(0),
            kinds: options.olayout.kinds,
            bytes: options.olayout.bytes,
        },
        Err(why) => PlainOptions {
            count: 0,
            mss: 0,
            refusal: refusal_number(why.into()),
            malformed: false,
            has_mss: 0,
            has_wscale: 0,
            wscale: 0,
            kinds: [0; 40],
            bytes: [0; 40],
        },
    }
}
