// The refusals of documents 01 and 02, and those of a keeper's file that have none there, by name: the number of each, and what each gives
// beside it.
#![tactic(auto)]

ghost use Rattle.std.specs.Prelude.{◌≡◌};
ghost use Rattle.refusals.specs.declared.Refusal.TheVariants.{Packet, OptionsTooLong, List};
ghost use Rattle.refusals.specs.Refusals.{packet_number, list_number, number, packet_value, list_value, value};

// Why a packet is refused.
#[derive(Clone, Copy)]
pub enum PacketRefusal {
    // Empty, or neither IPv4 nor IPv6.
    Version,
    // Under 20 bytes (IPv4) or 40 (IPv6).
    TooShort,
    // An IPv4 header length under five words.
    HeaderLength,
    UnsupportedProtocol,
    Fragment,
    // A TCP part under 20 bytes.
    TcpTooShort,
    // With the flags byte.
    InvalidTcpFlags(u8),
    // A data offset under 5, or past the TCP part (Wish 2).
    DataOffset,
    // A header of IPv6 that does not fit, or one too many (Wish 13).
    ExtensionHeaders,
}

// Why a signature list is refused, wherever one is met.
#[derive(Clone, Copy)]
pub enum ListRefusal {
    // Its header or its areas do not fit.
    DoesNotFit,
    // With the index of the first bad record.
    BadRecord(usize),
}

// Why an option string is refused: it is over forty bytes.
#[derive(Clone, Copy)]
pub struct OptionsTooLong;

// Every refusal of both documents, also those that only a wish of document 02 will give; behind them what both leave to a keeper's file.
#[derive(Clone, Copy)]
pub enum Refusal {
    Packet(PacketRefusal),
    OptionsTooLong,
    List(ListRefusal),
    // An observation's layout count over 40.
    LayoutTooLong,
    BundleDoesNotFit,
    // A text line (Wish 1), with the offset of the first byte at which no acceptable line goes on.
    BadLine(usize),
    // A line is longer than the buffer for it (Wish 7).
    BufferTooShort,
    // A flow memory without room for one key, or whose count exceeds its room (Wish 9).
    NoRoomForKey,
    // Another magic or link type than a capture's (Wish 10).
    NotACapture,
    // A frame longer than the buffer for it (Wish 10).
    FrameTooLong,
    CaptureEndsEarly,
    // A row too short for its index (Wish 12).
    RowTooShort,
    // A row that is not the index of its list (Wish 12).
    RowDiffers,
    // An index past its list (Wish 7).
    NoSuchRecord,
    // A keeper's file of more signatures than a list's header can count.
    TooManySignatures,
    // One of more layout entries than a list can have before its records.
    TooManyEntries,
}

// ---- each as one of all

impl From<PacketRefusal> for Refusal {
    ghost from_gives = { λ why r. r ≡ Packet why };

    fn from(why: PacketRefusal) -> Refusal {
        Refusal::Packet(why)
    }
}

impl From<ListRefusal> for Refusal {
    ghost from_gives = { λ why r. r ≡ List why };

    fn from(why: ListRefusal) -> Refusal {
        Refusal::List(why)
    }
}

impl From<OptionsTooLong> for Refusal {
    ghost from_gives = { λ _ r. r ≡ OptionsTooLong };

    fn from(_why: OptionsTooLong) -> Refusal {
        Refusal::OptionsTooLong
    }
}

// ---- the numbers

fn packet_number(refusal: PacketRefusal) -> u8
    ensures { result ≡ packet_number refusal }
{
    match refusal {
        PacketRefusal::Version => 1,
        PacketRefusal::TooShort => 2,
        PacketRefusal::HeaderLength => 3,
        PacketRefusal::UnsupportedProtocol => 4,
        PacketRefusal::Fragment => 5,
        PacketRefusal::TcpTooShort => 6,
        PacketRefusal::InvalidTcpFlags(_) => 7,
        PacketRefusal::DataOffset => 14,
        PacketRefusal::ExtensionHeaders => 22,
    }
}

fn list_number(refusal: ListRefusal) -> u8
    ensures { result ≡ list_number refusal }
{
    match refusal {
        ListRefusal::DoesNotFit => 9,
        ListRefusal::BadRecord(_) => 10,
    }
}

// The number of a refusal. A function, not a From: the documents name a number and what stands beside it, which are numbers both.
pub fn refusal_number(refusal: Refusal) -> u8
    ensures { result ≡ number refusal }
{
    match refusal {
        Refusal::Packet(why) => packet_number(why),
        Refusal::OptionsTooLong => 8,
        Refusal::List(why) => list_number(why),
        Refusal::LayoutTooLong => 11,
        Refusal::BundleDoesNotFit => 12,
        Refusal::BadLine(_) => 13,
        Refusal::BufferTooShort => 15,
        Refusal::NoRoomForKey => 16,
        Refusal::NotACapture => 17,
        Refusal::FrameTooLong => 18,
        Refusal::CaptureEndsEarly => 19,
        Refusal::RowTooShort => 20,
        Refusal::RowDiffers => 21,
        Refusal::NoSuchRecord => 23,
        Refusal::TooManySignatures => 24,
        Refusal::TooManyEntries => 25,
    }
}

// ---- what is given beside a number, as a number; 0 is nothing

// A packet's refusal gives the flags byte, or nothing.
pub fn packet_value(refusal: PacketRefusal) -> u8
    ensures { result ≡ packet_value refusal }
{
    match refusal {
        PacketRefusal::InvalidTcpFlags(flags) => flags,
        _ => 0,
    }
}

// A list's refusal gives the index of its first bad record, or nothing.
pub fn list_value(refusal: ListRefusal) -> usize
    ensures { result ≡ list_value refusal }
{
    match refusal {
        ListRefusal::DoesNotFit => 0,
        ListRefusal::BadRecord(index) => index,
    }
}

// Any refusal gives one of these, the offset of a bad line, or nothing.
pub fn refusal_value(refusal: Refusal) -> usize
    ensures { result ≡ value refusal }
{
    match refusal {
        Refusal::Packet(why) => packet_value(why) as usize,
        Refusal::List(why) => list_value(why),
        Refusal::BadLine(at) => at,
        _ => 0,
    }
}
