// quirks.rs: quirks of IP and TCP headers, and sets of them as the bits of p0f's QUIRK_*.
#![tactic(auto)]

ghost use Rattle.std.specs.Prelude.{◌≡◌, ℕ};
ghost use Rattle.quirks.specs.Quirks.{bit_of, set_of, bits_of, is_empty, contains, with, add_if, difference};
ghost use Rattle.quirks.specs.Named.{display_order, named_sets};

pub mod bits;

// A quirk, in the order of p0f's text form (the names are the original's, its spelling included).
#[derive(Clone, Copy)]
pub enum Quirk {
    Df,
    NonZeroID,
    ZeroID,
    Ecn,
    MustBeZero,
    FlowID,
    SeqNumZero,
    AckNumNonZero,
    AckNumZero,
    NonZeroURG,
    Urg,
    Push,
    OwnTimestampZero,
    PeerTimestampNonZero,
    TrailinigNonZero,
    ExcessiveWindowScaling,
    OptBad,
}

impl Quirk {
    // The seventeen, in the order of p0f's text form.
    pub const DISPLAY_ORDER: [Quirk; 17] = [
        Quirk::Df,
        Quirk::NonZeroID,
        Quirk::ZeroID,
        Quirk::Ecn,
        Quirk::MustBeZero,
        Quirk::FlowID,
        Quirk::SeqNumZero,
        Quirk::AckNumNonZero,
        Quirk::AckNumZero,
        Quirk::NonZeroURG,
        Quirk::Urg,
        Quirk::Push,
        Quirk::OwnTimestampZero,
        Quirk::PeerTimestampNonZero,
        Quirk::TrailinigNonZero,
        Quirk::ExcessiveWindowScaling,
        Quirk::OptBad,
    ];

    // The quirk's bit in a set.
    #[tactic(auto, unfolding(crate::specs::Quirks::bit_of, crate::specs::Quirks::place_of))]
    pub fn bit(self) -> u32
        ensures { result ≡ bit_of self }
    {
        match self {
            Quirk::Ecn => bits::ECN,
            Quirk::Df => bits::DF,
            Quirk::NonZeroID => bits::NON_ZERO_ID,
            Quirk::ZeroID => bits::ZERO_ID,
            Quirk::MustBeZero => bits::MUST_BE_ZERO,
            Quirk::FlowID => bits::FLOW_ID,
            Quirk::SeqNumZero => bits::SEQ_NUM_ZERO,
            Quirk::AckNumNonZero => bits::ACK_NUM_NON_ZERO,
            Quirk::AckNumZero => bits::ACK_NUM_ZERO,
            Quirk::NonZeroURG => bits::NON_ZERO_URG,
            Quirk::Urg => bits::URG,
            Quirk::Push => bits::PUSH,
            Quirk::OwnTimestampZero => bits::OWN_TIMESTAMP_ZERO,
            Quirk::PeerTimestampNonZero => bits::PEER_TIMESTAMP_NON_ZERO,
            Quirk::TrailinigNonZero => bits::TRAILINIG_NON_ZERO,
            Quirk::ExcessiveWindowScaling => bits::EXCESSIVE_WINDOW_SCALING,
            Quirk::OptBad => bits::OPT_BAD,
        }
    }
}

// A set of quirks.
#[derive(Clone, Copy)]
pub struct QuirkSet(pub u32);

// The sets that have a name, each as the constant of QuirkSet below.
#[derive(Clone, Copy)]
pub struct NamedSets {
    pub empty: QuirkSet,
    pub fuzzy_deletable: QuirkSet,
    pub fuzzy_addable: QuirkSet,
    pub mask_when_obs_v4: QuirkSet,
    pub mask_when_obs_v6: QuirkSet,
    pub seventeen: QuirkSet,
}

impl QuirkSet {
    pub const EMPTY: Self = Self(0);

    // May be missing from the traffic: df, id+.
    pub const FUZZY_DELETABLE: Self = Self(0x0000_0006);

    // May be added by the traffic: id-, ecn.
    pub const FUZZY_ADDABLE: Self = Self(0x0000_0009);

    // Dropped from a record of any version when the packet is IPv4: flow.
    pub const MASK_WHEN_OBS_V4: Self = Self(0x0000_0020);

    // Dropped from a record of any version when the packet is IPv6: df, id+, id-.
    pub const MASK_WHEN_OBS_V6: Self = Self(0x0000_000E);

    // Every quirk: what a list record may declare.
    pub const SEVENTEEN: Self = Self(0x1F03_F03F);

    pub fn from_bits(bits: u32) -> Self
        ensures { result ≡ set_of bits }
    {
        Self(bits)
    }

    pub fn bits(self) -> u32
        ensures { result ≡ bits_of self }
    {
        self.0
    }

    #[tactic(auto, unfolding(crate::specs::Quirks::is_empty))]
    pub fn is_empty(self) -> bool
        ensures { result ≡ is_empty self }
    {
        self.0 == 0
    }

    #[tactic(auto, using(crate::proofs::Laws::masked))]
    pub fn contains(self, quirk: Quirk) -> bool
        ensures { result ≡ contains self quirk }
    {
        self.0 & quirk.bit() != 0
    }

    // The set with one quirk more. The original changes the set in place; here the new set is handed back.
    #[tactic(auto, unfolding(crate::specs::Quirks::with))]
    pub fn insert(self, quirk: Quirk) -> Self
        ensures { result ≡ with self quirk }
    {
        Self(self.0 | quirk.bit())
    }

    // The set with one quirk more where a test holds: the original's `if test { quirks.insert(quirk) }`.
    #[tactic(auto, unfolding(crate::specs::Quirks::add_if))]
    pub fn add_if(self, test: bool, quirk: Quirk) -> Self
        ensures { result ≡ add_if test quirk self }
    {
        if test { self.insert(quirk) } else { self }
    }

    // The quirks of this set that the other lacks.
    #[tactic(auto, unfolding(crate::specs::Quirks::difference))]
    pub fn difference(self, other: Self) -> Self
        ensures { result ≡ difference self other }
    {
        Self(self.0 & !other.0)
    }
}

// The named sets side by side: what holds the constants to their definitions.
pub fn named_sets() -> NamedSets
    ensures { result ≡ named_sets }
{
    NamedSets {
        empty: QuirkSet::EMPTY,
        fuzzy_deletable: QuirkSet::FUZZY_DELETABLE,
        fuzzy_addable: QuirkSet::FUZZY_ADDABLE,
        mask_when_obs_v4: QuirkSet::MASK_WHEN_OBS_V4,
        mask_when_obs_v6: QuirkSet::MASK_WHEN_OBS_V6,
        seventeen: QuirkSet::SEVENTEEN,
    }
}

// The order of p0f's text form: what holds the constant to its definition.
#[tactic(auto, unfolding(crate::specs::Named::display_order))]
pub fn display_order() -> [Quirk; 17]
    ensures { result ≡ display_order }
{
    Quirk::DISPLAY_ORDER
}
