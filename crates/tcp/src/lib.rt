// The data types of tcp/mod.rs that more than one module shares. An observation's IP version is 4 or 6 and its payload is
// empty or not; the wildcards of a signature are types of their own (the crate `distances`).

#![tactic(auto)]

// The IP version of an observed packet.
#[derive(Clone, Copy)]
pub enum IpVersion {
    V4,
    V6,
}

// Whether an observed segment carries data.
#[derive(Clone, Copy)]
pub enum PayloadSize {
    Zero,
    NonZero,
}

// The options of a segment in their order: `Vec<TcpOption>`. An entry is an option's kind and, for kind 0, the bytes left after
// it, else 0; entries from `count` on are 0. It is two arrays and a count, since there is no heap: memory is fixed.
#[derive(Clone, Copy)]
pub struct Layout {
    pub kinds: [u8; 40],
    pub bytes: [u8; 40],
    pub count: usize,
}
