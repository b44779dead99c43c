//! IPv4 and IPv6 addresses and prefixes: their orders, their texts, and the parser of prefixes as
//! BGP sends them (RFC 4271, section 4.3). The crates that parse, store and print routes call it.
//! Read `addr.rt` and `prefix.rt` first.
#![tactic(auto)]

mod addr;
mod laws;
mod leading_bits;
mod number;
mod parse;
mod prefix;
mod text;
mod turn;
mod zero_runs;

pub use addr::{Addr, Family, V4_BITS, V4_OCTETS, V6_BITS, V6_OCTETS};
pub use laws::{
    law_address_constants, law_address_order_is_total, law_common_prefix_is_longest,
    law_containing_prefixes_nest, law_containment_is_by_bits, law_covering_is_partial_order,
    law_longest_zero_run_is_shortened, law_octets_have_one_prefix, law_prefix_order_is_total,
    law_printed_text_parses, law_text_has_one_value, law_turns_are_by_covering,
};
pub use octet_text::{
    DECIMAL_ROOM, SPACE, Text, WORD_ROOM, WordFormat, WriteTextAt, copy_octets_at, put_decimal,
    write_decimal, write_ended_decimal,
};
pub use prefix::Prefix;
pub use text::{ADDRESS_ROOM, COLON, PREFIX_ROOM};
pub use turn::Turn;
