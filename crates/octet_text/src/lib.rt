//! Texts as octets: [`Text`], which grows at its end, and functions that write numbers into a slice
//! at an offset. The crates that print addresses, AS paths and lines call them. Read `buffer.rt`
//! first, then `cursor.rt`.
#![tactic(auto)]

mod buffer;
mod cursor;
mod digits;

pub use buffer::{Text, put_decimal};
pub use cursor::{
    DECIMAL_ROOM, HEX_PAIR, ROW, SPACE, WORD_ROOM, WordFormat, WriteTextAt, copy_octets_at,
    hex_pair, write_below_thousand, write_decimal, write_ended_decimal, write_hex_octet,
};
