// The endings of digit ordinals, those that overlap sharing their bytes; `_` brings the next to an even byte. Made by tools/gen_words.py.
pub const SIZE: usize = 30;

pub const POOL: [u8; SIZE] =
    *b"\xd0\xbc\xd0\xb8\xd0\xbc\xd1\x83\xd0\xb0\xd0\xb5\xd0\xb9\xd1\x85\xd1\x8f\xd1\x94\xd1\x96\xd1\x97\
    \xd0\xb3\xd0\xbe\xd1\x8e";
