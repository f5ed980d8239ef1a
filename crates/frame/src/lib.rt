// The byte strings of SML transport version 1 that encoder and decoder share.

#![tactic(auto)]

// The byte that escapes are made of.
pub const ESC: u8 = 0x1b;

// The start sequence of a frame.
pub const START: [u8; 8] = *b"\x1b\x1b\x1b\x1b\x01\x01\x01\x01";

// The escape sequence; behind one in the payload's place four more 1b are data.
pub const ESCAPE: [u8; 4] = *b"\x1b\x1b\x1b\x1b";

// Behind an escape sequence: a new frame begins.
pub const RESTART: [u8; 4] = *b"\x01\x01\x01\x01";
