//! The round keys of an expanded key whose words are all zero, of both sizes and directions, in the
//! forms that the rounds take. A wiped schedule encrypts by these, and they hold no secret. What
//! isn't zero in them is what the forms make of the S-box's constant 0x63: its nibbles, the constant
//! itself, and its nibbles with the affine map undone.

const FORWARD_ONE: [u8; 16] = [0x6e; 16];

const FORWARD_LAST: [u8; 16] = [0x63; 16];

const BACKWARD_ONE: [u8; 16] = [0x2c; 16];

const NO_BYTES: [u8; 16] = [0; 16];

pub const FORWARD_128: [[u8; 16]; 15] = [
    NO_BYTES,
    FORWARD_ONE,
    FORWARD_ONE,
    FORWARD_ONE,
    FORWARD_ONE,
    FORWARD_ONE,
    FORWARD_ONE,
    FORWARD_ONE,
    FORWARD_ONE,
    FORWARD_ONE,
    FORWARD_LAST,
    NO_BYTES,
    NO_BYTES,
    NO_BYTES,
    NO_BYTES,
];

pub const FORWARD_256: [[u8; 16]; 15] = [
    NO_BYTES,
    FORWARD_ONE,
    FORWARD_ONE,
    FORWARD_ONE,
    FORWARD_ONE,
    FORWARD_ONE,
    FORWARD_ONE,
    FORWARD_ONE,
    FORWARD_ONE,
    FORWARD_ONE,
    FORWARD_ONE,
    FORWARD_ONE,
    FORWARD_ONE,
    FORWARD_ONE,
    FORWARD_LAST,
];

pub const BACKWARD_128: [[u8; 16]; 15] = [
    NO_BYTES,
    BACKWARD_ONE,
    BACKWARD_ONE,
    BACKWARD_ONE,
    BACKWARD_ONE,
    BACKWARD_ONE,
    BACKWARD_ONE,
    BACKWARD_ONE,
    BACKWARD_ONE,
    BACKWARD_ONE,
    NO_BYTES,
    NO_BYTES,
    NO_BYTES,
    NO_BYTES,
    NO_BYTES,
];

pub const BACKWARD_256: [[u8; 16]; 15] = [
    NO_BYTES,
    BACKWARD_ONE,
    BACKWARD_ONE,
    BACKWARD_ONE,
    BACKWARD_ONE,
    BACKWARD_ONE,
    BACKWARD_ONE,
    BACKWARD_ONE,
    BACKWARD_ONE,
    BACKWARD_ONE,
    BACKWARD_ONE,
    BACKWARD_ONE,
    BACKWARD_ONE,
    BACKWARD_ONE,
    NO_BYTES,
];
