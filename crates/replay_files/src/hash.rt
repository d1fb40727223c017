// FNV-1a with 32 bits.

// The hash before the first byte.
const START: u32 = 0x811C9DC5;

const FACTOR: u32 = 0x01000193;

fn with_byte(hash: u32, byte: u8) -> u32 {
    (hash ^ u32::from(byte)).wrapping_mul(FACTOR)
}

fn with_bytes(hash: u32, bytes: &[u8]) -> u32 {
    bytes.iter().fold(hash, |hash, &byte| with_byte(hash, byte))
}

// The hash of some bytes.
pub(crate) fn of_bytes(bytes: &[u8]) -> u32 {
    with_bytes(START, bytes)
}

// The hash of some numbers, four bytes each.
pub(crate) fn of_numbers(numbers: &[u32]) -> u32 {
    numbers.iter().fold(
        START,
        |hash, number| with_bytes(hash, &number.to_be_bytes()),
    )
}
