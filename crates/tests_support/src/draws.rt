//! Samples by the numbers of a fixed sequence.

/// The next number of the sequence.
pub fn next_sample(state: u32) -> u32 {
    state.wrapping_mul(1_664_525).wrapping_add(1_013_904_223)
}

/// The element that a number of the sequence stands for: its lowest bits, which repeat soon, are left
/// out.
pub fn sample_element(state: u32, size: u32) -> u32 {
    (state >> 6).checked_rem(size).unwrap_or(0)
}
