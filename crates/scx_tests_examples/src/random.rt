/// The next number of a fixed walk, by Marsaglia's xorshift.
pub fn xorshift(state: &mut u64) -> u64 {
    let mut x = *state;
    x ^= x.wrapping_shl(13);
    x ^= x >> 7;
    x ^= x.wrapping_shl(17);
    *state = x;
    x
}
