/// The end of a run at an `exit` (RFC 9669, section 4.3).
#[derive(Clone, Copy, Debug, PartialEq, Eq)]
pub struct Done {
    /// The number in r0; 0 where the callback answers none.
    pub r0: u64,
    /// The number of instructions that were done, with the `exit`: at least 1.
    pub steps: usize,
}
