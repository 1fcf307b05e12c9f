/// No such key is there, or no value: `ENOENT` of a kernel, negated.
pub(crate) const NOT_THERE: u64 = 0xffff_ffff_ffff_fffe;

/// No slot is left, or the key is none of the map's: `E2BIG`, negated.
pub(crate) const TOO_BIG: u64 = 0xffff_ffff_ffff_fff9;

/// The key is there: `EEXIST`, negated.
pub(crate) const IS_THERE: u64 = 0xffff_ffff_ffff_ffef;

/// Flags or a map that the helper doesn't take: `EINVAL`, negated.
pub(crate) const INVALID: u64 = 0xffff_ffff_ffff_ffea;
