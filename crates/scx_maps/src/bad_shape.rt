use thiserror::Error;

/// The limit that shapes of maps break.
///
/// The number of maps is judged first, then each map in order, and the bytes of all maps last.
#[derive(Clone, Copy, Debug, PartialEq, Eq, Error)]
pub enum BadShape {
    /// There are too many maps, whatever their shapes.
    #[error("more than 16 maps")]
    TooManyMaps,
    /// The first map that breaks a limit has no entries, or too many; maps count from 0.
    #[error("map {map}: not 1 to 65536 entries")]
    Entries { map: u8 },
    /// The first map that breaks a limit does so by its values alone, of no byte or of too many.
    #[error("map {map}: values of not 1 to 4096 bytes")]
    ValueSize { map: u8 },
    /// Each map is within its limits, but they are too large together.
    #[error("more than 16777216 bytes over all maps")]
    TooLarge,
}
