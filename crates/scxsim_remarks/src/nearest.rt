use std::alloc::{AllocError, Global};
use strsim::osa_distance;

/// The greatest number of letters that a near word may have changed, added, left out or exchanged.
const FEW: usize = 2;

/// The most bytes of a word that others are compared with.
const LONGEST: usize = 256;

/// The nearest of the known words that were met, and its distance in letters.
#[derive(Clone, Copy)]
pub(crate) struct Nearest<'a> {
    known: Option<&'a str>,
    distance: usize,
}

impl<'a> Nearest<'a> {
    /// No word was met.
    pub(crate) fn none() -> Nearest<'a> {
        Nearest {
            known: None,
            distance: FEW.saturating_add(1),
        }
    }

    /// The nearest word, if one is near.
    pub(crate) fn word(self) -> Option<&'a str> {
        self.known
    }

    /// The known word, if it is nearer than the nearest so far, isn't the same word, and shares at least half of
    /// its letters.
    ///
    /// # Errors
    ///
    /// Memory runs out.
    pub(crate) fn or_nearer(
        self,
        alloc: Global,
        word: &str,
        known: &'a str,
    ) -> Result<Nearest<'a>, AllocError> {
        if word.len() > LONGEST {
            return Ok(self);
        }
        let distance = osa_distance(alloc, word, known)?;
        if distance != 0 && distance < self.distance && distance <= known.len() / 2 {
            return Ok(Nearest {
                known: Some(known),
                distance,
            });
        }
        Ok(self)
    }
}
