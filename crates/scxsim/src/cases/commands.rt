use crate::cases::marks::Command;
use crate::cases::stage::Stage;
use crate::cases::texts::is_as_wanted;
use crate::ending::{Ending, Said};
use crate::process::run_words;
use scxsim_commands::Counted;
use std::alloc::{AllocError, Global};

/// The outcome of a command.
#[derive(Drop)]
pub(crate) struct Found {
    pub(crate) written: Vec<u8>,
    pub(crate) ending: Ending,
}

/// Runs the words of a command.
pub(crate) fn find(stage: &Stage<'_>, words: &str) -> Result<Found, AllocError> {
    let words = words_of(stage.alloc, words)?;
    let mut written = Vec::new(stage.alloc);
    let mut out = Counted::new(&mut written);
    let ending = run_words(stage, words.as_slice(), &mut out);
    Ok(Found { written, ending })
}

fn words_of<'a>(alloc: Global, text: &'a str) -> Result<Vec<&'a str>, AllocError> {
    let mut words = Vec::new(alloc);
    for word in text.split_whitespace() {
        words.push(word)?;
    }
    Ok(words)
}

impl Found {
    /// True if the command ended and wrote as wanted.
    pub(crate) fn is_wanted(
        &self,
        command: &Command<'_>,
        wanted: &[u8],
        said: Option<&str>,
    ) -> bool {
        self.ending.status == command.status
            && self.is_said(said)
            && is_as_wanted(self.written.as_slice(), wanted, command.form)
    }

    fn is_said(&self, said: Option<&str>) -> bool {
        match (&self.ending.said, said) {
            (Said::Hint(hint), Some(said)) => said.strip_prefix("hint: ") == Some(hint.advice()),
            (Said::Remark(remark), Some(said)) => remark.strip_suffix('\n') == Some(said),
            (Said::Remark(_) | Said::Nothing, None) => true,
            _ => false,
        }
    }
}
