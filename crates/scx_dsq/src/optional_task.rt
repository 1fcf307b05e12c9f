ghost use Rattle.std.specs.Prelude.{◌≡◌, Some, None};

use std::marker::Model;

/// A task's number, or none, in one word.
#[derive(Clone, Copy)]
pub struct OptionalTask {
    /// One more than the number; 0 for none.
    word: usize,
}

impl Model for OptionalTask {
    ghost use Rattle.std.specs.Prelude.{ℕ, Option, ◌≤◌, ◌^◌};

    ghost Value = { Option ℕ };

    ghost use Rattle.scx_dsq.specs.Words.{task_in, word_of, word_back};

    ghost view = { λ t. task_in t.word };

    ghost invariant = { λ t. t.word ≤ 2 ^ 32 };

    ghost inverse = { λ t. record { word = word_of t } };

    ghost inverse_ok = { λ t h. λ i. record { word = word_back t.word i } };
}

impl OptionalTask {
    pub fn none() -> OptionalTask
        ensures { result ≡ None }
    {
        OptionalTask { word: 0 }
    }

    #[tactic(auto, using(crate::specs::Words::task_in_more))]
    pub fn some(task: u32) -> OptionalTask
        ensures { result ≡ Some task }
    {
        OptionalTask {
            word: task as usize + 1,
        }
    }

    #[tactic(auto, using(crate::specs::Words::task_in_word))]
    pub fn get(self) -> Option<u32>
        ensures { result ≡ self }
    {
        if self.word == 0 {
            None
        } else {
            Some((self.word - 1) as u32)
        }
    }

    /// The task as an index, if there is one.
    #[tactic(auto, using(crate::specs::Words::task_in_word))]
    pub fn index(self) -> Option<usize>
        ensures { result ≡ self }
    {
        if self.word == 0 {
            None
        } else {
            Some(self.word - 1)
        }
    }
}
