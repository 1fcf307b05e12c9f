ghost use Rattle.std.specs.Prelude.{◌≡◌};
ghost use Rattle.scx_dsq.specs.Errors.{error_number, error_name};

use thiserror::Error;

/// Why a queue isn't created or a task isn't put into one. Of several causes the least number is
/// answered, and nothing has changed.
#[derive(Clone, Copy, Debug, PartialEq, Eq, Error)]
pub enum QueueError {
    /// No queue of that id was created.
    #[error("no queue has this id")]
    NoSuchQueue,
    /// The task waits in some queue, or the queue exists.
    #[error("it is there already")]
    AlreadyThere,
    /// Tasks wait in the queue, and they were put into it in the other way.
    #[error("a queue is either FIFO or ordered by virtual time")]
    Mixed,
    /// As many queues as `Queues::new` made room for exist.
    #[error("there is no room for another queue")]
    TooManyQueues,
}

impl QueueError {
    /// Its number in a refusal, from 1.
    pub fn number(self) -> u8
        ensures { result ≡ error_number self }
    {
        match self {
            QueueError::NoSuchQueue => 1,
            QueueError::AlreadyThere => 2,
            QueueError::Mixed => 3,
            QueueError::TooManyQueues => 4,
        }
    }

    /// Its name in a refusal.
    pub fn name(self) -> &'static str
        ensures { result.now ≡ error_name self }
    {
        match self {
            QueueError::NoSuchQueue => "NoSuchQueue",
            QueueError::AlreadyThere => "AlreadyThere",
            QueueError::Mixed => "Mixed",
            QueueError::TooManyQueues => "TooManyQueues",
        }
    }
}
