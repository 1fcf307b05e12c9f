ghost use Rattle.std.specs.Prelude.{◌≡◌};
ghost use Rattle.scx_load_files.specs.EventFaults.{event_number, event_name};

/// A fault in a line of events, in the order of the numbers.
#[derive(Clone, Copy, Debug, PartialEq, Eq)]
pub enum EventFault {
    /// It isn't `MS wake TASK`, `MS sleep TASK`, `MS weight GROUP W` or, under Linux rules,
    /// `MS task_weight TASK W`, with one space between words.
    Syntax,
    /// The millisecond isn't a number less than `ms`.
    BadTime,
    /// No task has this name.
    NoSuchTask,
    /// No group has this name.
    NoSuchGroup,
    /// The weight isn't one of 1 to 10,000.
    BadWeight,
    /// More lines say an event than may.
    TooMany,
    /// It would come before the line above it: by its millisecond, or within one, where weights come first,
    /// then wakes and then sleeps.
    OutOfOrder,
    /// The task that is to wake is awake.
    AlreadyRunnable,
    /// The task that is to sleep sleeps.
    NotRunnable,
}

impl EventFault {
    /// Its number in a refusal, from 1.
    pub fn number(self) -> u8
        ensures { result ≡ event_number self }
    {
        match self {
            EventFault::Syntax => 1,
            EventFault::BadTime => 2,
            EventFault::NoSuchTask => 3,
            EventFault::NoSuchGroup => 4,
            EventFault::BadWeight => 5,
            EventFault::TooMany => 6,
            EventFault::OutOfOrder => 7,
            EventFault::AlreadyRunnable => 8,
            EventFault::NotRunnable => 9,
        }
    }

    /// Its name in a refusal.
    pub fn name(self) -> &'static str
        ensures { result.now ≡ event_name self }
    {
        match self {
            EventFault::Syntax => "Syntax",
            EventFault::BadTime => "BadTime",
            EventFault::NoSuchTask => "NoSuchTask",
            EventFault::NoSuchGroup => "NoSuchGroup",
            EventFault::BadWeight => "BadWeight",
            EventFault::TooMany => "TooMany",
            EventFault::OutOfOrder => "OutOfOrder",
            EventFault::AlreadyRunnable => "AlreadyRunnable",
            EventFault::NotRunnable => "NotRunnable",
        }
    }
}
