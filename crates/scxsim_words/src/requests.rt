/// A command on the file of a program.
#[derive(Clone, Copy)]
pub enum ProgramCommand {
    Exec,
    Asm,
    Dis,
}

/// A command on a policy file.
#[derive(Clone, Copy)]
pub enum PolicyCommand {
    Verify,
    /// `Verify`, with its output in JSON.
    VerifyJson,
    Explain,
    /// `Explain` for one callback.
    ExplainOne,
}

/// An account of a run.
#[derive(Clone, Copy)]
pub enum Account {
    Trace,
    Report,
    /// One line on how the policy ended.
    Check,
    Stats,
    StatsCsv,
    Why,
    /// `Why` without its limit of 60 lines.
    WhyAll,
    /// `Why`, with its output in JSON.
    WhyJson,
    Story,
    Step,
    /// The contents of the policy's maps at the end.
    Maps,
    Timeline,
    Picture,
    View,
    Gantt,
    /// The trace of a file of events.
    Replay,
    /// The metrics of a file of events.
    ReplayCsv,
}

/// The bounds of a part of a run, as they were given.
#[derive(Clone, Copy)]
pub struct Part<'a> {
    pub from: &'a str,
    pub to: &'a str,
}

/// A command, with the paths of its files.
#[derive(Clone, Copy)]
pub enum Request<'a> {
    Program {
        command: ProgramCommand,
        path: &'a str,
    },
    Policy {
        command: PolicyCommand,
        path: &'a str,
        /// The name of a callback, if the output is about one.
        callback: Option<&'a str>,
    },
    Run {
        account: Account,
        policy: &'a str,
        /// The workload file, or the file of events.
        workload: &'a str,
        /// `None` for the whole run.
        part: Option<Part<'a>>,
        /// The name of a task, or a millisecond, if the output is about one.
        subject: Option<&'a str>,
    },
    /// A search through sequences of events.
    Explore {
        policy: &'a str,
        workload: &'a str,
        mode: &'a str,
        depth: &'a str,
        /// The most wakes and sleeps in a sequence, if they are bounded.
        few: Option<&'a str>,
    },
    /// The files of cases that follow the command.
    Cases,
}
