use scx_sched::What;

/// When and why the policy was ejected.
#[derive(Clone, Copy)]
pub enum Ejection {
    Stall { moment: u64, task: u16 },
    Fault { moment: u64, number: u8 },
    Exit { moment: u64, code: i64 },
}

impl Ejection {
    /// The ejection that this is, if it is one.
    pub fn of(moment: u64, what: What) -> Option<Ejection> {
        match what {
            What::Stall(task) => Some(Ejection::Stall { moment, task }),
            What::Fault(fault) => {
                let number = fault.number();
                Some(Ejection::Fault { moment, number })
            }
            What::Exit(code) => Some(Ejection::Exit { moment, code }),
            What::Wake(_)
            | What::Sleep(_)
            | What::Insert(_, _)
            | What::Move(_, _)
            | What::Run(_, _)
            | What::Stop(_, _)
            | What::Idle(_)
            | What::Weight(_, _)
            | What::TaskWeight(_, _) => None,
        }
    }

    /// In milliseconds from the start.
    pub fn moment(self) -> u64 {
        match self {
            Ejection::Stall { moment, .. } => moment,
            Ejection::Fault { moment, .. } => moment,
            Ejection::Exit { moment, .. } => moment,
        }
    }
}
