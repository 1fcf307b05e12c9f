use crate::requests::{Account, PolicyCommand, ProgramCommand};

/// A command, or several that take the same arguments.
#[derive(Clone, Copy)]
pub(crate) enum Kind {
    Program(ProgramCommand),
    Policy(PolicyCommand),
    /// One callback of a policy.
    Callback(PolicyCommand),
    /// A run of a workload alone.
    Workload(Account),
    /// A run of a workload or of a file of events.
    Run(Account),
    /// A part of a run.
    Part(Account),
    /// One task in a run.
    Task(Account),
    /// One millisecond of a run.
    Moment(Account),
    /// The run of a file of events.
    Replay(Account),
    /// A search through all sequences of events.
    Explore,
    /// A search through those with few wakes and sleeps.
    ExploreFew,
    Cases,
}

/// An argument of a command.
#[derive(Clone, Copy)]
pub(crate) enum Argument {
    Slots,
    Text,
    Policy,
    Callback,
    Workload,
    /// A workload, or a file of events in its place.
    Scenario,
    /// A workload for a search.
    SmallWorkload,
    Events,
    From,
    To,
    Task,
    Moment,
    Mode,
    Depth,
    Few,
    Cases,
}

const SLOTS: [Argument; 1] = [Argument::Slots];

const TEXT: [Argument; 1] = [Argument::Text];

const POLICY: [Argument; 1] = [Argument::Policy];

const CALLBACK: [Argument; 2] = [Argument::Policy, Argument::Callback];

const WORKLOAD: [Argument; 2] = [Argument::Policy, Argument::Workload];

const RUN: [Argument; 2] = [Argument::Policy, Argument::Scenario];

const PART: [Argument; 4] = [
    Argument::Policy,
    Argument::Scenario,
    Argument::From,
    Argument::To,
];

const TASK: [Argument; 3] = [Argument::Policy, Argument::Scenario, Argument::Task];

const MOMENT: [Argument; 3] = [Argument::Policy, Argument::Scenario, Argument::Moment];

const REPLAY: [Argument; 2] = [Argument::Policy, Argument::Events];

const EXPLORE: [Argument; 4] = [
    Argument::Policy,
    Argument::SmallWorkload,
    Argument::Mode,
    Argument::Depth,
];

const EXPLORE_FEW: [Argument; 5] = [
    Argument::Policy,
    Argument::SmallWorkload,
    Argument::Mode,
    Argument::Depth,
    Argument::Few,
];

const CASES: [Argument; 1] = [Argument::Cases];

impl Kind {
    /// The arguments of the command, in their order.
    pub(crate) fn arguments(self) -> &'static [Argument] {
        match self {
            Kind::Program(ProgramCommand::Asm) => &TEXT,
            Kind::Program(_) => &SLOTS,
            Kind::Policy(_) => &POLICY,
            Kind::Callback(_) => &CALLBACK,
            Kind::Workload(_) => &WORKLOAD,
            Kind::Run(_) => &RUN,
            Kind::Part(_) => &PART,
            Kind::Task(_) => &TASK,
            Kind::Moment(_) => &MOMENT,
            Kind::Replay(_) => &REPLAY,
            Kind::Explore => &EXPLORE,
            Kind::ExploreFew => &EXPLORE_FEW,
            Kind::Cases => &CASES,
        }
    }
}

impl Argument {
    /// Its name in the help.
    pub(crate) fn name(self) -> &'static str {
        match self {
            Argument::Slots | Argument::Text | Argument::Cases => "FILE",
            Argument::Policy => "POLICY",
            Argument::Callback => "CALLBACK",
            Argument::Workload | Argument::Scenario | Argument::SmallWorkload => "WORKLOAD",
            Argument::Events => "EVENTS",
            Argument::From => "FROM",
            Argument::To => "TO",
            Argument::Task => "TASK",
            Argument::Moment => "MS",
            Argument::Mode => "MODE",
            Argument::Depth => "DEPTH",
            Argument::Few => "K",
        }
    }

    /// True if a command takes one or more of it.
    pub(crate) fn may_be_many(self) -> bool {
        matches!(self, Argument::Cases)
    }

    /// Its line in the help: the value that it takes, and the limits of that.
    pub(crate) fn help(self) -> &'static str {
        match self {
            Argument::Slots =>
                "A file of BPF instructions: 1 to 4096 slots of 8 bytes, low byte first",
            Argument::Text => "A file of assembler text, at most 1 MiB; see docs/ASSEMBLY.md",
            Argument::Policy => {
                "A policy file (TOML, at most 1 MiB): programs for callbacks, and maps; see docs/FILES.md"
            }
            Argument::Callback => "The name of a callback of the policy, as enqueue",
            Argument::Workload => {
                "A workload file (TOML, at most 1 MiB): 1 to 64 CPUs, groups and tasks; see docs/FILES.md"
            }
            Argument::Scenario => {
                "A workload file (TOML, at most 1 MiB): 1 to 64 CPUs, groups and tasks; or a file of events in its place; see docs/FILES.md"
            }
            Argument::SmallWorkload => {
                "A workload file (TOML, at most 1 MiB) with at most 4 CPUs and 8 tasks; see docs/FILES.md"
            }
            Argument::Events => {
                "A file of events (TOML, at most 1 MiB): CPUs, groups, tasks, and up to 65536 events; see docs/FILES.md"
            }
            Argument::From => "The start of the part in milliseconds: at least 0, less than TO",
            Argument::To => {
                "The end of the part in milliseconds: more than FROM, at most the run's length"
            }
            Argument::Task => "The name of a task of the workload",
            Argument::Moment => "A millisecond of the run: at least 0, at most the run's length",
            Argument::Mode => {
                "The sequences to try. events: any order of single events; ms: whole milliseconds, in which every CPU ticks once; workloads: only those that a workload file can produce [possible values: events, ms, workloads]"
            }
            Argument::Depth => {
                "The greatest length of a sequence: events, 1 to 64, where ticks until a slice ends may count as one; in the modes ms and workloads milliseconds, 1 to 65535"
            }
            Argument::Few => "The most wakes and sleeps in a sequence, 0 to 64",
            Argument::Cases => "A file of cases; see docs/CASES.md",
        }
    }
}

/// A command's name, its kind and its help.
#[derive(Clone, Copy)]
pub(crate) struct Form {
    pub(crate) name: &'static str,
    pub(crate) kind: Kind,
    pub(crate) about: &'static str,
    pub(crate) example: &'static str,
}

/// The commands, as the help lists them.
pub(crate) fn forms() -> &'static [Form] {
    &FORMS
}

const FORMS: [Form; 31] = [
    Form {
        name: "verify",
        kind: Kind::Policy(PolicyCommand::Verify),
        about: "Check each callback of a policy, and name the first fault",
        example: "Example: scxsim verify examples/policies/fifo.toml\nprints:  init ok 3\n         enqueue ok 5\n         dispatch ok 3\nFor a callback that isn't safe it prints the first fault and its slot, as in\n         enqueue refused 5 UnusableRegister at 1\nThe status is then 1. docs/VERIFIER.md has the rules.",
    },
    Form {
        name: "verify-json",
        kind: Kind::Policy(PolicyCommand::VerifyJson),
        about: "Check each callback of a policy, and print a JSON object a line",
        example: "Example: scxsim verify-json examples/policies/fifo.toml\nprints:  {\"callback\":\"init\",\"verdict\":\"accepted\",\"instructions\":3}\nand a line for each other callback. schemas/verify.schema.json has the members.",
    },
    Form {
        name: "explain",
        kind: Kind::Policy(PolicyCommand::Explain),
        about: "Show what the verifier knows before each instruction, and why one is refused",
        example: "Example: scxsim explain examples/policies/fifo.toml\nprints:  for each callback the line of verify, and then its instructions, as in\n         init ok 3\n            0  r1 = 0                 nothing\n            1  call 1001  create_dsq  r1 number 0\n            2  exit                   r0 number\nand, below a refused instruction, the reason. docs/FILES.md explains these lines.",
    },
    Form {
        name: "explain-one",
        kind: Kind::Callback(PolicyCommand::ExplainOne),
        about: "Show what the verifier knows before each instruction of one callback",
        example: "Example: scxsim explain-one examples/policies/fifo.toml init\nprints:  init ok 3\n            0  r1 = 0                 nothing\n            1  call 1001  create_dsq  r1 number 0\n            2  exit                   r0 number\nThe status is 1 if the callback is refused. docs/FILES.md explains these lines.",
    },
    Form {
        name: "run",
        kind: Kind::Workload(Account::Trace),
        about: "Run a workload under a policy, and print a line for each event",
        example: "Example: scxsim run examples/policies/short_slices.toml examples/workloads/two_tasks.toml\nprints:  a line for each event, after its time in milliseconds, as in\n         0 wake a\n         0 insert a queue 0\n         0 move a local 0\n         0 run a cpu 0\ndocs/FILES.md lists the lines of a trace.",
    },
    Form {
        name: "report",
        kind: Kind::Workload(Account::Report),
        about: "Run a workload, and print how long each task ran",
        example: "Example: scxsim report examples/policies/short_slices.toml examples/workloads/two_tasks.toml\nprints:  task a run 2 share 5000\n         task b run 2 share 5000\n         total 4\n         policy in force\nrun is in milliseconds, and share in parts of 10000 of the total.",
    },
    Form {
        name: "check",
        kind: Kind::Run(Account::Check),
        about: "Run a workload, and print one line on how the policy ended; the status is 1 if it was ejected",
        example: "Example: scxsim check examples/policies/short_slices.toml examples/workloads/two_tasks.toml\nprints:  policy in force\nor, with status 1, when and why the policy was ejected, as in\n         policy ejected at 0 ms: fault 1 in enqueue at slot 3 (no such queue)\nand, on standard error, the line of the policy's file. docs/CI.md uses it.",
    },
    Form {
        name: "stats",
        kind: Kind::Run(Account::Stats),
        about: "Run a workload, and print tables of run times, waits, CPUs, groups and quotas",
        example: "Example: scxsim stats examples/policies/short_slices.toml examples/workloads/two_tasks.toml\nprints:  a table of tasks, one of CPUs and one of groups\ndocs/FILES.md explains each column.",
    },
    Form {
        name: "stats-csv",
        kind: Kind::Run(Account::StatsCsv),
        about: "Run a workload, and print the metrics of tasks, CPUs and groups as CSV",
        example: "Example: scxsim stats-csv examples/policies/short_slices.toml examples/workloads/two_tasks.toml\nprints:  kind,name,figure,value\n         task,a,run_ms,2\nand a line for each other metric. docs/FILES.md explains them.",
    },
    Form {
        name: "why",
        kind: Kind::Run(Account::Why),
        about: "Run a workload, and explain how the run ended, who waited longest and why",
        example: "Example: scxsim why examples/gallery/undrained.toml examples/workloads/two_tasks.toml\nprints:  five lines on how the policy ended, the longest wait, CPUs that were idle while a\n         task waited, queues that were never drained, and tasks that never ran; then the\n         details of each, 60 lines at most\ndocs/WHY.md explains them.",
    },
    Form {
        name: "why-all",
        kind: Kind::Run(Account::WhyAll),
        about: "Run a workload, and explain how the run ended, who waited longest and why, in full",
        example: "Example: scxsim why-all examples/gallery/undrained.toml examples/workloads/two_tasks.toml\nprints:  what why prints, with each CPU on a line of its own and no limit of lines\ndocs/WHY.md explains them.",
    },
    Form {
        name: "why-json",
        kind: Kind::Run(Account::WhyJson),
        about: "Run a workload, and explain how the run ended, who waited and why, as a JSON object a line",
        example: "Example: scxsim why-json examples/gallery/undrained.toml examples/workloads/two_tasks.toml\nprints:  {\"kind\":\"ending\",\"ms\":4,\"ejected\":false}\n         {\"kind\":\"idle\",\"ms\":4,\"times\":1}\n         {\"kind\":\"wait\",\"task\":\"a\",\"from\":0,\"to\":4,\"ms\":4,\"queues\":[\"queue 0\"]}\nand a line for each other wait, and for each task, callback and queue.\nschemas/why.schema.json has the members of each kind.",
    },
    Form {
        name: "story",
        kind: Kind::Task(Account::Story),
        about: "Run a workload, and tell what happened to one task, with reasons",
        example: "Example: scxsim story examples/policies/short_slices.toml examples/workloads/two_tasks.toml b\nprints:  0 wakes, 0 of 1 CPUs idle\n         0 waits alone in queue 0\n         1 moves from queue 0 to local 0\n         1 runs on cpu 0 after waiting 1 ms, slice 2000000 ns\n         3 stops on cpu 0 after 2 ms: its slice is used up\n         3 waits alone in queue 0\ndocs/WHY.md explains these lines.",
    },
    Form {
        name: "step",
        kind: Kind::Moment(Account::Step),
        about: "Run a workload, and show one millisecond, instruction by instruction",
        example: "Example: scxsim step examples/policies/short_slices.toml examples/workloads/two_tasks.toml 1\nprints:  the running and waiting tasks before that millisecond; each callback that is called\n         in it, with its instructions and their results; the lines of run; and the running\n         and waiting tasks after it, with what the policy's maps hold then\ndocs/WHY.md explains these lines.",
    },
    Form {
        name: "maps",
        kind: Kind::Run(Account::Maps),
        about: "Run a workload, and print what the policy's maps hold at the end",
        example: "Example: scxsim maps examples/policies/simple_vtime.toml examples/workloads/limited.toml\nprints:  map 0 key 0 value 160000 bytes 00 71 02 00 00 00 00 00\nand a line for each other element that isn't zero, or that a hash, a queue or a stack has.\ndocs/FILES.md explains these lines.",
    },
    Form {
        name: "timeline",
        kind: Kind::Run(Account::Timeline),
        about: "Run a workload, and write a trace for Perfetto (Chrome trace format)",
        example: "Example: scxsim timeline examples/policies/short_slices.toml examples/workloads/two_tasks.toml > timeline.json\nwrites:  a file to open in ui.perfetto.dev",
    },
    Form {
        name: "timeline-part",
        kind: Kind::Part(Account::Timeline),
        about: "Run a workload, and write a trace of a part of the run for Perfetto",
        example: "Example: scxsim timeline-part examples/policies/short_slices.toml examples/workloads/two_tasks.toml 1 3 > part.json\nwrites:  the trace of the two milliseconds from 1 to 3",
    },
    Form {
        name: "picture",
        kind: Kind::Run(Account::Picture),
        about: "Run a workload, and draw the run as an SVG picture",
        example: "Example: scxsim picture examples/policies/short_slices.toml examples/workloads/two_tasks.toml > picture.svg\nwrites:  a file for a browser, of at most 2 MB\ndocs/PICTURES.md explains the picture.",
    },
    Form {
        name: "picture-part",
        kind: Kind::Part(Account::Picture),
        about: "Run a workload, and draw a part of the run as an SVG picture",
        example: "Example: scxsim picture-part examples/policies/short_slices.toml examples/workloads/two_tasks.toml 1 3 > part.svg\nwrites:  the picture of the two milliseconds from 1 to 3\ndocs/PICTURES.md explains the picture.",
    },
    Form {
        name: "view",
        kind: Kind::Run(Account::View),
        about: "Run a workload, and write an HTML page of the run to zoom and search in",
        example: "Example: scxsim view examples/policies/short_slices.toml examples/workloads/two_tasks.toml > run.html\nwrites:  a file for a browser, which needs no network\ndocs/PICTURES.md explains the page.",
    },
    Form {
        name: "view-part",
        kind: Kind::Part(Account::View),
        about: "Run a workload, and write an HTML page of a part of the run",
        example: "Example: scxsim view-part examples/policies/short_slices.toml examples/workloads/two_tasks.toml 1 3 > part.html\nwrites:  the page of the two milliseconds from 1 to 3\ndocs/PICTURES.md explains the page.",
    },
    Form {
        name: "gantt",
        kind: Kind::Run(Account::Gantt),
        about: "Run a workload, and draw the run as a chart of plain characters",
        example: "Example: scxsim gantt examples/policies/short_slices.toml examples/workloads/two_tasks.toml\nprints:  a line of characters for each CPU and each task, and a legend below them\ndocs/PICTURES.md explains the chart.",
    },
    Form {
        name: "gantt-part",
        kind: Kind::Part(Account::Gantt),
        about: "Run a workload, and draw a part of the run as a chart of plain characters",
        example: "Example: scxsim gantt-part examples/policies/short_slices.toml examples/workloads/two_tasks.toml 1 3\nprints:  the chart of the two milliseconds from 1 to 3\ndocs/PICTURES.md explains the chart.",
    },
    Form {
        name: "replay",
        kind: Kind::Replay(Account::Replay),
        about: "Run a file of events under a policy, and print the trace",
        example: "Example: scxsim replay examples/policies/short_slices.toml examples/events/two_bursts.toml\nprints:  a line for each event, as run does",
    },
    Form {
        name: "replay-csv",
        kind: Kind::Replay(Account::ReplayCsv),
        about: "Run a file of events under a policy, and print the metrics of its tasks, CPUs and groups as CSV",
        example: "Example: scxsim replay-csv examples/policies/short_slices.toml examples/events/two_bursts.toml\nprints:  kind,name,figure,value\n         task,a,run_ms,6\nand a line for each other metric. docs/FILES.md explains them.",
    },
    Form {
        name: "explore",
        kind: Kind::Explore,
        about: "Try every sequence of events under a policy, and print the shortest one for each problem",
        example: "Example: scxsim explore examples/policies/central.toml examples/workloads/three_tasks.toml events 4\nprints:  found: idle cpu 1 while b waits after 3 events\nand a line of the problems that no sequence has; then the shortest sequence of each problem,\nwith its trace; the longest wait and the most instructions; and last how far the search came.\ndocs/EXPLORE.md explains these lines.",
    },
    Form {
        name: "explore-few",
        kind: Kind::ExploreFew,
        about: "Try every sequence of events with at most K wakes and sleeps, and print the shortest one for each problem",
        example: "Example: scxsim explore-few examples/policies/simple_vtime.toml examples/workloads/three_tasks.toml ms 64 4\nprints:  the lines of explore, and among the first\n         no fault, stall or idle CPU up to 64 ms with 4 wakes and sleeps\ndocs/EXPLORE.md explains these lines.",
    },
    Form {
        name: "exec",
        kind: Kind::Program(ProgramCommand::Exec),
        about: "Run raw BPF instructions as a program without arguments, and print its answer",
        example: "Example: scxsim exec examples/modulo.bin\nprints:  r0 = 7 in 4 steps",
    },
    Form {
        name: "asm",
        kind: Kind::Program(ProgramCommand::Asm),
        about: "Assemble text into raw BPF instructions",
        example: "Example: scxsim asm examples/root.asm > root.new && mv root.new root.bin\nwrites:  200 bytes, which scxsim exec root.bin runs",
    },
    Form {
        name: "dis",
        kind: Kind::Program(ProgramCommand::Dis),
        about: "Disassemble raw BPF instructions into text",
        example: "Example: scxsim dis examples/zero.bin\nwrites:  r0 = 0\n         exit",
    },
    Form {
        name: "cases",
        kind: Kind::Cases,
        about: "Run the commands in files of cases, and compare their output with the expected one",
        example: "Example: scxsim cases crates/scxsim/data/traces.txt\nprints:  each command whose output differs, and last the number of commands, as in\n         17 commands, 0 differ\nThe status is 1 if one differs. docs/CASES.md has the format.",
    },
];
