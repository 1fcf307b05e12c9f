ghost use Rattle.std.specs.Prelude.{◌≡◌, ◌<◌, IfSome, slice_get};
ghost use Rattle.scx_isa_semantics.specs.declared.host_tables.TheConstants.{MAX_ARGUMENTS};
ghost use Rattle.scx_isa_semantics.specs.Arithmetic.{at_distance};
ghost use Rattle.scx_isa_semantics.specs.Memory.{size_bytes};
ghost use Rattle.scx_isa_semantics.specs.HostTables.{field_at, field_known, is_known_field, is_writable, helper_at, helper_known, fits_map, is_known, is_of_map, is_plain_helper, map_parameters, parameters, answers_task, is_allowed};

use crate::callbacks::Callback;
use crate::map_kinds::MapKind;
use crate::operations::Size;
use crate::rules::Rules;

/// A task of the machine, numbered from 0.
#[derive(Clone, Copy, Debug, PartialEq, Eq)]
pub struct TaskId(pub u16);

/// A field of a task's record, which a program loads and stores whole.
#[derive(Clone, Copy, PartialEq, Eq)]
pub enum Field {
    Pid,
    Weight,
    /// The remaining slice, in nanoseconds.
    Slice,
    DsqVtime,
    PrevCpu,
    Group,
    /// The run time of the task so far, in nanoseconds.
    RunNs,
    /// A bit for each CPU on which the task may run. Known by Linux rules alone.
    Cpus,
}

/// A function that a program may call on one of its maps, beside the look-up of an element.
#[derive(Clone, Copy, PartialEq, Eq)]
pub enum MapHelper {
    /// Writes the value of a key.
    Update,
    /// Takes a key out.
    Delete,
    /// Appends a value.
    Push,
    /// Takes a value out, and gives it.
    Pop,
    /// Gives the value that `Pop` would.
    Peek,
    /// Looks up an element in the copy of a CPU.
    LookUpPerCpu,
}

/// A function of the host that a program may call. Those from `KickCpu` on are known by Linux rules
/// alone.
#[derive(Clone, Copy, PartialEq, Eq)]
pub enum Helper {
    MapLookupElem,
    KtimeGetNs,
    CreateDsq,
    DsqInsert,
    DsqInsertVtime,
    DsqMoveToLocal,
    SelectCpuDfl,
    CpuIdle,
    TaskByPid,
    DsqNrQueued,
    KickCpu,
    SmpProcessorId,
    Exit,
    CpuCurr,
    DsqPeek,
    TaskRunning,
    TaskCpu,
    PickIdle,
    ClaimIdle,
    TimerStart,
    TimerCancel,
    PrandomU32,
    MayRun,
    OnMap(MapHelper),
}

/// The most arguments that a helper takes, in r1 to r5.
pub const MAX_ARGUMENTS: usize = 5;

/// The kind of one argument of a helper.
#[derive(Clone, Copy)]
pub enum Parameter {
    /// A reference to a map with keys.
    Map,
    /// A reference to a map of which each CPU has a copy.
    PerCpuMap,
    /// A reference to a queue or a stack.
    LineMap,
    /// A pointer to the bytes of the map's key.
    Key,
    /// A pointer to as many bytes as a value of the map has, which are read.
    Value,
    /// A pointer to as many bytes as a value of the map has, which are written.
    Room,
    /// A pointer to a task.
    Task,
    Number,
}

impl Field {
    /// The field that an access of that size takes whole, at an offset in bytes from the beginning of
    /// the task's record.
    pub fn at(offset: i16, size: Size) -> Option<Field>
        ensures { result ≡ field_at (size_bytes size) (at_distance 0 offset) }
    {
        match (offset, size) {
            (0, Size::Word) => Some(Field::Pid),
            (4, Size::Word) => Some(Field::Weight),
            (8, Size::DoubleWord) => Some(Field::Slice),
            (16, Size::DoubleWord) => Some(Field::DsqVtime),
            (24, Size::Word) => Some(Field::PrevCpu),
            (28, Size::Word) => Some(Field::Group),
            (32, Size::DoubleWord) => Some(Field::RunNs),
            (40, Size::DoubleWord) => Some(Field::Cpus),
            _ => None,
        }
    }

    /// The field that an access of that size takes whole there, if a machine by these rules has it.
    pub fn known(offset: i16, size: Size, rules: Rules) -> Option<Field>
        ensures { result ≡ field_known rules (size_bytes size) (at_distance 0 offset) }
    {
        let field = Field::at(offset, size)?;
        if field.is_known(rules) {
            Some(field)
        } else {
            None
        }
    }

    /// True if a machine by these rules has it.
    pub fn is_known(self, rules: Rules) -> bool
        ensures { result ≡ is_known_field self rules }
    {
        !matches!((self, rules), (Field::Cpus, Rules::Plain))
    }

    /// True if a program may store to it.
    pub fn is_writable(self) -> bool
        ensures { result ≡ is_writable self }
    {
        matches!(self, Field::Slice | Field::DsqVtime)
    }
}

impl MapHelper {
    /// The kind of the argument with this number, 0 for r1; `None` past the last one.
    pub fn parameter(self, argument: usize) -> Option<Parameter>
        ensures parameter { result ≡ slice_get (map_parameters self) argument }
        ensures most { IfSome result (λ parameter. argument < MAX_ARGUMENTS) }
    {
        match (self, argument) {
            (MapHelper::Update | MapHelper::Delete, 0) => Some(Parameter::Map),
            (MapHelper::LookUpPerCpu, 0) => Some(Parameter::PerCpuMap),
            (MapHelper::Push | MapHelper::Pop | MapHelper::Peek, 0) => Some(Parameter::LineMap),
            (MapHelper::Update | MapHelper::Delete | MapHelper::LookUpPerCpu, 1) => {
                Some(Parameter::Key)
            }
            (MapHelper::Push, 1) | (MapHelper::Update, 2) => Some(Parameter::Value),
            (MapHelper::Pop | MapHelper::Peek, 1) => Some(Parameter::Room),
            (MapHelper::Push | MapHelper::LookUpPerCpu, 2) | (MapHelper::Update, 3) => {
                Some(Parameter::Number)
            }
            _ => None,
        }
    }
}

impl Parameter {
    /// True if it takes a map, and maps of that kind.
    pub fn fits_map(self, kind: MapKind) -> bool
        ensures { result ≡ fits_map self kind }
    {
        match self {
            Parameter::Map => !matches!(kind, MapKind::Queue | MapKind::Stack),
            Parameter::PerCpuMap => matches!(kind, MapKind::PerCpu),
            Parameter::LineMap => matches!(kind, MapKind::Queue | MapKind::Stack),
            _ => false,
        }
    }
}

impl Helper {
    /// The helper of that number.
    pub fn new(number: i32) -> Option<Helper>
        ensures { result ≡ helper_at number }
    {
        match number {
            1 => Some(Helper::MapLookupElem),
            5 => Some(Helper::KtimeGetNs),
            1001 => Some(Helper::CreateDsq),
            1002 => Some(Helper::DsqInsert),
            1003 => Some(Helper::DsqInsertVtime),
            1004 => Some(Helper::DsqMoveToLocal),
            1005 => Some(Helper::SelectCpuDfl),
            1006 => Some(Helper::CpuIdle),
            1007 => Some(Helper::TaskByPid),
            1008 => Some(Helper::DsqNrQueued),
            1009 => Some(Helper::KickCpu),
            8 => Some(Helper::SmpProcessorId),
            1010 => Some(Helper::Exit),
            1011 => Some(Helper::CpuCurr),
            1012 => Some(Helper::DsqPeek),
            1013 => Some(Helper::TaskRunning),
            1014 => Some(Helper::TaskCpu),
            1015 => Some(Helper::PickIdle),
            1016 => Some(Helper::ClaimIdle),
            1017 => Some(Helper::TimerStart),
            1018 => Some(Helper::TimerCancel),
            7 => Some(Helper::PrandomU32),
            1019 => Some(Helper::MayRun),
            2 => Some(Helper::OnMap(MapHelper::Update)),
            3 => Some(Helper::OnMap(MapHelper::Delete)),
            87 => Some(Helper::OnMap(MapHelper::Push)),
            88 => Some(Helper::OnMap(MapHelper::Pop)),
            89 => Some(Helper::OnMap(MapHelper::Peek)),
            195 => Some(Helper::OnMap(MapHelper::LookUpPerCpu)),
            _ => None,
        }
    }

    /// The helper of that number, if a machine by these rules has it.
    pub fn known(number: i32, rules: Rules) -> Option<Helper>
        ensures { result ≡ helper_known rules number }
    {
        let helper = Helper::new(number)?;
        if helper.is_known(rules) {
            Some(helper)
        } else {
            None
        }
    }

    /// True if a machine by these rules has it.
    pub fn is_known(self, rules: Rules) -> bool
        ensures { result ≡ is_known self rules }
    {
        match rules {
            Rules::Plain => self.is_plain(),
            Rules::Linux => true,
        }
    }

    /// True if a machine by plain rules has it.
    fn is_plain(self) -> bool
        ensures { result ≡ is_plain_helper self }
    {
        matches!(
            self,
            Helper::MapLookupElem
                | Helper::KtimeGetNs
                | Helper::CreateDsq
                | Helper::DsqInsert
                | Helper::DsqInsertVtime
                | Helper::DsqMoveToLocal
                | Helper::SelectCpuDfl
                | Helper::CpuIdle
                | Helper::TaskByPid
                | Helper::DsqNrQueued
        )
    }

    /// True if it answers a task, or 0 where there is none.
    pub fn answers_task(self) -> bool
        ensures { result ≡ answers_task self }
    {
        matches!(self, Helper::TaskByPid | Helper::CpuCurr | Helper::DsqPeek)
    }

    /// True if it works on a map of the program, and asks the host nothing but the CPU at hand.
    pub fn is_of_map(self) -> bool
        ensures { result ≡ is_of_map self }
    {
        matches!(self, Helper::MapLookupElem | Helper::OnMap(_))
    }

    /// The kind of the argument with this number, 0 for r1; `None` past the last one.
    pub fn parameter(self, argument: usize) -> Option<Parameter>
        ensures parameter { result ≡ slice_get (parameters self) argument }
        ensures most { IfSome result (λ parameter. argument < MAX_ARGUMENTS) }
    {
        match (self, argument) {
            (Helper::MapLookupElem, 0) => Some(Parameter::Map),
            (Helper::MapLookupElem, 1) => Some(Parameter::Key),
            (Helper::OnMap(helper), _) => helper.parameter(argument),
            (
                Helper::DsqInsert
                | Helper::DsqInsertVtime
                | Helper::SelectCpuDfl
                | Helper::TaskRunning
                | Helper::TaskCpu
                | Helper::MayRun,
                0,
            ) => Some(Parameter::Task),
            (Helper::MayRun, 1) => Some(Parameter::Number),
            (Helper::DsqInsert, 1..=3) | (Helper::DsqInsertVtime, 1..=4) => Some(Parameter::Number),
            (Helper::KickCpu | Helper::Exit | Helper::PickIdle | Helper::TimerStart, 0..=1) => {
                Some(Parameter::Number)
            }
            (
                Helper::CreateDsq
                | Helper::DsqMoveToLocal
                | Helper::CpuIdle
                | Helper::TaskByPid
                | Helper::DsqNrQueued
                | Helper::CpuCurr
                | Helper::DsqPeek
                | Helper::ClaimIdle
                | Helper::TimerCancel,
                0,
            ) => Some(Parameter::Number),
            _ => None,
        }
    }

    /// True if a program may call it in this callback.
    pub fn is_allowed(self, callback: Callback) -> bool
        ensures { result ≡ is_allowed self callback }
    {
        match (self, callback) {
            (_, Callback::Plain) => false,
            (Helper::CreateDsq, _) => callback == Callback::Init,
            (Helper::DsqMoveToLocal, _) => callback == Callback::Dispatch,
            (Helper::SelectCpuDfl, _) => {
                matches!(callback, Callback::SelectCpu | Callback::Enqueue)
            }
            (Helper::DsqInsert | Helper::DsqInsertVtime | Helper::CpuIdle, _) => matches!(
                callback,
                Callback::SelectCpu | Callback::Enqueue | Callback::Dispatch
            ),
            (Helper::KickCpu | Helper::PickIdle | Helper::ClaimIdle, _) => callback.may_kick(),
            _ => true,
        }
    }
}
