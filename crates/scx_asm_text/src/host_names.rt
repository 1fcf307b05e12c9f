use scx_isa_semantics::{Field, Helper, MapHelper};

/// A helper's name, as `docs/POLICIES.md` and listings have it.
pub fn helper_name(helper: Helper) -> &'static str {
    match helper {
        Helper::MapLookupElem => "map_lookup_elem",
        Helper::KtimeGetNs => "ktime_get_ns",
        Helper::CreateDsq => "create_dsq",
        Helper::DsqInsert => "dsq_insert",
        Helper::DsqInsertVtime => "dsq_insert_vtime",
        Helper::DsqMoveToLocal => "dsq_move_to_local",
        Helper::SelectCpuDfl => "select_cpu_dfl",
        Helper::CpuIdle => "cpu_idle",
        Helper::TaskByPid => "task_by_pid",
        Helper::DsqNrQueued => "dsq_nr_queued",
        Helper::KickCpu => "kick_cpu",
        Helper::SmpProcessorId => "get_smp_processor_id",
        Helper::Exit => "exit",
        Helper::CpuCurr => "cpu_curr",
        Helper::DsqPeek => "dsq_peek",
        Helper::TaskRunning => "task_running",
        Helper::TaskCpu => "task_cpu",
        Helper::PickIdle => "pick_idle",
        Helper::ClaimIdle => "claim_idle",
        Helper::TimerStart => "timer_start",
        Helper::TimerCancel => "timer_cancel",
        Helper::PrandomU32 => "get_prandom_u32",
        Helper::MayRun => "may_run",
        Helper::OnMap(helper) => map_helper_name(helper),
    }
}

/// The name of a helper on a map.
fn map_helper_name(helper: MapHelper) -> &'static str {
    match helper {
        MapHelper::Update => "map_update_elem",
        MapHelper::Delete => "map_delete_elem",
        MapHelper::Push => "map_push_elem",
        MapHelper::Pop => "map_pop_elem",
        MapHelper::Peek => "map_peek_elem",
        MapHelper::LookUpPerCpu => "map_lookup_percpu_elem",
    }
}

/// The name of a field of a task's record.
pub fn field_name(field: Field) -> &'static str {
    match field {
        Field::Pid => "pid",
        Field::Weight => "weight",
        Field::Slice => "slice",
        Field::DsqVtime => "dsq_vtime",
        Field::PrevCpu => "prev_cpu",
        Field::Group => "group",
        Field::RunNs => "run_ns",
        Field::Cpus => "cpus",
    }
}
