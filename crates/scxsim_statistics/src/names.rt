ghost use Rattle.std.specs.Prelude.{◌≡◌};
ghost use Rattle.scxsim_statistics.specs.Numbered.{task_name, group_name, limit_of, has_quota};

use crate::gathering::Figures;
use scxsim_trace::Names;
use scxsim_views::QuotaFigures;

/// The name of the task of that number; an empty one if there is none.
#[tactic(auto, using(std::proofs::lemmas::List::get_or_past))]
pub fn task_name(figures: &Figures, number: usize) -> &str
    ensures { result.now ≡ task_name figures.now number }
{
    figures.workload.is_whole();
    match u16::try_from(number) {
        Ok(task) => figures.workload.task(task),
        Err(_) => "",
    }
}

/// The name of the group of that number; an empty one if there is none.
#[tactic(auto, using(std::proofs::lemmas::List::get_or_past, scx_load_workloads::proofs::Numbers::few_groups))]
pub fn group_name(figures: &Figures, number: usize) -> &str
    ensures { result.now ≡ group_name figures.now number }
{
    figures.workload.is_whole();
    match u32::try_from(number) {
        Ok(group) => figures.workload.group(group),
        Err(_) => "",
    }
}

/// The quota of the group of that number, with its figures, if it has one.
pub fn limit_of(figures: &Figures, number: usize) -> Option<(u32, QuotaFigures)>
    ensures { result ≡ limit_of figures.now number }
{
    let group = figures.quotas.groups.get(number).copied()?;
    let quota_ms = group.quota_ms?;
    Some((quota_ms, group))
}

/// True if a group has a quota.
pub fn has_quota(figures: &Figures) -> bool
    ensures { result ≡ has_quota figures.now }
{
    figures
        .quotas
        .groups
        .iter()
        .any(|group| group.quota_ms.is_some())
}
