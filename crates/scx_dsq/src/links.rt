ghost use Rattle.std.specs.Prelude.{◌≡◌, ◌<◌, length, MatchOption, None};
ghost use Rattle.scx_dsq.specs.Links.{link_at, no_link, no_ends, instead, with_ahead, with_next, links_appended, ends_appended, links_prepended, ends_prepended, links_unlinked, ends_unlinked};

use crate::optional_task::OptionalTask;

/// The tasks right before and right after a task in a FIFO queue.
#[derive(Clone, Copy)]
pub struct Link {
    pub ahead: OptionalTask,
    pub next: OptionalTask,
}

/// Who waits first and last in a FIFO queue, and how many wait there.
#[derive(Clone, Copy)]
pub struct Ends {
    pub first: OptionalTask,
    pub last: OptionalTask,
    pub count: usize,
}

impl Link {
    pub fn none() -> Link
        ensures { result ≡ no_link }
    {
        Link {
            ahead: OptionalTask::none(),
            next: OptionalTask::none(),
        }
    }
}

impl Ends {
    pub fn none() -> Ends
        ensures { result ≡ no_ends }
    {
        Ends {
            first: OptionalTask::none(),
            last: OptionalTask::none(),
            count: 0,
        }
    }
}

/// Puts a task at the end of a queue.
pub fn append(links: &mut [Link], ends: &mut Ends, task: u32)
    requires task { task < length links.old }
    requires last { MatchOption ends.old.last (Unit {0}) (λ t. t < length links.old) }
    requires count { ends.old.count < length links.old }
    ensures links { links.new ≡ links_appended links.old ends.old task }
    ensures ends { ends.new ≡ ends_appended ends.old task }
{
    let here = OptionalTask::some(task);
    links[task as usize] = Link {
        ahead: ends.last,
        next: OptionalTask::none(),
    };
    lead_on(links, ends.last, &mut ends.first, here);
    ends.last = here;
    ends.count += 1;
}

/// Puts a task at the front of a queue.
pub fn prepend(links: &mut [Link], ends: &mut Ends, task: u32)
    requires task { task < length links.old }
    requires first { MatchOption ends.old.first (Unit {0}) (λ t. t < length links.old) }
    requires count { ends.old.count < length links.old }
    ensures links { links.new ≡ links_prepended links.old ends.old task }
    ensures ends { ends.new ≡ ends_prepended ends.old task }
{
    let here = OptionalTask::some(task);
    links[task as usize] = Link {
        ahead: OptionalTask::none(),
        next: ends.first,
    };
    lead_back(links, ends.first, &mut ends.last, here);
    ends.first = here;
    ends.count += 1;
}

/// Takes a task out of a queue.
pub fn unlink(links: &mut [Link], ends: &mut Ends, task: u32)
    requires task { task < length links.old }
    requires ahead { MatchOption (link_at links.old task).ahead (Unit {0})
        (λ t. t < length links.old) }
    requires next { MatchOption (link_at links.old task).next (Unit {0})
        (λ t. t < length links.old) }
    requires count { 0 < ends.old.count }
    ensures links { links.new ≡ links_unlinked links.old task }
    ensures ends { ends.new ≡ ends_unlinked links.old ends.old task }
{
    let Link { ahead, next } = links[task as usize];
    lead_back(links, next, &mut ends.last, ahead);
    lead_on(links, ahead, &mut ends.first, next);
    ends.count -= 1;
}

/// Takes out the task that waits first in a queue.
#[inline(always)]
pub fn unlink_first(links: &mut [Link], ends: &mut Ends, task: u32)
    requires task { task < length links.old }
    requires ahead { (link_at links.old task).ahead ≡ None }
    requires next { MatchOption (link_at links.old task).next (Unit {0})
        (λ t. t < length links.old) }
    requires count { 0 < ends.old.count }
    ensures links { links.new ≡ links_unlinked links.old task }
    ensures ends { ends.new ≡ ends_unlinked links.old ends.old task }
{
    let next = links[task as usize].next;
    lead_back(links, next, &mut ends.last, OptionalTask::none());
    ends.first = next;
    ends.count -= 1;
}

/// Sets the task right before one; if there is no such task, the last one.
fn lead_back(links: &mut [Link], task: OptionalTask, last: &mut OptionalTask, ahead: OptionalTask)
    requires { MatchOption task (Unit {0}) (λ t. t < length links.old) }
    ensures links { links.new ≡ with_ahead links.old task ahead }
    ensures last { last.new ≡ instead task ahead last.old }
{
    match task.index() {
        Some(at) => links[at].ahead = ahead,
        None => *last = ahead,
    }
}

/// Sets the task right after one; if there is no such task, the first one.
fn lead_on(links: &mut [Link], task: OptionalTask, first: &mut OptionalTask, next: OptionalTask)
    requires { MatchOption task (Unit {0}) (λ t. t < length links.old) }
    ensures links { links.new ≡ with_next links.old task next }
    ensures first { first.new ≡ instead task next first.old }
{
    match task.index() {
        Some(at) => links[at].next = next,
        None => *first = next,
    }
}
