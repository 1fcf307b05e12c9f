ghost use Rattle.std.specs.Prelude.{ℕ, ◌≡◌, ◌+◌, ◌*◌, ◌/◌, ◌<◌, ◌≤◌, ◌∷◌, ◌++◌, [], true, length, Contains, IfSome, take, slice_index_or};
ghost use Rattle.scx_sched_world.specs.Helpers.{alarm_at, cpus_of};
ghost use Rattle.scx_explore_states.specs.Rows.{entries_of};
ghost use Rattle.scx_explore_states.specs.Words.{number_in};
ghost use Rattle.scx_explore_states.specs.Written.{AreAlike, AreKnown, IsFair, IsWritten, alarm_words, cpu_of_alarm, home_at, joined, kept_word, linux_words, marks_words, own_order, past_tick, row_in, row_words, rows_words, rules_words, spot_words, state_words, task_in, task_words, time_words, timer_words, until_due, usage_words, used_words};

use crate::form::{Form, MOST_TASKS};
use crate::map_words::put_maps;
use crate::order::Order;
use crate::queue_numbers::QueueNumbers;
use crate::rows::{Row, kept_tasks, rows_by, rows_of};
use crate::words::{Words, put};
use scx_isa::{Field, Rules, TaskId};
use scx_sched::{Entry, Sim};
use scx_sched_world::{Alarm, Marks};
use scx_vm::Env;

/// The task at each place.
type TaskOrder = [u8; MOST_TASKS];

impl Form {
    /// Overwrites the words with the state, and the tasks that began to run while another waits. The queues in which
    /// tasks wait have numbers from now on. If there is no room for all of them, there are no words.
    pub fn write(self, sim: &Sim, began: u64, words: &mut Words) {
        let rows = rows_of(self, sim, &mut words.numbers);
        let order = self.order_of(sim, &rows, began);
        let first = order.by_places(began);
        if !self.write_words(sim, first, &rows, &order.tasks(), &mut words.words) {
            words.words.clear();
        }
    }

    /// Writes the state, if queues have these numbers. Returns false if the words have no room, or a task waits in
    /// a queue without a number.
    pub fn write_state(
        self,
        sim: &Sim,
        began: u64,
        numbers: &QueueNumbers,
        words: &mut Vec<u64>,
    ) -> bool
        ensures { result ≡ true → IsWritten self numbers.now words.new.items sim.now }
    {
        let rows = rows_by(self, sim, numbers);
        let order = self.order_of(sim, &rows, began);
        let tasks = order.tasks();
        let first = order.by_places(began);
        if !self.write_words(sim, first, &rows, &tasks, words) {
            return false;
        }
        if !self.is_fair(sim, &tasks) {
            return false;
        }
        are_known(sim, numbers)
    }

    /// The tasks that began to run while another waits, in a state written as those words with these queue numbers.
    pub fn began_in(self, sim: &Sim, state: &[u64], numbers: &QueueNumbers) -> u64 {
        let began = match state.first() {
            Some(began) => *began,
            None => 0,
        };
        if self.names {
            return began;
        }
        let rows = rows_by(self, sim, numbers);
        Order::of(sim, &rows).by_tasks(began)
    }

    /// If tasks are told apart, each is at its own place.
    #[inline(always)]
    fn order_of(self, sim: &Sim, rows: &[Row; MOST_TASKS], began: u64) -> Order {
        if self.names {
            return Order::OWN;
        }
        Order::settled(sim, rows, began)
    }

    /// Writes the first word and after it those of the state, in place of those in the list.
    fn write_words(
        self,
        sim: &Sim,
        first: u64,
        rows: &[Row; MOST_TASKS],
        order: &TaskOrder,
        words: &mut Vec<u64>,
    ) -> bool
        ensures { result ≡ true → words.new.items
            ≡ first ∷ state_words self rows.now order.now sim.now }
    {
        words.clear();
        if !put(words, first) {
            return false;
        }
        self.put_state(sim, rows, order, words)
    }

    /// Puts all words but the first one.
    fn put_state(
        self,
        sim: &Sim,
        rows: &[Row; MOST_TASKS],
        order: &TaskOrder,
        words: &mut Vec<u64>,
    ) -> bool
        ensures { result ≡ true → words.new.items
            ≡ words.old.items ++ state_words self rows.now order.now sim.now }
    {
        let count = kept_tasks(sim);
        if !self.put_tasks(rows, order, count, words) {
            return false;
        }
        if !self.put_times(sim, words) {
            return false;
        }
        if !put_usages(sim, words) {
            return false;
        }
        if !put_rules(sim, words) {
            return false;
        }
        put_maps(self.map_words, sim.maps(), words)
    }

    fn put_tasks(
        self,
        rows: &[Row; MOST_TASKS],
        order: &TaskOrder,
        tasks: usize,
        words: &mut Vec<u64>,
    ) -> bool
        requires { tasks ≤ 8 }
        ensures { result ≡ true → words.new.items
            ≡ words.old.items ++ task_words self rows.now order.now tasks }
    {
        if !put_spots(rows, order, (tasks + 1) / 2, words) {
            return false;
        }
        self.put_rows(rows, order, tasks, words)
    }

    fn put_rows(
        self,
        rows: &[Row; MOST_TASKS],
        order: &TaskOrder,
        tasks: usize,
        words: &mut Vec<u64>,
    ) -> bool
        requires { tasks ≤ 8 }
        ensures { result ≡ true → words.new.items
            ≡ words.old.items ++ rows_words self rows.now order.now tasks }
    {
        for place in 0..tasks {
            if !self.put_row(row_in(rows, order, place), words) {
                return false;
            }
        }
        true
    }

    fn put_row(self, row: Row, words: &mut Vec<u64>) -> bool
        ensures { result ≡ true → words.new.items ≡ words.old.items ++ row_words self row }
    {
        if !put(words, row.slice) {
            return false;
        }
        if !put_kept(self.keys, row.key, words) {
            return false;
        }
        if !put_kept(self.vtime, row.vtime, words) {
            return false;
        }
        put_kept(self.run_ns, row.run_ns, words)
    }

    #[tactic(auto, using(crate::proofs::Putting::time_parts))]
    fn put_times(self, sim: &Sim, words: &mut Vec<u64>) -> bool
        ensures { result ≡ true → words.new.items
            ≡ words.old.items ++ time_words self sim.now.state.world }
    {
        let (clock, pushes) = (sim.clock(), sim.world().pushes());
        if !put_kept(self.clock, clock, words) {
            return false;
        }
        if !put_kept(self.pushes, pushes, words) {
            return false;
        }
        let random = sim.world().random();
        put_kept(self.random, random, words)
    }

    /// True if each task is at its own place; or somewhere, at its own place or at that of one that is like it, where
    /// tasks aren't told apart.
    fn is_fair(self, sim: &Sim, order: &TaskOrder) -> bool
        ensures { result ≡ true → IsFair self sim.now.state.world order.now }
    {
        if is_same(order, &[0, 1, 2, 3, 4, 5, 6, 7]) {
            return true;
        }
        if self.names {
            return false;
        }
        if !is_whole(order) {
            return false;
        }
        are_alike(sim, order)
    }
}

/// True if each queue in which a task waits has a number.
fn are_known(sim: &Sim, numbers: &QueueNumbers) -> bool
    ensures { result ≡ true → AreKnown numbers.now (entries_of sim.now.state.world) }
{
    is_known(sim.entry(0), numbers)
        && is_known(sim.entry(1), numbers)
        && is_known(sim.entry(2), numbers)
        && is_known(sim.entry(3), numbers)
        && is_known(sim.entry(4), numbers)
        && is_known(sim.entry(5), numbers)
        && is_known(sim.entry(6), numbers)
        && is_known(sim.entry(7), numbers)
}

fn is_known(entry: Option<Entry>, numbers: &QueueNumbers) -> bool
    ensures { result ≡ true → IfSome entry (λ e. number_in numbers.now e.queue < length numbers.now) }
{
    match entry {
        Some(entry) => numbers.number_of(entry.queue) < numbers.len(),
        None => true,
    }
}

fn put_kept(is_kept: bool, word: u64, words: &mut Vec<u64>) -> bool
    ensures { result ≡ true → words.new.items ≡ words.old.items ++ kept_word is_kept word }
{
    if is_kept { put(words, word) } else { true }
}

fn put_spots(
    rows: &[Row; MOST_TASKS],
    order: &TaskOrder,
    pairs: usize,
    words: &mut Vec<u64>,
) -> bool
    requires { pairs ≤ 4 }
    ensures { result ≡ true → words.new.items
        ≡ words.old.items ++ spot_words rows.now order.now pairs }
{
    for pair in 0..pairs {
        let first = row_in(rows, order, 2 * pair);
        let second = row_in(rows, order, 2 * pair + 1);
        if !put(words, spots_of(first, second)) {
            return false;
        }
    }
    true
}

/// Half a word of each.
fn spots_of(first: Row, second: Row) -> u64
    ensures { result ≡ joined 32 first.spot second.spot }
{
    first.spot << 32 | second.spot
}

/// Where a group has a quota: what each has used, and the clock, with which periods begin.
fn put_usages(sim: &Sim, words: &mut Vec<u64>) -> bool
    ensures { result ≡ true → words.new.items
        ≡ words.old.items ++ usage_words sim.now.state.world }
{
    if !sim.world().is_limited() {
        return true;
    }
    put_limited(sim, words)
}

/// The clock and what each group has used.
fn put_limited(sim: &Sim, words: &mut Vec<u64>) -> bool
    ensures { result ≡ true → words.new.items ≡ words.old.items
        ++ sim.now.state.world.clock
        ∷ used_words sim.now.state.world.tree (length sim.now.state.world.tree.groups) }
{
    let (clock, groups) = (sim.clock(), sim.groups());
    if !put(words, clock) {
        return false;
    }
    put_used(sim, groups, words)
}

/// The usages of the first `groups` groups.
fn put_used(sim: &Sim, groups: u32, words: &mut Vec<u64>) -> bool
    requires { groups ≤ length sim.now.state.world.tree.groups }
    ensures { result ≡ true → words.new.items
        ≡ words.old.items ++ used_words sim.now.state.world.tree groups }
{
    for group in 0..groups {
        if !put(words, sim.usage(group)) {
            return false;
        }
    }
    true
}

/// Under Linux rules: the clock from tick to tick, the marks of CPUs, and each timer.
fn put_rules(sim: &Sim, words: &mut Vec<u64>) -> bool
    ensures { result ≡ true → words.new.items ≡ words.old.items ++ rules_words sim.now.state }
{
    match sim.world().rules() {
        Rules::Plain => true,
        Rules::Linux => put_by_linux(sim, words),
    }
}

/// The clock from tick to tick, the marks of CPUs, and each timer.
fn put_by_linux(sim: &Sim, words: &mut Vec<u64>) -> bool
    ensures { result ≡ true → words.new.items ≡ words.old.items
        ++ past_tick sim.now.state.policy.tick_ms sim.now.state.world.clock
        ∷ linux_words sim.now.state.world }
{
    let (tick, clock) = (sim.policy().tick_ms(), sim.clock());
    if !put(words, past_tick(tick, clock)) {
        return false;
    }
    put_linux(sim, words)
}

/// The marks of CPUs, and each timer.
fn put_linux(sim: &Sim, words: &mut Vec<u64>) -> bool
    ensures { result ≡ true → words.new.items
        ≡ words.old.items ++ linux_words sim.now.state.world }
{
    let world = sim.world();
    let (marks, timers) = (world.marks(), world.timers());
    if !put_marks(marks, words) {
        return false;
    }
    put_timers(sim, timers, words)
}

/// The CPUs that are claimed, kicked and preempted.
#[tactic(auto, using(crate::proofs::Putting::marks_parts))]
fn put_marks(marks: Marks, words: &mut Vec<u64>) -> bool
    ensures { result ≡ true → words.new.items ≡ words.old.items ++ marks_words marks }
{
    if !put(words, marks.claimed.bits()) {
        return false;
    }
    if !put(words, marks.kicked.bits()) {
        return false;
    }
    put(words, marks.preempted.bits())
}

/// The first `timers` timers.
fn put_timers(sim: &Sim, timers: u32, words: &mut Vec<u64>) -> bool
    ensures { result ≡ true → words.new.items
        ≡ words.old.items ++ timer_words sim.now.state.world timers }
{
    for timer in 0..timers {
        if !put_timer(sim, timer, words) {
            return false;
        }
    }
    true
}

/// The time until a timer is due, and the processor of its callback.
#[tactic(auto, using(crate::proofs::Putting::alarm_parts))]
fn put_timer(sim: &Sim, timer: u32, words: &mut Vec<u64>) -> bool
    ensures { result ≡ true → words.new.items ≡ words.old.items
        ++ alarm_words sim.now.state.world.clock (alarm_at sim.now.state.world timer) }
{
    let (clock, alarm) = (sim.clock(), sim.world().alarm(timer));
    if !put(words, until_due(clock, alarm)) {
        return false;
    }
    put(words, cpu_of_alarm(alarm))
}

/// The milliseconds until a timer is due; 0 where it isn't started.
fn until_due(clock: u64, alarm: Option<Alarm>) -> u64
    ensures { result ≡ until_due clock alarm }
{
    match alarm {
        Some(alarm) => alarm.due.saturating_sub(clock),
        None => 0,
    }
}

/// The processor of a timer's callback; 0 where it isn't started.
fn cpu_of_alarm(alarm: Option<Alarm>) -> u64
    ensures { result ≡ cpu_of_alarm alarm }
{
    match alarm {
        Some(alarm) => u64::from(alarm.cpu),
        None => 0,
    }
}

/// The milliseconds since the last tick; 0 if slices end exactly.
fn past_tick(tick: u64, clock: u64) -> u64
    ensures { result ≡ past_tick tick clock }
{
    if tick == 0 { 0 } else { clock % tick }
}

/// The row of the task at that place.
#[tactic(auto, using(crate::proofs::Placed::any_default))]
fn row_in(rows: &[Row; MOST_TASKS], order: &TaskOrder, place: usize) -> Row
    ensures { result ≡ row_in rows.now order.now place }
{
    rows[task_in(order, place)]
}

/// The task at that place.
fn task_in(order: &TaskOrder, place: usize) -> usize
    ensures task { result ≡ task_in order.now place }
    ensures few { result < 8 }
{
    usize::from(order[place % MOST_TASKS]) % MOST_TASKS
}

fn is_same(one: &[u8], other: &[u8]) -> bool
    ensures { result ≡ true → one.now ≡ other.now }
{
    one == other
}

/// True if each task is at some place.
fn is_whole(order: &TaskOrder) -> bool
    ensures { result ≡ true → (t : ℕ) → t < 8 → Contains order.now t }
{
    for task in 0..8u8 {
        if !has(order, task) {
            return false;
        }
    }
    true
}

#[tactic(auto, using(crate::proofs::Placed::contains_at))]
fn has(order: &[u8], task: u8) -> bool
    ensures { result ≡ true → Contains order.now task }
{
    for place in 0..order.len() {
        if order[place] == task {
            return true;
        }
    }
    false
}

/// True if each task is at its own place or at that of another one of its group that may run on the same CPUs.
fn are_alike(sim: &Sim, order: &TaskOrder) -> bool
    ensures { result ≡ true → (p : ℕ) → p < 8
        → AreAlike sim.now.state.world (task_in order.now p) p }
{
    for place in 0..8u16 {
        if !is_alike(sim, order, place) {
            return false;
        }
    }
    true
}

fn is_alike(sim: &Sim, order: &TaskOrder, place: u16) -> bool
    ensures { result ≡ true → AreAlike sim.now.state.world (task_in order.now place) place }
{
    let task = task_in(order, usize::from(place)) as u16;
    home_at(sim, task) == home_at(sim, place) && cpus_of(sim, task) == cpus_of(sim, place)
}

/// The group of a task; a number that no group has where there is no such task.
pub(crate) fn home_at(sim: &Sim, task: u16) -> u64
    ensures { result ≡ home_at sim.now.state.world task }
{
    if task < sim.tasks() {
        sim.world().load(TaskId(task), Field::Group)
    } else {
        u64::MAX
    }
}

/// The CPUs on which the task may run, one bit each.
pub(crate) fn cpus_of(sim: &Sim, task: u16) -> u64
    ensures { result ≡ cpus_of sim.now.state.world task }
{
    sim.world().load(TaskId(task), Field::Cpus)
}
