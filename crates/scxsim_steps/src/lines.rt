ghost use Rattle.std.specs.Prelude.{false};

use crate::doings::{Before, push_after, push_answer, push_begun};
use scx_asm_text::Canonical;
use scx_isa::{Callback, Program};
use scx_load_workloads::Workload;
use scx_sched_world::World;
use scx_vm::Arg;
use scx_vm_tagged::{Core, Watch};
use scxsim_output::Text;
use std::alloc::Global;

/// Makes a line for each instruction of one run of a program.
#[derive(Drop)]
pub(crate) struct Lines<'a, 'b> {
    names: &'a Workload,
    program: &'b Program,
    /// The width of the column of instructions.
    width: usize,
    text: &'b mut Text,
    /// The instruction whose line isn't in the text yet, and what is said of it so far.
    before: Option<Before>,
    words: Text,
    /// The CPUs that the run has kicked.
    kicked: Text,
}

impl<'a, 'b> Lines<'a, 'b> {
    pub(crate) fn new(
        alloc: Global,
        names: &'a Workload,
        program: &'b Program,
        text: &'b mut Text,
    ) -> Lines<'a, 'b> {
        Lines {
            names,
            program,
            width: width_of(program),
            text,
            before: None,
            words: Text::new(alloc),
            kicked: Text::new(alloc),
        }
    }

    /// Ends the run of a callback that was given that first, with its answer and the world after it.
    pub(crate) fn end(&mut self, callback: Callback, first: Arg, answer: u64, world: &World) {
        if callback.answers() {
            push_answer(answer, &mut self.words);
        }
        self.finish(None, world);
        if callback == Callback::Timer {
            self.push_timer(first);
        }
    }

    /// Tells that a timer ran, and the CPUs that it kicked.
    fn push_timer(&mut self, timer: Arg) {
        let Arg::Num(timer) = timer else {
            return;
        };
        self.text.number("  timer ", timer);
        self.text.push(" ran");
        if !self.kicked.is_empty() {
            self.text.push(" and kicked cpu ");
            self.text.append(&self.kicked);
        }
        self.text.push("\n");
    }

    /// Keeps the CPU that the instruction kicked, if it kicked one.
    fn keep_kick(&mut self, before: Before, world: &World) {
        if let Some(cpu) = before.kicked(world) {
            let comma = if self.kicked.is_empty() { "" } else { ", " };
            self.kicked.number(comma, cpu);
        }
    }

    /// Finishes the line of the instruction before, as the one at that slot comes next.
    fn go_on(&mut self, slot: usize, core: &Core, world: &World) {
        self.finish(Some((slot, core)), world);
        if let Some(insn) = self.program.at(slot) {
            let before = Before::new(slot, insn, core, world);
            push_begun(before, core, self.names, &mut self.words);
            self.before = Some(before);
        }
    }

    /// Writes the line of the instruction that was done, if one was. What came of it is seen in the world, and
    /// in the registers as the next one finds them.
    fn finish(&mut self, next: Option<(usize, &Core)>, world: &World) {
        let Some(before) = self.before else {
            return;
        };
        push_after(before, next, world, self.names, &mut self.words);
        self.keep_kick(before, world);
        self.before = None;
        self.text.push("  ");
        self.text.number_right(before.slot as u64, 4);
        self.text.push("  ");
        let begin = self.text.len();
        self.text.push(Canonical(before.insn).line().as_str());
        end_row(begin, self.width, &self.words, self.text);
        self.words.clear();
    }
}

impl Watch<World> for Lines<'_, '_> {
    ghost awaited = { λ w. false };

    fn has_come(&self, _env: &World) -> bool {
        false
    }

    fn see(&mut self, slot: usize, core: &Core, env: &World) {
        self.go_on(slot, core, env);
    }
}

/// Ends a line of two columns, of which the first begins there and has that width.
pub(crate) fn end_row(begin: usize, width: usize, second: &Text, text: &mut Text) {
    if !second.is_empty() {
        let first = text.len().saturating_sub(begin);
        text.spaces(width.saturating_sub(first));
        text.push("  ");
        text.append(second);
    }
    text.push("\n");
}

/// The width of the longest instruction.
fn width_of(program: &Program) -> usize {
    let mut width = 0;
    for slot in 0..program.slots() {
        if let Some(insn) = program.at(slot) {
            width = Canonical(insn).line().len().max(width);
        }
    }
    width
}
