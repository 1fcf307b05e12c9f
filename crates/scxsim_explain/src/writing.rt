ghost use Rattle.std.specs.Prelude.{◌≡◌, ◌++◌, List, ℕ, map, OnOk};
ghost use Rattle.std.specs.Io.KnownBytes.{Appends};
ghost use Rattle.scxsim_output.specs.Output.{Counts};
ghost use Rattle.scxsim_explain.specs.Explained.{first_line};
ghost use Rattle.scxsim_explain.specs.Listed.{Grows, IsListed, IsListedBehind};

use crate::explained::Explained;
use crate::lines::{push_slot, width_of};
use scxsim_commands::verdict_line;
use scxsim_output::{Failed, Out, Text, write_all};
use std::alloc::{AllocError, Global};

/// The most bytes of a line, and many more.
const LINE_CAPACITY: usize = 0x40000;

/// Room for a line, so that none takes memory once another was written.
pub(crate) fn room_for_line(alloc: Global) -> Result<Text, AllocError> {
    Text::with_room(alloc, LINE_CAPACITY)
}

/// Writes the programs in their order, with an empty line between two.
pub(crate) fn write_programs<W: Out>(
    programs: &[Explained],
    line: &mut Text,
    out: &mut W,
) -> Result<(), Failed>
    ensures ok { OnOk result ((text : List ℕ) × IsListed (map first_line programs.now) text
        × Appends (W.contents out.old) (W.contents out.new) text) }
    ensures failures { Counts result (W.failure_count out.old) (W.failure_count out.new) }
{
    let Some((first, rest)) = programs.split_first() else {
        return Ok(());
    };
    write_program(first, line, out)?;
    write_rest(rest, line, out)
}

/// Writes the programs after the first one, each after an empty line.
fn write_rest<W: Out>(programs: &[Explained], line: &mut Text, out: &mut W) -> Result<(), Failed>
    ensures ok { OnOk result ((text : List ℕ) × IsListedBehind (map first_line programs.now) text
        × Appends (W.contents out.old) (W.contents out.new) text) }
    ensures failures { Counts result (W.failure_count out.old) (W.failure_count out.new) }
{
    for explained in programs {
        write_all(out, b"\n")?;
        write_program(explained, line, out)?;
    }
    Ok(())
}

/// Writes the verdict on a program and its listing.
pub(crate) fn write_program<W: Out>(
    explained: &Explained,
    line: &mut Text,
    out: &mut W,
) -> Result<(), Failed>
    ensures ok { OnOk result ((listing : List ℕ)
        × Appends (W.contents out.old) (W.contents out.new)
        (first_line explained.now ++ listing)) }
    ensures failures { Counts result (W.failure_count out.old) (W.failure_count out.new) }
{
    let first = verdict_line(explained.listing.context().callback, explained.verdict);
    write_all(out, first.as_str().as_bytes())?;
    write_listing(explained, line, out)
}

/// Writes the lines of a program's slots.
fn write_listing<W: Out>(explained: &Explained, line: &mut Text, out: &mut W) -> Result<(), Failed>
    ensures ok { OnOk result (Grows (W.contents out.old) (W.contents out.new)) }
    ensures failures { Counts result (W.failure_count out.old) (W.failure_count out.new) }
{
    let width = width_of(&explained.listing);
    for slot in 0..explained.listing.slots() {
        make_line(line, explained, slot, width);
        write_all(out, line.as_str().as_bytes())?;
    }
    Ok(())
}

/// Makes the line of a slot, for which there is room.
fn make_line(line: &mut Text, explained: &Explained, slot: usize, width: usize) {
    line.clear();
    push_slot(line, explained, slot, width);
}
