ghost use Rattle.std.specs.Prelude.{◌≡◌, ◌++◌, None, OnOk};
ghost use Rattle.std.specs.Io.KnownBytes.{Appends};
ghost use Rattle.scxsim_output.specs.Output.{Counts};
ghost use Rattle.scxsim_pictures.specs.NoteLines.{place_text, lines_text};

use crate::objects::{Object, write_object};
use scxsim_output::{Failed, Out};
use scxsim_trace::Names;

/// The lines of a note, an object each: at most four, each in its place, written in this order.
#[derive(Clone, Copy)]
pub(crate) struct NoteLines {
    pub(crate) first: Option<Object>,
    pub(crate) second: Option<Object>,
    pub(crate) third: Option<Object>,
    pub(crate) fourth: Option<Object>,
}

impl NoteLines {
    /// No lines.
    pub(crate) fn new() -> NoteLines
        ensures first { result.first ≡ None }
        ensures second { result.second ≡ None }
        ensures third { result.third ≡ None }
        ensures fourth { result.fourth ≡ None }
    {
        NoteLines {
            first: None,
            second: None,
            third: None,
            fourth: None,
        }
    }

    /// Removes all lines.
    #[inline(always)]
    pub(crate) fn clear(&mut self)
        ensures first { self.new.first ≡ None }
        ensures second { self.new.second ≡ None }
        ensures third { self.new.third ≡ None }
        ensures fourth { self.new.fourth ≡ None }
    {
        self.first = None;
        self.second = None;
        self.third = None;
        self.fourth = None;
    }
}

/// Writes the lines of a note.
#[inline(always)]
pub(crate) fn write_note_lines<N: Names, W: Out>(
    names: &N,
    lines: &NoteLines,
    out: &mut W,
) -> Result<(), Failed>
    ensures ok { OnOk result (Appends (W.contents out.old) (W.contents out.new)
        (lines_text (N.lists names.now) lines.now)) }
    ensures failures { Counts result (W.failure_count out.old) (W.failure_count out.new) }
{
    write_place(names, lines.first, out)?;
    write_place(names, lines.second, out)?;
    write_place(names, lines.third, out)?;
    write_place(names, lines.fourth, out)
}

/// Writes the object in a place, if there is one.
#[inline(always)]
#[tactic(auto, using(crate::proofs::Growing::nothing_written))]
fn write_place<N: Names, W: Out>(
    names: &N,
    place: Option<Object>,
    out: &mut W,
) -> Result<(), Failed>
    ensures ok { OnOk result (Appends (W.contents out.old) (W.contents out.new)
        (place_text (N.lists names.now) place)) }
    ensures failures { Counts result (W.failure_count out.old) (W.failure_count out.new) }
{
    match place {
        Some(object) => write_object(names, object, out),
        None => Ok(()),
    }
}
