use crate::excerpt::push_shown;
use scxsim_output::Text;
use std::alloc::Global;
use std::io::ErrorKind;

/// The path that names standard input.
pub const STANDARD_INPUT: &str = "-";

/// A hint at why the file at a path can't be read. None if there is nothing to say, or memory ran out.
pub fn hint_on_unread(alloc: Global, path: &str, kind: ErrorKind) -> Option<String> {
    let (before, after) = words_of(kind)?;
    let mut said = Text::new(alloc);
    said.push("hint: ");
    said.push(before);
    push_shown(&mut said, path);
    said.push(after);
    said.push("\n");
    said.finish().ok()
}

/// A hint that only one file can be standard input.
pub fn hint_on_both(alloc: Global) -> Option<String> {
    String::from_str(
        alloc,
        "hint: only one of the files can be -, standard input\n",
    )
    .ok()
}

/// The words before and after the path.
fn words_of(kind: ErrorKind) -> Option<(&'static str, &'static str)> {
    match kind {
        ErrorKind::NotFound => Some(("there is no file ", "")),
        ErrorKind::NotADirectory => Some((
            "a part of ",
            " is a file, and a folder is wanted there",
        )),
        ErrorKind::IsADirectory => Some(("", " is a folder, and a file is wanted there")),
        ErrorKind::PermissionDenied => Some(("you have no permission to read ", "")),
        _ => None,
    }
}
