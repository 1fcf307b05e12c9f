use scxsim_output::Text;
use std::alloc::{AllocError, Global};

/// The most characters of a file's name in a title.
const MOST: usize = 23;

/// The title of a chart: the names of its two files.
///
/// Each is the last part of the path without `.toml`, at most 23 characters, with `?` for all that isn't plain
/// ASCII.
///
/// # Errors
///
/// Memory ran out.
pub fn title(alloc: Global, policy: &str, workload: &str) -> Result<String, AllocError> {
    let mut title = Text::new(alloc);
    push_name(&mut title, policy);
    title.push(" on ");
    push_name(&mut title, workload);
    title.finish()
}

fn push_name(title: &mut Text, path: &str) {
    for letter in base_of(path).chars().take(MOST) {
        title.character(plain(letter));
    }
}

/// The last part of a path, without `.toml`.
fn base_of(path: &str) -> &str {
    let base = match path.rsplit_once('/') {
        Some((_, base)) => base,
        None => path,
    };
    match base.strip_suffix(".toml") {
        Some(name) => name,
        None => base,
    }
}

fn plain(letter: char) -> char {
    if letter.is_ascii_graphic() || letter == ' ' {
        letter
    } else {
        '?'
    }
}
