use scxsim_output::Text;
use scxsim_why_lines::write_count;

/// The number of lines of a text.
pub(crate) fn line_count(text: &Text) -> usize {
    let mut count = 0usize;
    for byte in text.as_str().as_bytes() {
        if *byte == b'\n' {
            count = count.saturating_add(1);
        }
    }
    count
}

/// Appends a section, up to that number of lines of the page. Where lines are left out, the last one says their number.
pub(crate) fn append_up_to(section: &Text, most: usize, page: &mut Text) {
    let room = most.saturating_sub(line_count(page));
    let count = line_count(section);
    if count <= room || section.is_cut() {
        page.append(section);
        return;
    }
    let shown = room.saturating_sub(1);
    append_lines(section, shown, page);
    write_count("  .. ", count.saturating_sub(shown) as u64, "line", page);
    page.push(" more\n");
}

/// Appends the first lines of a text.
fn append_lines(text: &Text, lines: usize, page: &mut Text) {
    let mut rest = text.as_str();
    for _ in 0..lines {
        let Some((line, after)) = rest.split_once('\n') else {
            return;
        };
        page.push(line);
        page.push("\n");
        rest = after;
    }
}
