use scxsim_output::Text;
use scxsim_views::QueueName;

/// The digits of a character's number.
const DIGITS: [char; 16] = [
    '0', '1', '2', '3', '4', '5', '6', '7', '8', '9', 'a', 'b', 'c', 'd', 'e', 'f',
];

/// Begins an object of that kind.
pub(crate) fn begin(kind: &str, lines: &mut Text) {
    lines.push("{\"kind\":");
    push_string(kind, lines);
}

/// Ends an object, and its line.
pub(crate) fn end(lines: &mut Text) {
    lines.push("}\n");
}

/// Writes a member that is a number.
pub(crate) fn number(name: &str, value: u64, lines: &mut Text) {
    push_name(name, lines);
    lines.number("", value);
}

/// Writes a member that is a text.
pub(crate) fn string(name: &str, value: &str, lines: &mut Text) {
    push_name(name, lines);
    push_string(value, lines);
}

/// Writes a member that is a text made apart.
pub(crate) fn text(name: &str, value: &Text, lines: &mut Text) {
    if value.is_cut() {
        lines.cut();
    } else {
        string(name, value.as_str(), lines);
    }
}

/// Writes a member that is true or false.
pub(crate) fn truth(name: &str, value: bool, lines: &mut Text) {
    push_name(name, lines);
    lines.push(if value { "true" } else { "false" });
}

/// Writes a member that is the name of a queue.
pub(crate) fn queue(name: &str, value: u64, lines: &mut Text) {
    push_name(name, lines);
    push_queue(value, lines);
}

/// Writes the name of a queue, which has no character to escape.
pub(crate) fn push_queue(queue: u64, lines: &mut Text) {
    lines.show("\"", &QueueName(queue));
    lines.push("\"");
}

/// Writes a member's name.
pub(crate) fn push_name(name: &str, lines: &mut Text) {
    lines.push(",");
    push_string(name, lines);
    lines.push(":");
}

fn push_string(value: &str, lines: &mut Text) {
    lines.push("\"");
    for c in value.chars() {
        push_character(c, lines);
    }
    lines.push("\"");
}

fn push_character(c: char, lines: &mut Text) {
    if c == '"' || c == '\\' {
        lines.push("\\");
        lines.character(c);
    } else if (c as u32) < 32 {
        lines.push("\\u00");
        push_digit(c as u32 / 16, lines);
        push_digit(c as u32 % 16, lines);
    } else {
        lines.character(c);
    }
}

fn push_digit(digit: u32, lines: &mut Text) {
    if let Some(c) = DIGITS.get(digit as usize) {
        lines.character(*c);
    }
}
