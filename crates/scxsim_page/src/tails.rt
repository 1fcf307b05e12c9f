use arrayvec::ArrayString;
use scxsim_commands::Ejection;
use std::fmt::Write;

/// The number of ids that are written at once.
const IDS: usize = 8;

/// Room for the bytes of a part.
const PART_CAPACITY: usize = 320;

/// A part of the data at the end of a page. It takes no memory from the allocator.
type Part = ArrayString<PART_CAPACITY>;

/// The policy's ejection, if there is one, as JSON, with the text between the stretches and it. The code of an exit
/// is a text, since a number of JavaScript holds 53 bits.
pub(crate) fn end_text(ejection: Option<Ejection>) -> Part {
    let mut text = Part::new();
    let _ = text.try_push_str(
        "</script>\n<script id=\"tail\" type=\"application/json\">{\"ended\":{",
    );
    let _ = match ejection {
        None => write!(text, "\"how\":\"force\""),
        Some(Ejection::Stall { moment, task }) => {
            write!(text, "\"how\":\"stall\",\"at\":{moment},\"task\":{task}")
        }
        Some(Ejection::Fault { moment, number }) => {
            write!(text, "\"how\":\"fault\",\"at\":{moment},\"code\":{number}")
        }
        Some(Ejection::Exit { moment, code }) => {
            write!(text, "\"how\":\"exit\",\"at\":{moment},\"code\":\"{code}\"")
        }
    };
    let _ = text.try_push_str("},\"queues\":[");
    text
}

/// The first ids of queues, or those after them.
pub(crate) fn ids_text(ids: &[u64], are_first: bool) -> Part {
    let mut text = Part::new();
    for (number, id) in ids.iter().enumerate() {
        if (number < IDS) == are_first {
            let comma = if number > 0 { "," } else { "" };
            let _ = write!(text, "{comma}\"{id}\"");
        }
    }
    if !are_first {
        let _ = text.try_push_str("]}</script>\n");
    }
    text
}
