/// A form in which the text of a part gives bytes.
#[derive(Clone, Copy)]
pub(crate) enum Form<'a> {
    /// As it is.
    Text,
    /// Without its last line feed.
    Cut,
    /// As digits, two for each byte.
    Hex,
    /// As the end of the output.
    End,
    /// Line by line, as the ends of lines of the output, each of just one.
    LineEnds,
    /// As those lines of the output that have this word.
    LinesWith(&'a str),
}

/// The kind of a part.
#[derive(Clone, Copy)]
pub(crate) enum Mark<'a> {
    /// The name of the cases after it.
    Case(&'a str),
    /// A file of that name.
    File(&'a str, Form<'a>),
    /// A command, and what it writes to standard output.
    Command(Command<'a>),
    /// The text that the command before it writes to standard error.
    Said,
}

/// A command, and how it ends.
#[derive(Clone, Copy)]
pub(crate) struct Command<'a> {
    /// Its words, the name of the program among them.
    pub(crate) words: &'a str,
    pub(crate) status: u8,
    /// The file that its output becomes, which isn't compared then.
    pub(crate) target: Option<&'a str>,
    pub(crate) form: Form<'a>,
}

/// The mark on the line of a part; none where it isn't known.
pub(crate) fn mark_of<'a>(line: &'a str) -> Option<Mark<'a>> {
    let line = line.strip_suffix(" --")?;
    if line == "stderr" {
        return Some(Mark::Said);
    }
    if let Some(name) = line.strip_prefix("case: ") {
        return Some(Mark::Case(name));
    }
    let (words, form) = form_of(line)?;
    if words.starts_with("scxsim") {
        Some(Mark::Command(command_of(words, form)?))
    } else {
        Some(Mark::File(words, form))
    }
}

/// The text before the name of the form, and the form.
fn form_of<'a>(line: &'a str) -> Option<(&'a str, Form<'a>)> {
    match line.rsplit_once(" (") {
        Some((words, name)) => Some((words, form_named(name.strip_suffix(')')?)?)),
        None => Some((line, Form::Text)),
    }
}

fn form_named<'a>(name: &'a str) -> Option<Form<'a>> {
    match name {
        "cut" => Some(Form::Cut),
        "hex" => Some(Form::Hex),
        "end" => Some(Form::End),
        "line ends" => Some(Form::LineEnds),
        _ => Some(Form::LinesWith(name.strip_prefix("lines with ")?)),
    }
}

fn command_of<'a>(line: &'a str, form: Form<'a>) -> Option<Command<'a>> {
    let (line, status) = match line.split_once(" => ") {
        Some((line, status)) => (line, status_of(status)?),
        None => (line, 0),
    };
    let (words, target) = match line.split_once(" > ") {
        Some((words, target)) => (words, Some(target)),
        None => (line, None),
    };
    Some(Command {
        words,
        status,
        target,
        form,
    })
}

fn status_of(text: &str) -> Option<u8> {
    match text {
        "1" => Some(1),
        "2" => Some(2),
        "3" => Some(3),
        _ => None,
    }
}
