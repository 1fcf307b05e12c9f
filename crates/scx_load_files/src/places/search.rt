ghost use Rattle.std.specs.Prelude.{◌<◌, length, IfSome};

use crate::path::{element_path, key_path};
use crate::places::place::{Place, place_of_rest};
use crate::places::values::behind_value;
use std::alloc::{AllocError, Global};
use toml_parser::text::{byte_at, first, skip, skip_blank, skip_ws};
use toml_parser::{Key, dotted_key};

/// The place of the key at that path. Where the key isn't there, the place of the nearest table or array above it;
/// none where nothing above it is in the text, or memory ran out.
pub fn place_of_key(alloc: Global, text: &str, path: &str) -> Option<Place> {
    let found = find(alloc, text, path)?;
    Some(place_of_rest(text, found.key))
}

/// The wanted key or header, or one that holds it.
#[derive(Clone, Copy)]
pub(crate) struct Found<'a> {
    /// The length of the part of the wanted path that it is, in bytes.
    reach: usize,
    /// The text from it on.
    key: &'a str,
    /// The text from its value on. A header has none.
    value: Option<&'a str>,
}

impl<'a> Found<'a> {
    /// The text from the value on, if all of the path was found.
    pub(crate) fn value_at(self, path: &str) -> Option<&'a str> {
        if self.reach == path.len() {
            self.value
        } else {
            None
        }
    }
}

/// A search through a document for the key at a path.
#[derive(Drop)]
struct Search<'a, 'p> {
    alloc: Global,
    wanted: &'p str,
    /// The path of the table at hand.
    table: String,
    /// The number of elements so far of the array of tables that holds the key.
    elements: usize,
    best: Option<Found<'a>>,
}

/// The key at this path, or its nearest ancestor.
pub(crate) fn find<'a>(alloc: Global, text: &'a str, path: &str) -> Option<Found<'a>> {
    let mut search = Search {
        alloc,
        wanted: path,
        table: String::new(alloc),
        elements: 0,
        best: None,
    };
    search.go_through(text);
    search.best
}

impl<'a, 'p> Search<'a, 'p> {
    /// Looks at each key and header, up to one that can't be read.
    fn go_through(&mut self, text: &'a str) {
        let mut rest = text;
        loop {
            let line = skip_blank(rest, true);
            match self.look_at(line) {
                Some(after) => rest = after,
                None => return,
            }
        }
    }

    /// Looks at the key or header that a text begins with. Answers the text after it.
    fn look_at(&mut self, line: &'a str) -> Option<&'a str>
        ensures { IfSome result (λ rest. length rest.now < length line.now) }
    {
        if first(line) != b'[' {
            return self.pair(line);
        }
        if byte_at(line, 1) == b'[' {
            self.array_header(line, skip(line, 2))
        } else {
            self.header(line, skip(line, 1))
        }
    }

    /// `KEY = VALUE`.
    fn pair(&mut self, line: &'a str) -> Option<&'a str>
        ensures { IfSome result (λ rest. length rest.now < length line.now) }
    {
        let (path, rest) = path_of_key(self.alloc, &self.table, line)?;
        let value = value_in(rest);
        if value.is_some() {
            self.consider(&path, line, value);
        }
        drop(path);
        behind_value(self.alloc, value?)
    }

    /// `[KEY]`, with the text after the bracket.
    fn header(&mut self, line: &'a str, inside: &'a str) -> Option<&'a str>
        requires { length inside.now < length line.now }
        ensures { IfSome result (λ rest. length rest.now < length line.now) }
    {
        let (table, rest) = path_of_key(self.alloc, "", skip_ws(inside))?;
        if first(rest) != b']' {
            drop(table);
            return None;
        }
        self.table = table;
        self.consider_table(line);
        Some(skip(rest, 1))
    }

    /// `[[KEY]]`, with the text after the brackets.
    fn array_header(&mut self, line: &'a str, inside: &'a str) -> Option<&'a str>
        requires { length inside.now < length line.now }
        ensures { IfSome result (λ rest. length rest.now < length line.now) }
    {
        let (array, rest) = path_of_key(self.alloc, "", skip_ws(inside))?;
        if first(rest) != b']' || byte_at(rest, 1) != b']' {
            drop(array);
            return None;
        }
        let entered = self.enter_element(&array, line);
        drop(array);
        entered?;
        Some(skip(rest, 2))
    }

    /// The next element of an array is the table at hand; none where memory ran out.
    fn enter_element(&mut self, array: &str, line: &'a str) -> Option<()> {
        self.consider(array, line, None);
        self.table = self.next_element(array).ok()?;
        self.consider_table(line);
        Some(())
    }

    /// The path of the next element of an array. Only elements of the array that holds the key are counted.
    fn next_element(&mut self, array: &str) -> Result<String, AllocError> {
        let number = self.elements;
        if reach(self.wanted, array).is_some() {
            self.elements = number.saturating_add(1);
        }
        element_path(self.alloc, array, number)
    }

    fn consider_table(&mut self, line: &'a str) {
        if let Some(reach) = reach(self.wanted, &self.table) {
            self.take(reach, line, None);
        }
    }

    fn consider(&mut self, path: &str, key: &'a str, value: Option<&'a str>) {
        if let Some(reach) = reach(self.wanted, path) {
            self.take(reach, key, value);
        }
    }

    /// Keeps the nearest to the wanted path, and the first of several.
    fn take(&mut self, reach: usize, key: &'a str, value: Option<&'a str>) {
        let is_nearer = match self.best {
            Some(best) => best.reach < reach,
            None => true,
        };
        if is_nearer {
            self.best = Some(Found { reach, key, value });
        }
    }
}

/// The length of the part of the wanted path that a path is: all of it, or a table or an array that holds the key.
fn reach(wanted: &str, path: &str) -> Option<usize> {
    let rest = wanted.strip_prefix(path)?;
    if rest.is_empty() || rest.starts_with('.') {
        Some(path.len())
    } else {
        None
    }
}

/// The path of the key that a text begins with, in the table at `table`, and the text after it.
fn path_of_key<'a>(alloc: Global, table: &str, text: &'a str) -> Option<(String, &'a str)>
    ensures { IfSome result (λ found. length found.1.now < length text.now) }
{
    let (key, rest) = dotted_key(alloc, text).ok()?;
    let path = joined(alloc, table, &key);
    drop(key);
    Some((path.ok()?, rest))
}

/// The text from the value on, after the sign between a key and its value.
fn value_in(text: &str) -> Option<&str>
    ensures { IfSome result (λ value. length value.now < length text.now) }
{
    if first(text) != b'=' {
        return None;
    }
    Some(skip_ws(skip(text, 1)))
}

/// The path of a key in the table at `table`.
fn joined(alloc: Global, table: &str, key: &Key) -> Result<String, AllocError> {
    let mut path = String::from_str(alloc, table)?;
    for part in &key.path {
        path = key_path(alloc, &path, part)?;
    }
    key_path(alloc, &path, &key.last)
}
