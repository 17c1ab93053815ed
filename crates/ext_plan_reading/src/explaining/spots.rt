//! Where in the text of a document the headers of its tables stand, and in a table its fields and the
//! texts in their arrays.
use crate::explaining::headers::{Header, Met, rest_behind};

/// A spot in a table: a field, or a text in the field's array, by its number.
#[derive(Debug, Drop)]
pub(crate) struct Spot {
    pub(crate) field: String,
    pub(crate) text: Option<TextNo>,
}

/// The number of a text in an array.
#[derive(Clone, Copy, Debug, PartialEq, Eq)]
pub(crate) enum TextNo {
    /// In an array of texts.
    In(usize),
    /// In the array with the first number, which is one of an array of arrays.
    InList(usize, usize),
}

/// The byte of `text` at which the spot of a table stands, if that is found. The table's fields
/// begin behind the byte `from`, and end with the next header.
pub(crate) fn byte_of(text: &str, from: usize, spot: &Spot) -> Option<usize> {
    first_of(text, from, Sought::Spot(spot))
}

/// The byte of `text` at which this header stands, if that is found behind the byte `from`, which
/// stands in no value.
pub(crate) fn byte_of_header(text: &str, from: usize, header: Header<'_>) -> Option<usize> {
    first_of(text, from, Sought::Header(header))
}

/// What is looked for.
#[derive(Clone, Copy)]
enum Sought<'a> {
    Spot(&'a Spot),
    Header(Header<'a>),
}

/// The byte at which that stands which is looked for.
fn first_of(text: &str, from: usize, sought: Sought<'_>) -> Option<usize> {
    let mut search = Search::new(text, from, sought);
    let mut inside = Inside::Table;
    for (at, byte) in text.as_bytes().iter().enumerate().skip(from) {
        let (next, mark) = inside.read(*byte);
        inside = next;
        match search.meet(at, mark) {
            Step::Further => {}
            Step::Found => return Some(at),
            Step::End => return None,
        }
    }
    None
}

/// Where in a TOML document a byte stands.
#[derive(Clone, Copy)]
enum Inside {
    /// In no text and no comment.
    Table,
    Comment,
    /// Behind one or two quotes that begin a text.
    Quotes {
        quote: u8,
        are_two: bool,
    },
    /// In a text, behind so many of its quotes.
    Text {
        quote: u8,
        is_long: bool,
        is_escaped: bool,
        quotes: u8,
    },
}

/// What a byte of a TOML document is.
#[derive(Clone, Copy)]
enum Mark {
    LineFeed,
    Equals,
    /// `[` or `{`.
    Open,
    /// `]` or `}`.
    Close,
    /// The first quote of a text.
    Quote,
    Other,
}

impl Inside {
    /// What a byte is, and where the next one stands.
    fn read(self, byte: u8) -> (Inside, Mark) {
        match self {
            Inside::Table => in_table(byte),
            Inside::Comment if byte == b'\n' => in_table(byte),
            Inside::Comment => (Inside::Comment, Mark::Other),
            Inside::Quotes { quote, are_two } => behind_quotes(quote, are_two, byte),
            Inside::Text {
                quote,
                is_long: false,
                is_escaped,
                ..
            } => in_short_text(quote, is_escaped, byte),
            Inside::Text {
                quote,
                is_escaped,
                quotes,
                ..
            } => in_long_text(quote, is_escaped, quotes, byte),
        }
    }
}

fn in_table(byte: u8) -> (Inside, Mark) {
    match byte {
        b'\n' => (Inside::Table, Mark::LineFeed),
        b'=' => (Inside::Table, Mark::Equals),
        b'[' | b'{' => (Inside::Table, Mark::Open),
        b']' | b'}' => (Inside::Table, Mark::Close),
        b'#' => (Inside::Comment, Mark::Other),
        b'"' | b'\'' => (
            Inside::Quotes {
                quote: byte,
                are_two: false,
            },
            Mark::Quote,
        ),
        _ => (Inside::Table, Mark::Other),
    }
}

/// Behind the first quotes of a text: a third begins a text of several lines, and two alone are an
/// empty one.
fn behind_quotes(quote: u8, are_two: bool, byte: u8) -> (Inside, Mark) {
    if byte != quote {
        return if are_two {
            in_table(byte)
        } else {
            in_short_text(quote, false, byte)
        };
    }
    if are_two {
        (text_in(quote, true, false, 0), Mark::Other)
    } else {
        let are_two = true;
        (Inside::Quotes { quote, are_two }, Mark::Other)
    }
}

fn in_short_text(quote: u8, is_escaped: bool, byte: u8) -> (Inside, Mark) {
    if byte == quote && !is_escaped {
        return (Inside::Table, Mark::Other);
    }
    let escapes = is_escape(quote, is_escaped, byte);
    (text_in(quote, false, escapes, 0), Mark::Other)
}

/// In a text of several lines, which three quotes end, behind which two more may stand.
fn in_long_text(quote: u8, is_escaped: bool, quotes: u8, byte: u8) -> (Inside, Mark) {
    if byte == quote && !is_escaped {
        let quotes = quotes.saturating_add(1);
        return (text_in(quote, true, false, quotes), Mark::Other);
    }
    if quotes >= 3 {
        return in_table(byte);
    }
    let escapes = is_escape(quote, is_escaped, byte);
    (text_in(quote, true, escapes, 0), Mark::Other)
}

/// Tests whether a byte of a text escapes the next one.
fn is_escape(quote: u8, is_escaped: bool, byte: u8) -> bool {
    quote == b'"' && byte == b'\\' && !is_escaped
}

fn text_in(quote: u8, is_long: bool, is_escaped: bool, quotes: u8) -> Inside {
    Inside::Text {
        quote,
        is_long,
        is_escaped,
        quotes,
    }
}

/// What the search for a spot comes to.
enum Step {
    Further,
    Found,
    /// The table ends here.
    End,
}

/// A search for a spot in a table, or for a header.
#[derive(Drop)]
struct Search<'a> {
    text: &'a str,
    sought: Sought<'a>,
    /// How many headers came before the one that is looked for.
    headers: usize,
    /// The byte at which the line begins, if it is no line of a value.
    line: usize,
    /// How many arrays and inline tables are open.
    depth: usize,
    is_value: bool,
    /// Whether the value is that of the field.
    is_field: bool,
    /// How many arrays of the field's have begun.
    lists: usize,
    /// How many texts of the array have begun.
    texts: usize,
}

impl<'a> Search<'a> {
    fn new(text: &'a str, from: usize, sought: Sought<'a>) -> Search<'a> {
        Search {
            text,
            sought,
            headers: 0,
            line: from,
            depth: 0,
            is_value: false,
            is_field: false,
            lists: 0,
            texts: 0,
        }
    }

    /// Goes over a byte that is this.
    fn meet(&mut self, at: usize, mark: Mark) -> Step {
        match mark {
            Mark::LineFeed => self.feed(at),
            Mark::Equals => return self.name(at),
            Mark::Open => return self.open(at),
            Mark::Close => self.depth = self.depth.saturating_sub(1),
            Mark::Quote => return self.count_text(),
            Mark::Other => {}
        }
        Step::Further
    }

    /// Begins a line, and a field if no value goes on there.
    fn feed(&mut self, at: usize) {
        if self.depth == 0 {
            self.line = at;
            self.is_value = false;
            self.is_field = false;
        }
    }

    /// Reads the field's name before this `=`.
    fn name(&mut self, at: usize) -> Step {
        if self.depth != 0 || self.is_value {
            return Step::Further;
        }
        self.is_value = true;
        let Sought::Spot(spot) = self.sought else {
            return Step::Further;
        };
        self.is_field = self.is_named(spot, at);
        if self.is_field && spot.text.is_none() {
            return Step::Found;
        }
        Step::Further
    }

    /// Tests whether the line up to this `=` is the name of the field, in quotes or not, or begins with
    /// it and a dot.
    fn is_named(&self, spot: &Spot, at: usize) -> bool {
        match self.text.get(self.line..at.saturating_add(1)) {
            None => false,
            Some(name) => {
                let rest = rest_behind(name, spot.field.as_str());
                rest.starts_with('=') || spot.text.is_none() && rest.starts_with('.')
            }
        }
    }

    /// Begins an array or an inline table; where no value stands, it is a header.
    fn open(&mut self, at: usize) -> Step {
        if !self.is_value && self.depth == 0 {
            self.depth = 1;
            return self.header(at);
        }
        self.depth = self.depth.saturating_add(1);
        self.texts = 0;
        if self.depth == 2 {
            self.lists = self.lists.saturating_add(1);
        }
        Step::Further
    }

    /// Begins a header, and tests whether it is the one that is looked for.
    fn header(&mut self, at: usize) -> Step {
        let Sought::Header(header) = self.sought else {
            return Step::End;
        };
        match header.meets(self.text.get(at..).unwrap_or("")) {
            Met::Other => Step::Further,
            Met::Last => Step::End,
            Met::Wanted if self.headers == header.number() => Step::Found,
            Met::Wanted => {
                self.headers = self.headers.saturating_add(1);
                Step::Further
            }
        }
    }

    /// Begins a text, and tests whether it is the one that is looked for.
    fn count_text(&mut self) -> Step {
        if self.is_field && self.is_here() {
            return Step::Found;
        }
        self.texts = self.texts.saturating_add(1);
        Step::Further
    }

    /// Tests whether the text that begins is the one that is looked for.
    fn is_here(&self) -> bool {
        let Sought::Spot(spot) = self.sought else {
            return false;
        };
        match spot.text {
            None => false,
            Some(TextNo::In(text)) => self.depth == 1 && self.texts == text,
            Some(TextNo::InList(list, text)) => {
                self.depth == 2 && self.lists == list.saturating_add(1) && self.texts == text
            }
        }
    }
}
