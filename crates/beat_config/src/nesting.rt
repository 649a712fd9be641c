//! How deep a document nests, found from its bytes before TOML is read, since the reader of TOML recurses as deep.
ghost use Rattle.std.specs.Prelude.{◌≡◌, ◌≤◌};
ghost use Rattle.beat_config.specs.Nesting.{quote_byte, after_plain, after_in_line, after_in_block, after_quotes, place_after, no_levels, after_opening, after_closing, after_dot, after_comma, after_line_feed, after_mark, nesting_after, nests_too_deep, nesting_of, IsCounted};

/// The most levels at one place.
const MAX_LEVELS: usize = 80;

/// The quotes round a text.
#[derive(Clone, Copy, Debug)]
enum Quote {
    Basic,
    Literal,
}

/// Where the bytes that were read end.
#[derive(Clone, Copy, Debug)]
enum Place {
    /// Outside of texts and comments.
    Plain,
    Comment,
    /// After the quote that opens a text.
    Opened(Quote),
    /// After two: the text is empty, or a third one opens a text of many lines.
    OpenedTwice(Quote),
    /// In a text of one line.
    Line(Quote),
    LineEscape,
    /// In a text of many lines, after this many of its quotes in a row.
    Block(Quote, usize),
    BlockEscape,
}

/// The levels at a place.
#[derive(Drop)]
struct Levels {
    count: usize,
    /// The dots that count in the innermost open bracket.
    dots: usize,
    /// Those that counted where each open bracket opened; there is room for the one that is too much.
    outer: [usize; MAX_LEVELS + 1],
    brackets: usize,
}

/// Whether brackets and the dots of keys make more levels somewhere than are read.
pub(crate) fn nests_too_deep(bytes: &[u8]) -> bool
    ensures { result ≡ nests_too_deep bytes.now }
{
    let mut place = Place::Plain;
    let mut levels = Levels::new();
    for byte in bytes {
        place = place.after(*byte);
        levels.pass(place, *byte);
        if levels.count > MAX_LEVELS {
            return true;
        }
    }
    false
}

impl Quote {
    fn byte(self) -> u8
        ensures { result ≡ quote_byte self }
    {
        match self {
            Quote::Basic => b'"',
            Quote::Literal => b'\'',
        }
    }
}

impl Place {
    fn after(self, byte: u8) -> Place
        ensures { result ≡ place_after self byte }
    {
        match self {
            Place::Plain => after_plain(byte),
            Place::Comment => after_in_comment(byte),
            Place::Opened(quote) => after_opened(quote, byte),
            Place::OpenedTwice(quote) => after_opened_twice(quote, byte),
            Place::Line(quote) => after_in_line(quote, byte),
            Place::LineEscape => Place::Line(Quote::Basic),
            Place::Block(quote, quotes) => after_quotes(quote, quotes, byte),
            Place::BlockEscape => Place::Block(Quote::Basic, 0),
        }
    }
}

fn after_plain(byte: u8) -> Place
    ensures { result ≡ after_plain byte }
{
    match byte {
        b'#' => Place::Comment,
        b'"' => Place::Opened(Quote::Basic),
        b'\'' => Place::Opened(Quote::Literal),
        _ => Place::Plain,
    }
}

fn after_in_comment(byte: u8) -> Place
    ensures { result ≡ place_after Place.Comment byte }
{
    match byte {
        b'\n' => Place::Plain,
        _ => Place::Comment,
    }
}

fn after_opened(quote: Quote, byte: u8) -> Place
    ensures { result ≡ place_after (Place.Opened quote) byte }
{
    if byte == quote.byte() {
        Place::OpenedTwice(quote)
    } else {
        after_in_line(quote, byte)
    }
}

fn after_opened_twice(quote: Quote, byte: u8) -> Place
    ensures { result ≡ place_after (Place.OpenedTwice quote) byte }
{
    if byte == quote.byte() {
        Place::Block(quote, 0)
    } else {
        after_plain(byte)
    }
}

fn after_in_line(quote: Quote, byte: u8) -> Place
    ensures { result ≡ after_in_line quote byte }
{
    match (quote, byte) {
        (Quote::Basic, b'"') | (Quote::Literal, b'\'') => Place::Plain,
        (Quote::Basic, b'\\') => Place::LineEscape,
        _ => Place::Line(quote),
    }
}

fn after_quotes(quote: Quote, quotes: usize, byte: u8) -> Place
    ensures { result ≡ after_quotes quote quotes byte }
{
    if quotes < 5 && byte == quote.byte() {
        Place::Block(quote, quotes + 1)
    } else if quotes < 3 {
        after_in_block(quote, byte)
    } else {
        after_plain(byte)
    }
}

fn after_in_block(quote: Quote, byte: u8) -> Place
    ensures { result ≡ after_in_block quote byte }
{
    match (quote, byte) {
        (Quote::Basic, b'\\') => Place::BlockEscape,
        _ => Place::Block(quote, 0),
    }
}

impl Levels {
    fn new() -> Levels
        ensures none { nesting_of result ≡ no_levels }
        ensures counted { IsCounted result }
    {
        Levels {
            count: 0,
            dots: 0,
            outer: [0; MAX_LEVELS + 1],
            brackets: 0,
        }
    }

    /// After a byte that leads to this place.
    fn pass(&mut self, place: Place, byte: u8)
        requires few { self.old.count ≤ 80 }
        requires counted { IsCounted self.old }
        ensures after { nesting_of self.new ≡ nesting_after place byte (nesting_of self.old) }
        ensures counted { IsCounted self.new }
    {
        match place {
            Place::Plain => self.mark(byte),
            _ => {}
        }
    }

    fn mark(&mut self, byte: u8)
        requires few { self.old.count ≤ 80 }
        requires counted { IsCounted self.old }
        ensures after { nesting_of self.new ≡ after_mark byte (nesting_of self.old) }
        ensures counted { IsCounted self.new }
    {
        match byte {
            b'[' | b'{' => self.open(),
            b']' | b'}' => self.close(),
            b'.' => self.dot(),
            b',' => self.forget_dots(),
            b'\n' if self.brackets == 0 => self.forget_dots(),
            _ => {}
        }
    }

    #[tactic(auto, using(crate::proofs::Nests::few_brackets, crate::proofs::Nests::last_first_more, crate::proofs::Nests::counted_opening))]
    fn open(&mut self)
        requires few { self.old.count ≤ 80 }
        requires counted { IsCounted self.old }
        ensures after { nesting_of self.new ≡ after_opening (nesting_of self.old) }
        ensures counted { IsCounted self.new }
    {
        self.outer[self.brackets] = self.dots;
        self.brackets += 1;
        self.count += 1;
        self.dots = 0;
    }

    #[tactic(auto, using(crate::proofs::Nests::few_brackets))]
    fn close(&mut self)
        requires few { self.old.count ≤ 80 }
        requires counted { IsCounted self.old }
        ensures after { nesting_of self.new ≡ after_closing (nesting_of self.old) }
        ensures counted { IsCounted self.new }
    {
        if self.brackets > 0 {
            self.brackets -= 1;
            self.count -= self.dots + 1;
            self.dots = self.outer[self.brackets];
        }
    }

    fn dot(&mut self)
        requires few { self.old.count ≤ 80 }
        requires counted { IsCounted self.old }
        ensures after { nesting_of self.new ≡ after_dot (nesting_of self.old) }
        ensures counted { IsCounted self.new }
    {
        self.dots += 1;
        self.count += 1;
    }

    fn forget_dots(&mut self)
        requires counted { IsCounted self.old }
        ensures after { nesting_of self.new ≡ after_comma (nesting_of self.old) }
        ensures counted { IsCounted self.new }
    {
        self.count -= self.dots;
        self.dots = 0;
    }
}
