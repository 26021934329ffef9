// What a byte of the text is: whether it joins two lines, and whether blanks, a word or a line end there.
ghost use Rattle.std.specs.Prelude.{◌<◌, ◌≡◌, length};
ghost use Rattle.blif.specs.Words.{blank};
ghost use Rattle.blif.specs.Scan.{ends_line, ends_word, join_at};

pub const NEWLINE: u8 = b'\n';

const COMMENT: u8 = b'#';

const BACKSLASH: u8 = b'\\';

// Whether a backslash joins at a position.
pub fn joins(text: &[u8], at: usize) -> bool
    requires { at < length text.now }
    ensures { result ≡ join_at text.now at }
{
    text[at] == BACKSLASH && (text.len() <= at + 1 || text[at + 1] == NEWLINE)
}

// The tests of bytes.
pub fn is_blank(b: u8) -> bool
    ensures { result ≡ blank b }
{
    b == b' ' || b == b'\t'
}

pub fn ends_line(b: u8) -> bool
    ensures { result ≡ ends_line b }
{
    b == NEWLINE || b == COMMENT
}

pub fn ends_word(b: u8) -> bool
    ensures { result ≡ ends_word b }
{
    is_blank(b) || ends_line(b)
}
