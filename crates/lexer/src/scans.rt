// How far spaces go, and how far a byte is.
ghost use Rattle.std.specs.Prelude.{◌≡◌, ◌+◌, ◌≤◌, length, drop};
ghost use Rattle.lexer.specs.Scans.{spaces, run};

pub(crate) fn skip_spaces(line: &[u8], from: usize) -> usize
    requires { from ≤ length line.now }
    ensures value { result ≡ from + spaces (drop from line.now) }
    ensures bound { result ≤ length line.now }
{
    let mut at = from;
    while at < line.len() && line[at] == b' ' {
        at += 1;
    }
    at
}

// Where the byte `stop` next stands, or the end.
pub(crate) fn until(text: &[u8], from: usize, stop: u8) -> usize
    requires { from ≤ length text.now }
    ensures value { result ≡ from + run stop (drop from text.now) }
    ensures bound { result ≤ length text.now }
{
    let mut at = from;
    while at < text.len() && text[at] != stop {
        at += 1;
    }
    at
}
