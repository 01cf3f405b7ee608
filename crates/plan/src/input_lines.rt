// The lines of an input, one at a time.
ghost use Rattle.std.specs.Prelude.{◌≡◌, ◌<◌, ◌==◌, length, position, IfSome};
ghost use Rattle.plan.specs.InputLines.{Lines, lines_of};
ghost use Rattle.plan.specs.LinesAhead.{ahead, Next};
ghost use Rattle.std.specs.Iterator.{at_most};

// Parts an input into its lines, in order. Each line ends at a byte 10, which does not belong to it;
// bytes after the last byte 10 are a line too, if there are any.
#[derive(Clone, Copy)]
pub struct InputLines<'a> {
    rest: &'a [u8],
}

impl<'a> InputLines<'a> {
    // The lines from the start of the input.
    pub fn new(input: &'a [u8]) -> InputLines<'a>
        ensures ahead { ahead result ≡ lines_of input.now }
        ensures lines { Lines input.now (ahead result) }
    {
        InputLines { rest: input }
    }
}

// Where the first byte 10 stands, if there is one.
fn line_end(bytes: &[u8]) -> Option<usize>
    ensures first { result ≡ position (λ b. b == 10) bytes.now }
    ensures within { IfSome result (λ n. n < length bytes.now) }
{
    bytes.iter().position(|b| *b == b'\n')
}

impl<'a> Iterator for InputLines<'a> {
    type Item = &'a [u8];

    ghost next_gives = { λ s r t. Next s r t };

    ghost remaining = { λ s. at_most (length (ahead s)) };

    // The next line, without its end, or none at the end of the input. Not by `split`, which
    // gives an empty line after a last byte 10, nor by `split_inclusive`, whose parts keep theirs.
    fn next(&mut self) -> Option<&'a [u8]> {
        let bytes = self.rest;
        if bytes.is_empty() {
            return None;
        }
        match line_end(bytes) {
            Some(end) => {
                self.rest = &bytes[end + 1..];
                Some(&bytes[..end])
            }
            None => {
                self.rest = &[];
                Some(bytes)
            }
        }
    }
}
