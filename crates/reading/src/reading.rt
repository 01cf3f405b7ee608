// The reading of one expression: what is lent to it, and where it has come.
ghost use Rattle.std.specs.Prelude.{◌+◌, ◌≤◌, length};
ghost use Rattle.reading.specs.Waiting.{waiting};

use crate::reader::Reader;
use grammar::Due;
use rack::Node;

// An expression as it is read into the rack, by the notation: what waits is in the reader.
// That a call leaves the loans the same ones is a fact about before and after, and no invariant of one value.
// That there is room for one token more is asked by the calls that take one, and is no fact of the type: after the
// last token there is none.
#[derive(Drop)]
pub(crate) struct Reading<'a, N> {
    pub(crate) reader: &'a mut Reader,
    pub(crate) rack: &'a mut [Node],
    pub(crate) notation: &'a N,
    // Where the tree's nodes begin, and where the next one goes.
    pub(crate) mark: usize,
    pub(crate) at: usize,
    pub(crate) due: Due,
    ghost low: { mark ≤ 4096 },
    ghost begun: { mark ≤ at },
    ghost few: { at + length (waiting reader.now) ≤ mark + 1024 },
}
