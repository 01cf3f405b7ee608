// The reader: the working memory of reading.
ghost use Rattle.std.specs.Prelude.{◌≤◌, vec_capacity};

// What waits for its right operand, whose nodes begin at `from`: a function's operator, or a bracket that is open.
#[derive(Clone, Copy)]
pub(crate) struct Pending {
    pub(crate) function: Option<u8>,
    pub(crate) from: usize,
}

// Reads expressions as trees and puts these into racks. No call wants memory once the reader is made.
#[derive(Drop)]
pub struct Reader {
    // What waits, the latest last.
    pub(crate) pending: Vec<Pending>,
    ghost reserved: { 1024 ≤ vec_capacity pending },
}
