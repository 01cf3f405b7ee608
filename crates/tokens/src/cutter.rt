// The cutter: the tokens of an expression, one at a time.
ghost use Rattle.std.specs.Prelude.{◌+◌, ◌^◌, ◌<◌, length};

// Cuts an expression into its tokens, in order. Bytes that no expression may have are passed over
// as spaces are: `check_expression` refuses them.
#[derive(Clone, Copy)]
pub struct Cutter<'a> {
    // What is left of the expression, and the number of bytes before it.
    pub(crate) rest: &'a [u8],
    pub(crate) place: usize,
    ghost fits: { place + length rest.now < 2 ^ 64 },
}
