// The lines that the command puts out beside plan lines: fault lines and the tail.
ghost use Rattle.std.specs.Prelude.{◌≡◌, ◌+◌, ◌≤◌, ◌∷◌, ◌++◌, vec_len, vec_capacity, decimal};
ghost use Rattle.plan.specs.Appends.{Appended, WithinRoom};
ghost use Rattle.plan.specs.Reports.{fault_line, tail_line};

use crate::input_fault::InputFault;
use crate::tally::Tally;
use itoa::Buffer;
use std::alloc::AllocError;

// No fault line and no tail has more bytes.
pub const MAX_REPORT_BYTES: usize = 65;

// Appends a byte and then a number, in decimal without leading zeros, where there is room for them. By `itoa`, and no
// `Display`: only into a `String` does `write!` promise its bytes, and it may want memory. What these calls say of the buffer
// is a fact about it before and after, and of no value of a type here.
fn push_field(out: &mut Vec<u8>, lead: u8, number: usize)
    requires { vec_len out.old + 21 ≤ vec_capacity out.old }
    ensures bytes { out.new.items ≡ out.old.items ++ lead ∷ decimal number }
    ensures len { vec_len out.new ≤ vec_len out.old + 21 }
    ensures capacity { vec_capacity out.old ≤ vec_capacity out.new }
{
    let mut digits = Buffer::new();
    out.push_reserved(lead);
    // One by one: by `extend_from_slice` a fault line and a tail with short numbers take half as many instructions again.
    for digit in digits.format(number).as_bytes() {
        out.push_reserved(*digit);
    }
}

// Appends the fault line of what was refused of the input. Without the memory for it `out` stays as it is.
pub fn push_fault_line(out: &mut Vec<u8>, refused: InputFault) -> Result<(), AllocError>
    ensures bytes { Appended (fault_line refused.line refused.fault) out.old out.new result }
    ensures room { WithinRoom 65 out.old out.new result }
{
    out.reserve(MAX_REPORT_BYTES)?;
    out.push_reserved(b'!');
    let InputFault { line, fault } = refused;
    push_field(out, fault.kind.letter(), usize::from(fault.kind.number()));
    push_field(out, b' ', line);
    push_field(out, b' ', fault.place);
    out.push_reserved(b'\n');
    Ok(())
}

// Appends the tail of a plan that has come to so many lines and pairs. Without the memory for it `out` stays as it is.
pub fn push_tail(out: &mut Vec<u8>, tally: Tally) -> Result<(), AllocError>
    ensures bytes { Appended (tail_line tally.lines tally.pairs) out.old out.new result }
    ensures room { WithinRoom 65 out.old out.new result }
{
    out.reserve(MAX_REPORT_BYTES)?;
    push_field(out, b'#', tally.lines);
    push_field(out, b' ', tally.pairs);
    out.push_reserved(b'\n');
    Ok(())
}
