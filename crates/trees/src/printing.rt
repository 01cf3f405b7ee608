// Trees as text: a name by its bytes, a function by its number and its operands in brackets, as `32(a,0(35(b,c)))`.
use itoa::Buffer;
use notation::operands_of;
use rack::{Item, Node};
use std::alloc::AllocError;

// Appends the number of the function. Never within `push_tree`, whose frame would hold the digits at each level of a tree.
#[inline(never)]
fn push_function(out: &mut Vec<u8>, function: u8) -> Result<(), AllocError> {
    out.extend_from_slice(Buffer::new().format(function).as_bytes())
}

// Appends the tree whose root is the last of the nodes. Its operands lie before it, the last of them next to it.
pub(crate) fn push_tree(out: &mut Vec<u8>, nodes: &[Node]) -> Result<(), AllocError> {
    let [operands @ .., root] = nodes else {
        return Ok(());
    };
    let function = match root.item {
        Item::Name(name) => return out.extend_from_slice(name.word()),
        Item::Function(function) => function,
    };
    push_function(out, function)?;
    out.extend_from_slice(b"(")?;
    if let [.., last] = operands {
        if operands_of(function) == 2 {
            let first = &operands[..operands.len().saturating_sub(last.size)];
            push_tree(out, first)?;
            out.extend_from_slice(b",")?;
        }
    }
    push_tree(out, operands)?;
    out.extend_from_slice(b")")
}
