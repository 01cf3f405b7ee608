// trees: reads a notation and then expressions, one to a line, from standard input, and writes the tree of each, or the
// fault line of one that does not read.
#![tactic(auto)]

mod printing;

use crate::printing::push_tree;
use notation::Notation;
use plan::{InputFault, NumberedLines, push_fault_line, read_notation};
use rack::{Fill, Node, RACK_NODES};
use reading::Reader;
use std::alloc::{AllocError, Global};
use std::io;
use std::io::{Read, Write};

// Appends a line for each expression: its tree, or its fault line.
fn push_trees<N: Notation>(
    heap: Global,
    out: &mut Vec<u8>,
    expressions: NumberedLines<'_>,
    notation: &N,
) -> Result<(), AllocError> {
    let mut reader = Reader::new(heap)?;
    let mut nodes = vec![in heap; Node::BLANK; RACK_NODES]?;
    let rack = nodes.as_mut_slice();
    for line in expressions {
        let mut fill = Fill::new();
        match reader.read(rack, &mut fill, line.bytes, notation) {
            Ok(_) => {
                push_tree(out, &rack[..fill.used()])?;
                out.extend_from_slice(b"\n")?;
            }
            Err(fault) => {
                let refused = InputFault {
                    line: line.number,
                    fault,
                };
                push_fault_line(out, refused)?;
            }
        }
    }
    Ok(())
}

fn main(rt: HostRuntime) -> io::Result<()> {
    let mut input = Vec::new(rt.alloc());
    rt.stdin().read_to_end(&mut input)?;
    let mut output = Vec::new(rt.alloc());
    let mut lines = NumberedLines::new(input.as_slice());
    match read_notation(&mut lines) {
        Ok(notation) => push_trees(rt.alloc(), &mut output, lines, &notation)?,
        Err(refused) => push_fault_line(&mut output, refused)?,
    }
    rt.stdout().write_all(output.as_slice())
}
