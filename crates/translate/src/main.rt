// translate: reads a plan from standard input and writes it in canonical spacing to standard output.
#![tactic(auto)]

use plan::{Workspace, translate};
use std::io;
use std::io::{Read, Write};

fn main(rt: HostRuntime) -> io::Result<()> {
    let mut input = Vec::new(rt.alloc());
    rt.stdin().read_to_end(&mut input)?;
    let mut work = Workspace::new(rt.alloc())?;
    let mut output = Vec::new(rt.alloc());
    translate(&mut work, &mut output, input.as_slice())?;
    rt.stdout().write_all(output.as_slice())
}
