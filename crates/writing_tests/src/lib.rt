// Examples of writing, which are proved and run. The crate has no code but these.
#![tactic(auto)]

#[cfg(test)]
mod tests {
    use rack::{Fill, Node};
    use reading::Reader;
    use reading_tests::ExampleList;
    use std::process::Abort;
    use std::test::Fail;
    use tokens::{Fault, FaultKind};
    use writing::{ByteOutlet, CountingOutlet, LineWriter, Outlet};

    const ROOM: usize = 16;

    // A rack with the tree of one text, and its root.
    struct Tree {
        rack: [Node; ROOM],
        fill: Fill,
        root: usize,
    }

    fn tree_of(reader: &mut Reader, text: &[u8]) -> Result<Tree, Fail> {
        let mut rack = [Node::BLANK; ROOM];
        let mut fill = Fill::new();
        let root = reader
            .read(&mut rack, &mut fill, text, &ExampleList)
            .map_err(|_| Fail::new("the text does not read"))?;
        Ok(Tree { rack, fill, root })
    }

    // A text, the line that is written for its tree with the digits 17, and the pairs in it.
    const WRITTEN: [(&[u8], &[u8], u64); 10] = [
        (b"a", b"17\ta\n", 0),
        (b"((a))", b"17\ta\n", 0),
        (b"a*(not b)", b"17\ta*not b\n", 0),
        (b"((a)*not b)+c", b"17\t(a*not b)+c\n", 1),
        (b"a*(not (b+c))", b"17\ta*not b+c\n", 0),
        (b"(a)^(-b)", b"17\ta^ -b\n", 0),
        (b"x+((b later)^(not c))*v", b"17\tx+(b later^not c)*v\n", 1),
        (b"a+(b+c)", b"17\ta+(b+c)\n", 1),
        (b"(a+b)+c", b"17\ta+b+c\n", 0),
        (b"- (-a)", b"17\t- -a\n", 0),
    ];

    #[test]
    fn fewest_brackets(rt: HostRuntime) -> Result<(), Fail> {
        let mut reader = Reader::new(rt.alloc())?;
        let mut writer = LineWriter::new(rt.alloc())?;
        for (text, line, pairs) in WRITTEN {
            let Tree { rack, fill, root } = tree_of(&mut reader, text)?;
            let mut bytes = ByteOutlet::new(rt.alloc(), 64)?;
            let told = writer.put_line(&rack, &fill, b"17", root, &ExampleList, &mut bytes);
            assert!(rt; told == Ok(pairs));
            assert!(rt; bytes.as_bytes() == line);
            assert_eq!(rt; bytes.pairs(), pairs);
            let mut counts = CountingOutlet::new();
            let told = writer.put_line(&rack, &fill, b"17", root, &ExampleList, &mut counts);
            assert!(rt; told == Ok(pairs));
            assert_eq!(rt; counts.counts.bytes, line.len() as u64);
        }
        Ok(())
    }

    fn fault(kind: FaultKind, place: usize) -> Result<u64, Fault> {
        Err(Fault { kind, place })
    }

    #[test]
    fn refusals(rt: HostRuntime) -> Result<(), Fail> {
        let mut reader = Reader::new(rt.alloc())?;
        let mut writer = LineWriter::new(rt.alloc())?;
        let Tree { rack, fill, root } = tree_of(&mut reader, b"(a*not b)+c")?;
        let mut bytes = ByteOutlet::new(rt.alloc(), 13)?;
        for digits in [b"".as_slice(), b"123456789", b"1a"] {
            let told = writer.put_line(&rack, &fill, digits, root, &ExampleList, &mut bytes);
            assert!(rt; told == fault(FaultKind::MalformedLine, 0));
        }
        let told = writer.put_line(&rack, &fill, b"17", ROOM, &ExampleList, &mut bytes);
        assert!(rt; told == fault(FaultKind::NoSuchRoot, 0));
        let told = writer.put_line(&rack, &fill, b"17", root, &ExampleList, &mut bytes);
        assert!(rt; told == fault(FaultKind::OutletRefused, 0));
        assert!(rt; bytes.as_bytes().is_empty());
        assert_eq!(rt; bytes.pairs(), 0);
        Ok(())
    }
}
