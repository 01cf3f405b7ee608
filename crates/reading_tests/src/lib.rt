// Examples of reading, which are proved and run. The crate has no code but a notation to read them under.
#![tactic(auto)]

mod example_list;

pub use example_list::ExampleList;

#[cfg(test)]
mod tests {
    use crate::ExampleList;
    use rack::{Fill, Item, Name, Node};
    use reading::Reader;
    use std::process::Abort;
    use std::test::Fail;
    use tokens::Fault;

    const ROOM: usize = 8;

    fn function(function: u8, size: usize) -> Node {
        Node {
            item: Item::Function(function),
            size,
        }
    }

    fn name(word: &[u8]) -> Node {
        Name::new(word).map_or(
            Node::BLANK,
            |name| Node {
                item: Item::Name(name),
                size: 1,
            },
        )
    }

    // A text that is read under the list of the worked examples into a rack of which `used` nodes are in use. `case` is
    // told if anything else is answered or left than the example has.
    #[derive(Drop)]
    struct Example<'a> {
        text: &'a [u8],
        rack: [Node; ROOM],
        used: usize,
        case: &'a str,
    }

    impl Example<'_> {
        // What reading it answers, the rack afterwards, and how many of its nodes are in use.
        fn read(&self, reader: &mut Reader) -> (Result<usize, Fault>, [Node; ROOM], usize) {
            let mut rack = self.rack;
            let mut fill = Fill {
                used: self.used.min(ROOM),
            };
            let answer = reader.read(&mut rack, &mut fill, self.text, &ExampleList);
            (answer, rack, fill.used())
        }

        // The text reads as a tree; the nodes in use are then these.
        fn check_tree(
            &self,
            rt: &impl Abort,
            reader: &mut Reader,
            nodes: &[Node],
        ) -> Result<(), Fail> {
            let (answer, rack, used) = self.read(reader);
            let root = answer.map_err(|_| Fail::new("refused"))?;
            assert!(rt;
                used == nodes.len() && used > root && used - root == 1,
                "{}",
                self.case
            );
            assert!(rt; &rack[..used.min(ROOM)] == nodes, "{}", self.case);
            Ok(())
        }

        // The text is refused with the number at the place, and the fill is put back.
        fn check_fault(
            &self,
            rt: &impl Abort,
            reader: &mut Reader,
            number: u8,
            place: usize,
        ) -> Result<(), Fail> {
            let (answer, _, used) = self.read(reader);
            let Err(fault) = answer else {
                return Err(Fail::new("accepted"));
            };
            assert_eq!(rt; fault.kind.letter(), b'R', "{}", self.case);
            assert_eq!(rt; fault.kind.number(), number, "{}", self.case);
            assert_eq!(rt; fault.place, place, "{}", self.case);
            assert_eq!(rt; used, self.used, "{}", self.case);
            Ok(())
        }
    }

    const REFUSED: [(&[u8], u8, usize); 13] = [
        (b")a{", 21, 2),
        (b"a b abcdefghijklmnopq", 23, 4),
        (b"a$b", 24, 1),
        (b"$", 24, 0),
        (b"", 25, 0),
        (b"()", 25, 1),
        (b"a+", 25, 2),
        (b"a b", 26, 2),
        (b"a(b)", 26, 1),
        (b"a not", 26, 2),
        (b"a)", 27, 1),
        (b"((a", 27, 3),
        (b"a=b=c", 28, 3),
    ];

    #[test]
    fn refusals(rt: HostRuntime) -> Result<(), Fail> {
        let mut reader = Reader::new(rt.alloc())?;
        for (text, number, place) in REFUSED {
            for (used, case) in [(2, "behind nodes in use"), (ROOM, "in a full rack")] {
                Example {
                    text,
                    rack: [Node::BLANK; ROOM],
                    used,
                    case,
                }
                .check_fault(&rt, &mut reader, number, place)?;
            }
        }
        let brackets = vec![in rt.alloc(); b')'; 4097]?;
        Example {
            text: brackets.as_slice(),
            rack: [Node::BLANK; ROOM],
            used: 2,
            case: "too many bytes",
        }
        .check_fault(&rt, &mut reader, 20, 4096)?;
        Example {
            text: &brackets.as_slice()[0..1025],
            rack: [Node::BLANK; ROOM],
            used: 2,
            case: "too many tokens",
        }
        .check_fault(&rt, &mut reader, 22, 1024)?;
        Example {
            text: b"a+b",
            rack: [Node::BLANK; ROOM],
            used: 6,
            case: "three nodes in two places",
        }
        .check_fault(&rt, &mut reader, 30, 6)
    }

    #[test]
    fn trees(rt: HostRuntime) -> Result<(), Fail> {
        let (a, b, c) = (name(b"a"), name(b"b"), name(b"c"));
        let mut reader = Reader::new(rt.alloc())?;
        let nodes = [a, b, c, function(35, 3), function(0, 4), function(32, 6)];
        Example {
            text: b"a*not b+c",
            rack: [Node::BLANK; ROOM],
            used: 0,
            case: "a prefix operator",
        }
        .check_tree(&rt, &mut reader, &nodes)?;
        let nodes = [a, b, function(35, 3), function(1, 4), c, function(32, 6)];
        Example {
            text: b"a+b later*c",
            rack: [Node::BLANK; ROOM],
            used: 0,
            case: "a postfix operator",
        }
        .check_tree(&rt, &mut reader, &nodes)?;
        let nodes = [c, c, c, c, a, b, function(2, 2), function(46, 4)];
        Example {
            text: b"((a)^(-b))",
            rack: [c; ROOM],
            used: 4,
            case: "behind nodes in use",
        }
        .check_tree(&rt, &mut reader, &nodes)
    }
}
