// Examples for the crate `notation`, run by the gate. The crate has no code of its own.
#![tactic(auto)]

#[cfg(test)]
mod tests {
    use notation::{Ladder, Notation, OpenList, Position};

    // Declares the line, and gives the letter, the number and the place of its fault, if it is refused.
    fn fault(list: &mut OpenList, line: &[u8]) -> Option<(u8, u8, usize)> {
        let fault = list.declare(line).err()?;
        Some((fault.kind.letter(), fault.kind.number(), fault.place))
    }

    #[test]
    fn fields_and_numbers(rt: HostRuntime) {
        let mut list = OpenList::new();
        assert_eq!(rt; fault(&mut list, b""), Some((b'D', 10, 0)));
        assert_eq!(rt; fault(&mut list, b"0 900 fy"), Some((b'D', 10, 0)));
        assert_eq!(rt; fault(&mut list, b"0 900 fy not x"), Some((b'D', 10, 0)));
        assert_eq!(rt; fault(&mut list, b"0  900 fy not"), Some((b'D', 10, 0)));
        assert_eq!(rt; fault(&mut list, b" 0 900 fy not"), Some((b'D', 10, 0)));
        assert_eq!(rt; fault(&mut list, b"0 900 fy not "), Some((b'D', 10, 0)));
        assert_eq!(rt; fault(&mut list, b"00000 900 fy not"), Some((b'D', 10, 0)));
        assert_eq!(rt; fault(&mut list, b"0 -900 fy not"), Some((b'D', 10, 0)));
        assert_eq!(rt; fault(&mut list, b"x 900 fy not"), Some((b'D', 10, 0)));
        assert_eq!(rt;
            fault(&mut list, b"0000 0900 fy not"),
            None,
            "leading zeros"
        );
    }

    #[test]
    fn rules_at_their_edges(rt: HostRuntime) {
        let mut list = OpenList::new();
        assert_eq!(rt; fault(&mut list, b"0 900 yy not"), Some((b'D', 11, 3)));
        assert_eq!(rt; fault(&mut list, b"64 900 yfx +"), Some((b'D', 12, 1)));
        assert_eq!(rt; fault(&mut list, b"31 900 yfx +"), Some((b'D', 12, 1)));
        assert_eq!(rt; fault(&mut list, b"32 900 fy +"), Some((b'D', 12, 1)));
        assert_eq!(rt; fault(&mut list, b"0 0 fy not"), Some((b'D', 13, 2)));
        assert_eq!(rt; fault(&mut list, b"0 1201 fy not"), Some((b'D', 13, 2)));
        assert_eq!(rt;
            fault(&mut list, b"0 900 fy abcdefghijklm"),
            Some((b'D', 14, 4))
        );
        assert_eq!(rt; fault(&mut list, b"0 900 fy 1a"), Some((b'D', 14, 4)));
        assert_eq!(rt; fault(&mut list, b"0 900 fy a+"), Some((b'D', 14, 4)));
        assert_eq!(rt; fault(&mut list, b"0 900 fy ("), Some((b'D', 14, 4)));
        assert_eq!(rt;
            fault(&mut list, b"0 1 fy abcdefghijkl"),
            None,
            "priority 1, twelve bytes"
        );
        assert_eq!(rt;
            fault(&mut list, b"63 1200 xfx +"),
            None,
            "priority 1200, function 63"
        );
    }

    #[test]
    fn rules_of_a_list(rt: HostRuntime) {
        let mut list = OpenList::new();
        assert_eq!(rt; fault(&mut list, b"2 200 fy -"), None, "a sign before");
        assert_eq!(rt; fault(&mut list, b"2 300 fy ~"), Some((b'D', 15, 1)));
        assert_eq!(rt; fault(&mut list, b"3 300 fy -"), Some((b'D', 16, 4)));
        assert_eq!(rt;
            fault(&mut list, b"36 500 yfx -"),
            None,
            "taken before, free after"
        );
        assert_eq!(rt; fault(&mut list, b"4 300 yf -"), Some((b'D', 16, 4)));
        assert_eq!(rt; fault(&mut list, b"50 500 xfy =>"), Some((b'D', 17, 2)));
        assert_eq!(rt; fault(&mut list, b"5 500 fy !"), Some((b'D', 17, 2)));
        // y left of f where one has it right
        assert_eq!(rt; fault(&mut list, b"32 200 yfx *"), Some((b'D', 17, 2)));
        assert_eq!(rt; fault(&mut list, b"50 500 xfx =>"), None, "x on both sides");
    }

    #[test]
    fn the_first_of_two_faults(rt: HostRuntime) {
        let mut list = OpenList::new();
        assert_eq!(rt; fault(&mut list, b"0 900 fy not"), None, "a word before");
        assert_eq!(rt; fault(&mut list, b"0 1201 zz not"), Some((b'D', 11, 3)));
        assert_eq!(rt; fault(&mut list, b"64 1201 fy not"), Some((b'D', 12, 1)));
        assert_eq!(rt; fault(&mut list, b"1 1201 fy ("), Some((b'D', 13, 2)));
        assert_eq!(rt; fault(&mut list, b"0 900 fy not"), Some((b'D', 15, 1)));
        assert_eq!(rt; fault(&mut list, b"1 900 fy not"), Some((b'D', 16, 4)));
    }

    #[test]
    fn lookups(rt: HostRuntime) {
        let empty = OpenList::new().seal();
        assert!(rt; empty.listed(Position::Before, b"not").is_none());
        assert!(rt; empty.operator(0).is_none());
        let mut list = OpenList::new();
        assert_eq!(rt; fault(&mut list, b"2 200 fy -"), None, "a sign before");
        assert_eq!(rt;
            fault(&mut list, b"36 500 yfx -"),
            None,
            "the same sign after"
        );
        let sealed = list.seal();
        assert_eq!(rt; sealed.listed(Position::Before, b"-"), Some(2));
        assert_eq!(rt; sealed.listed(Position::After, b"-"), Some(36));
        assert!(rt; sealed.listed(Position::After, b"--").is_none());
    }

    // The ladder, function by function, both ways.
    #[test]
    fn the_ladder_both_ways(rt: HostRuntime) {
        // Functions are numbers, and there is no list of them to go over.
        for function in 0..64 {
            let position = if function < 4 {
                Position::Before
            } else {
                Position::After
            };
            if let Some(operator) = Ladder.operator(function) {
                assert_eq!(rt; Ladder.listed(position, operator.spelling), Some(function));
            }
        }
        assert!(rt; Ladder.operator(52).is_none());
    }
}
