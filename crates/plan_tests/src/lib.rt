// Examples for the crates `tokens` and `plan`, run by the gate. The crate has no code of its own.
#![tactic(auto)]

#[cfg(test)]
mod tests {
    use plan::{Workspace, translate};
    use std::process::Abort;
    use std::test::Fail;
    use tokens::{Cutter, TokenKind, check_expression, needs_space};

    // Runs the command on each input, and compares what it puts out; a case that differs is told by its name.
    fn check_outputs(
        rt: &(impl Abort + AllocGlobal),
        cases: &[(&str, &[u8], &[u8])],
    ) -> Result<(), Fail> {
        let mut work = Workspace::new(rt.alloc())?;
        for (case, input, output) in cases {
            let mut out = Vec::new(rt.alloc());
            translate(&mut work, &mut out, input)?;
            assert_eq!(rt; out.as_slice(), *output, "{case}");
        }
        Ok(())
    }

    #[test]
    fn plans_at_their_ends(rt: HostRuntime) -> Result<(), Fail> {
        let cases: [(&str, &[u8], &[u8]); 5] = [
            ("no lines", b"ladder\nladder", b"#0 0\n"),
            ("an empty line", b"ladder\nladder\n\n", b"!P40 3 0\n#0 0\n"),
            ("no last line end", b"ladder\nladder\n1\ta", b"1\ta\n#1 0\n"),
            ("a tail at once", b"ladder\nladder\n#", b"#0 0\n"),
            (
                "lines behind the tail",
                b"ladder\ndeclared\n0 900 fy not\nend\n201\t( a ) * b\n202\tc + \xff\n#9 9\n203\td\n",
                b"201\t(a)*b\n!R21 6 4\n#1 1\n",
            ),
        ];
        check_outputs(&rt, &cases)
    }

    // A plan is read under the first of its notations, and not under the second.
    #[test]
    fn lines_that_do_not_read(rt: HostRuntime) -> Result<(), Fail> {
        let cases: [(&str, &[u8], &[u8]); 4] = [
            (
                "an operator that is not of the list",
                b"declared\n0 900 fy not\nend\nladder\n201\t( a ) * b\n202\tnot a\n",
                b"!R24 5 6\n202\tnot a\n#1 0\n",
            ),
            (
                "one line that reads and one that does not",
                b"declared\n0 900 fy not\n32 400 yfx *\nend\nladder\n201\t(not a)*b\n202\tc+*\n#2 1\n",
                b"201\t(not a)*b\n!R24 7 1\n#1 1\n",
            ),
            (
                "what is due, brackets and priorities",
                b"declared\n43 700 xfx =\nend\nladder\n1\t\n2\ta b\n3\ta)\n4\t(a\n5\ta=b=c\n",
                b"!R25 5 0\n!R26 6 2\n!R27 7 1\n!R27 8 2\n!R28 9 3\n#0 0\n",
            ),
            (
                "a line after one that was refused half-way",
                b"ladder\nladder\n1\t((a+b\n2\t(a)+b\n",
                b"!R27 3 5\n2\t(a)+b\n#1 1\n",
            ),
        ];
        check_outputs(&rt, &cases)
    }

    #[test]
    fn notations_that_are_refused(rt: HostRuntime) -> Result<(), Fail> {
        let cases: [(&str, &[u8], &[u8]); 7] = [
            ("no notation", b"", b"!D10 1 0\n"),
            ("one notation", b"ladder\n", b"!D10 2 0\n"),
            ("a capital", b"ladder\nLadder\n", b"!D10 2 0\n"),
            ("a space after the word", b"ladder \n", b"!D10 1 0\n"),
            ("no end", b"declared\n", b"!D10 2 0\n"),
            (
                "two fields",
                b"declared\nend\ndeclared\n1 2\n",
                b"!D10 4 0\n",
            ),
            (
                "sides that clash",
                b"ladder\ndeclared\n32 400 yfx *\n33 400 xfy =>\nend\n1\ta\n",
                b"!D17 4 2\n",
            ),
        ];
        check_outputs(&rt, &cases)
    }

    #[test]
    fn tokens_and_their_places(rt: HostRuntime) -> Result<(), Fail> {
        let mut cutter = Cutter::new(b" ab+(1 <=");
        let word = cutter.next().ok_or("no word")?;
        assert!(rt; word.kind() == TokenKind::Word);
        assert_eq!(rt; word.place(), 1);
        assert_eq!(rt; word.bytes(), b"ab".as_slice());
        let plus = cutter.next().ok_or("no symbol")?;
        assert!(rt; plus.kind() == TokenKind::Symbol);
        let open = cutter.next().ok_or("no bracket")?;
        assert_eq!(rt; open.place(), 4);
        let number = cutter.next().ok_or("no number")?;
        assert_eq!(rt; number.bytes(), b"1".as_slice());
        let at_most = cutter.next().ok_or("no last symbol")?;
        assert_eq!(rt; at_most.bytes(), b"<=".as_slice());
        assert!(rt; cutter.next().is_none());
        Ok(())
    }

    #[test]
    fn limits_and_spaces(rt: HostRuntime) -> Result<(), Fail> {
        assert!(rt; check_expression(b"a+b").is_ok());
        let fault = check_expression(b"abcdefghijklmnopq")
            .err()
            .ok_or("a long word was accepted")?;
        assert_eq!(rt; fault.kind.letter(), b'R');
        assert_eq!(rt; fault.kind.number(), 23);
        assert!(rt; needs_space(TokenKind::Word, TokenKind::Word));
        assert!(rt; !needs_space(TokenKind::Word, TokenKind::Symbol));
        Ok(())
    }
}
