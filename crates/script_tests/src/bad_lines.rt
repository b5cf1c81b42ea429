//! Tests of why a line is bad: each reason with its text, and which of several is told.
use crate::tests::played;
use script::{BadLine, Line, Wanted, parse};
use std::process::Abort;
use std::test::Fail;

// Of a script of bad lines alone this is told, and the numbers of the lines are printed.
fn tells(rt: &(impl Abort + AllocGlobal), script: &str, reasons: &[&str]) -> Result<(), Fail> {
    let heap = rt.alloc();
    let mut messages = String::new(heap);
    let mut printed = String::new(heap);
    for (index, reason) in reasons.iter().enumerate() {
        let number = index + 1;
        messages.push_str(format!(in heap; "line {number}: {reason}\n")?.as_str())?;
        printed.push_str(format!(in heap; "bad {number}\n")?.as_str())?;
    }
    let outputs = played(heap, script.as_bytes())?;
    assert_eq!(rt;
        outputs.messages.as_slice(),
        messages.as_bytes(),
        "{script}"
    );
    assert_eq!(rt; outputs.printed.as_slice(), printed.as_bytes(), "{script}");
    assert!(rt; outputs.book.is_empty());
    Ok(())
}

#[test]
fn unknown_words_are_told_by_their_place(rt: HostRuntime) -> Result<(), Fail> {
    tells(
        &rt,
        "step\nBegin 0 0\nstores newest\nstore oldest\nstore 64\n-> done\n",
        &[
            "unknown word (word 1)",
            "unknown word (word 1)",
            "unknown word (word 1)",
            "unknown word (word 2)",
            "unknown word (word 2)",
            "unknown word (word 1)",
        ],
    )
}

#[test]
fn wrong_numbers_of_words_are_told_with_those_wanted(rt: HostRuntime) -> Result<(), Fail> {
    tells(
        &rt,
        "begin\nbegin 0\nbegin 0 0 0\nhand 0 0\nfork 0 0 0\njoin 0 0 0 0 0\nwrite 0\nread 0 0\nabandon\ndeliver 0 0\n\
        discard\nprune\ncount 0\n",
        &[
            "1 word, where 3 are wanted",
            "2 words, where 3 are wanted",
            "4 words, where 3 are wanted",
            "3 words, where 4 are wanted",
            "4 words, where 5 are wanted",
            "6 words, where 5 are wanted",
            "2 words, where 5 are wanted",
            "3 words, where 4 are wanted",
            "1 word, where 2 are wanted",
            "3 words, where 2 are wanted",
            "1 word, where 2 are wanted",
            "1 word, where 2 are wanted",
            "2 words, where 1 is wanted",
        ],
    )?;
    tells(
        &rt,
        "commit 0 0\ncommit 0 0 0 0\ncommit 0 0 0 0 0 0\ncommit 0 0 0 0 0 0 0 0 0\ncount 0 0 0 0 0\ncount 0 0 0 0 0 0\n\
        store\nstore newest 0\nstore table\nstore table 64 64\n",
        &[
            "3 words, where 4 or 6 are wanted",
            "5 words, where 4 or 6 are wanted",
            "7 or more words, where 4 or 6 are wanted",
            "7 or more words, where 4 or 6 are wanted",
            "6 words, where 1 is wanted",
            "7 or more words, where 1 is wanted",
            "1 word, where 2 or 3 are wanted",
            "3 words, where 2 are wanted",
            "2 words, where 3 are wanted",
            "4 words, where 3 are wanted",
        ],
    )
}

#[test]
fn words_that_are_no_numbers_are_told_by_their_place(rt: HostRuntime) -> Result<(), Fail> {
    tells(
        &rt,
        "abandon one\nbegin 0 +1\nhand 0 -1 0\nfork 0 0 0 0x1\njoin 0 0 0 1.0\nwrite 0 0 0 1_0\nread 0 0 1,\n\
        commit 0 0 18446744073709551616\ncommit 0 0 0 a 8\ncommit 0 0 0 32 a\nprune 18446744073709551616\n\
        deliver 340282366920938463463374607431768211456\nstore table many\n",
        &[
            "word 2 is not a number",
            "word 3 is not a number",
            "word 3 is not a number",
            "word 5 is not a number",
            "word 5 is not a number",
            "word 5 is not a number",
            "word 4 is not a number",
            "word 4 is not a number",
            "word 5 is not a number",
            "word 6 is not a number",
            "word 2 is not a number",
            "word 2 is not a number",
            "word 3 is not a number",
        ],
    )
}

#[test]
fn numbers_out_of_range_are_told_by_their_place_and_their_range(
    rt: HostRuntime,
) -> Result<(), Fail> {
    tells(
        &rt,
        "begin 256 0\nbegin 0 256\nhand 0 256 0\nfork 0 0 0 256\njoin 0 0 256 0\nwrite 0 0 256 0\nwrite 0 0 0 4294967296\n\
        read 0 0 18446744073709551615\nabandon 256\ncommit 256 0 0\ncommit 0 256 0 32 8\ncommit 0 0 0 33 8\n\
        commit 0 0 0 32 9\nstore table 1025\n",
        &[
            "word 2 is out of range (0 to 255)",
            "word 3 is out of range (0 to 255)",
            "word 3 is out of range (0 to 255)",
            "word 5 is out of range (0 to 255)",
            "word 4 is out of range (0 to 255)",
            "word 4 is out of range (0 to 255)",
            "word 5 is out of range (0 to 4294967295)",
            "word 4 is out of range (0 to 255)",
            "word 2 is out of range (0 to 255)",
            "word 2 is out of range (0 to 255)",
            "word 3 is out of range (0 to 255)",
            "word 5 is out of range (0 to 32)",
            "word 6 is out of range (0 to 8)",
            "word 3 is out of range (0 to 1024)",
        ],
    )
}

#[test]
fn first_reason_that_holds_is_told(rt: HostRuntime) -> Result<(), Fail> {
    tells(
        &rt,
        "step 0 0 0 0 0 0\nstore oldest 64 x\nbegin x\nbegin 256 x\nbegin x y\nbegin 256 257\ncommit 256 256 0 33 x\n\
        commit 0 256 0 33 9\nstore newest x\nstore table x y\n",
        &[
            "unknown word (word 1)",
            "unknown word (word 2)",
            "2 words, where 3 are wanted",
            "word 3 is not a number",
            "word 2 is not a number",
            "word 2 is out of range (0 to 255)",
            "word 6 is not a number",
            "word 3 is out of range (0 to 255)",
            "3 words, where 2 are wanted",
            "4 words, where 3 are wanted",
        ],
    )
}

#[test]
fn store_line_that_comes_too_late_is_told_as_such(rt: HostRuntime) -> Result<(), Fail> {
    let late = "a store line stands once, before every call";
    for (script, number) in [
        ("store newest\nstore newest\n", 2),
        ("store table 64\n# one\n\nstore newest", 4),
        ("count\nstore table 1024\n", 2),
    ] {
        let outputs = played(rt.alloc(), script.as_bytes())?;
        let message = format!(in rt.alloc(); "line {number}: {late}\n")?;
        assert_eq!(rt;
            outputs.messages.as_slice(),
            message.as_str().as_bytes(),
            "{script}"
        );
    }
    // one that is bad by itself is told as that
    let outputs = played(rt.alloc(), b"count\nstore table 1025\nstore")?;
    assert_eq!(rt;
        outputs.messages.as_slice(),
        b"line 2: word 3 is out of range (0 to 1024)\nline 3: 1 word, where 2 or 3 are wanted\n".as_slice()
    );
    Ok(())
}

#[test]
fn lines_are_counted_with_those_that_are_passed_over(rt: HostRuntime) -> Result<(), Fail> {
    let outputs = played(rt.alloc(), b"\n# a comment\nstep\ncount\n\nstep\n")?;
    assert_eq!(rt;
        outputs.messages.as_slice(),
        b"line 3: unknown word (word 1)\nline 6: unknown word (word 1)\n".as_slice()
    );
    assert_eq!(rt;
        outputs.printed.as_slice(),
        b"bad 3\ncount -> waiting 0 lost 0\nbad 6\n".as_slice()
    );
    Ok(())
}

#[test]
fn parsed_lines_have_their_reason(rt: HostRuntime) -> Result<(), Fail> {
    assert!(rt; matches!(parse(b"step"), Line::Bad(BadLine::UnknownWord { place: 1 })));
    let Line::Bad(bad) = parse(b"commit 0") else {
        assert!(rt; false);
        return Ok(());
    };
    assert!(rt;
        bad == BadLine::WordCount {
            words: 2,
            wanted: Wanted::Either(4, 6),
        }
    );
    assert!(rt;
        matches!(
            parse(b"count x y z 1 2 3 4"),
            Line::Bad(BadLine::WordCount { words: 7, .. })
        )
    );
    assert!(rt;
        matches!(
            parse(b"abandon x"),
            Line::Bad(BadLine::NotANumber { place: 2 })
        )
    );
    assert!(rt;
        matches!(
            parse(b"abandon 256"),
            Line::Bad(BadLine::OutOfRange {
                place: 2,
                most: 255
            })
        )
    );
    let text = format!(in rt.alloc(); "{}", BadLine::LateStore)?;
    assert_eq!(rt;
        text.as_str(),
        "a store line stands once, before every call"
    );
    Ok(())
}
