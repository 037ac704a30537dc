use crate::listing::listing;
use std::test::Fail;
use text_bytes::position_of;

const TEXTS: [(&[u8], &str); 36] = [
    (b"", "0 end"),
    (b" \t\r\n ", "5 end"),
    (b"# open at the end", "17 end"),
    (b"a # \"no string\" \xff\n;", "0 name a, 18 mark 2, 19 end"),
    (
        b"{};:,=.-",
        "0 mark 0, 1 mark 1, 2 mark 2, 3 mark 3, 4 mark 4, 5 mark 5, 6 mark 6, 7 mark 7, 8 end",
    ),
    (
        b"Version Versions version",
        "0 keyword Version, 8 name Versions, 17 name version, 24 end",
    ),
    (
        b"IncrementCounters _1",
        "0 keyword IncrementCounters, 18 name _1, 20 end",
    ),
    (
        b"a23456789_123456789_123456789_12",
        "0 name a23456789_123456789_123456789_12, 32 end",
    ),
    (b" a23456789_123456789_123456789_123", "4 at 1"),
    (b"2147483647", "0 number 2147483647, 10 end"),
    (b"2147483648", "4 at 0"),
    (b"99999999999999999999999999999999", "4 at 0"),
    (
        b"00000000000000000000002147483647",
        "0 number 2147483647, 32 end",
    ),
    (b"000000000000000000000000000000007", "4 at 0"),
    (b"007 0", "0 number 7, 4 number 0, 5 end"),
    (b"12abc", "0 number 12, 2 name abc, 5 end"),
    (b"-5", "0 mark 7, 1 number 5, 2 end"),
    (b"1.", "0 number 1, 1 mark 6, 2 end"),
    (b"1.5.3", "0 decimal 1.5, 3 mark 6, 4 number 3, 5 end"),
    (
        b"1.a 1. 5",
        "0 number 1, 1 mark 6, 2 name a, 4 number 1, 5 mark 6, 7 number 5, 8 end",
    ),
    (b"1.5000000000000000000000000000000", "4 at 0"),
    (
        b"1.500000000000000000000000000000",
        "0 decimal 1.500000000000000000000000000000, 32 end",
    ),
    (b"99999999999.5", "0 decimal 99999999999.5, 13 end"),
    (b"000000000000000000000000000000001.5", "4 at 0"),
    (b"\"\" \"# {\"", "0 string , 3 string # {, 8 end"),
    (
        b"\"123456789 123456789 123456789 123456789 123456789 123456789 1234\"",
        "0 string 123456789 123456789 123456789 123456789 123456789 123456789 1234, 66 end",
    ),
    (
        b"\"123456789 123456789 123456789 123456789 123456789 123456789 12345\"",
        "4 at 0",
    ),
    (
        b"\"123456789 123456789 123456789 123456789 123456789 123456789 1234\n",
        "5 at 0",
    ),
    (
        b"\"123456789 123456789 123456789 123456789 123456789 123456789 12345\t",
        "4 at 0",
    ),
    (b"; \"a\tb\"", "0 mark 2, 3 at 4"),
    (b"\"a\x7f\"", "3 at 2"),
    (b"; \"cut\n\"", "0 mark 2, 5 at 2"),
    (b"; \"cut", "0 mark 2, 5 at 2"),
    (b"a\x00", "0 name a, 3 at 1"),
    (b"\xff", "3 at 0"),
    (b"a @ \"", "0 name a, 3 at 2"),
];

#[test]
fn texts_read_as_the_table_says(rt: HostRuntime) -> Result<(), Fail> {
    for (text, expected) in TEXTS {
        let read = listing(rt.alloc(), text)?;
        assert!(rt; read.as_str() == expected, "{read}");
    }
    Ok(())
}

const PLACES: [(&[u8], usize, usize, usize); 7] = [
    (b"", 0, 1, 1),
    (b"ab", 1, 1, 2),
    (b"a\nb", 1, 1, 2),
    (b"a\nb", 2, 2, 1),
    (b"a\n\n\tb", 4, 3, 2),
    (b"a\n", 2, 2, 1),
    (b"a\nbc", 9, 2, 3),
];

#[test]
fn places_have_line_and_column(rt: HostRuntime) {
    for (text, place, line, column) in PLACES {
        let position = position_of(text, place);
        assert_eq!(rt; position.line, line);
        assert_eq!(rt; position.column, column);
    }
}
