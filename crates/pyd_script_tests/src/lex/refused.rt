//! Sources that CPython's tokenize reads otherwise or not at all, with their tokens or their fault.

pub(crate) const LISTED: [(&str, &str); 24] = [
    (
        "x\ry\r\nz",
        "Name@0-1:1 Newline@1-2:1 Name@2-3:2 Newline@3-5:2 Name@5-6:3 Newline@6-6:3 End@6-6:3",
    ),
    (
        "'''\r\n\r'''x",
        "Str@0-9:1 Name@9-10:3 Newline@10-10:3 End@10-10:3",
    ),
    ("\u{feff}x", "Name@3-4:1 Newline@4-4:1 End@4-4:1"),
    ("\u{feff}", "End@3-3:1"),
    (" \t \n# c", "End@7-7:2"),
    (
        "(\n\tx)",
        "Mark(LeftParen)@0-1:1 Name@3-4:2 Mark(RightParen)@4-5:2 Newline@5-5:2 End@5-5:2",
    ),
    ("x\ty", "Name@0-1:1 Name@2-3:1 Newline@3-3:1 End@3-3:1"),
    (
        ")\nx",
        "Mark(RightParen)@0-1:1 Newline@1-2:1 Name@2-3:2 Newline@3-3:2 End@3-3:2",
    ),
    ("(\nx", "Mark(LeftParen)@0-1:1 Name@2-3:2 End@3-3:2"),
    ("0xF0", "Int(240)@0-4:1 Newline@4-4:1 End@4-4:1"),
    (
        "0x7fffffffffffffffffffffffffffffff",
        "Int(170141183460469231731687303715884105727)@0-34:1 Newline@34-34:1 End@34-34:1",
    ),
    (
        "0o1777777777777777777777777777777777777777777",
        "Int(170141183460469231731687303715884105727)@0-45:1 Newline@45-45:1 End@45-45:1",
    ),
    ("x\u{30c}", "Name@0-3:1 Newline@3-3:1 End@3-3:1"),
    ("\u{feff}\u{feff}", "BadChar(1)"),
    (
        "])",
        "Mark(RightBracket)@0-1:1 Mark(RightParen)@1-2:1 Newline@2-2:1 End@2-2:1",
    ),
    ("00_0", "Int(0)@0-4:1 Newline@4-4:1 End@4-4:1"),
    ("''''", "BadString(1)"),
    ("'''x'", "BadString(1)"),
    ("\"\"\"a\"\"", "BadString(1)"),
    ("x\n'''a\n\nb", "BadString(2)"),
    ("'a\nb'", "BadString(1)"),
    ("'a", "BadString(1)"),
    ("'\\x41'", "BadString(1)"),
    ("'\\", "BadString(1)"),
];

pub(crate) const CHARS: [(&str, &str); 21] = [
    ("a\n?\n", "BadChar(2)"),
    ("a \\\n", "BadChar(1)"),
    ("a!b", "BadChar(1)"),
    ("a/b", "BadChar(1)"),
    ("a.b", "BadChar(1)"),
    ("1.5", "BadChar(1)"),
    ("{", "BadChar(1)"),
    ("a;b", "BadChar(1)"),
    ("x\u{c}", "BadChar(1)"),
    ("\0", "BadChar(1)"),
    ("\n# a\0b", "BadChar(2)"),
    ("\t# \0", "BadChar(1)"),
    ("\tx\0", "Tab(1)"),
    ("'a\0b'", "BadChar(1)"),
    ("'\\\0'", "BadString(1)"),
    ("'''\n\0'''", "BadChar(1)"),
    ("'\0\\q'", "BadChar(1)"),
    ("'\\q\0'", "BadString(1)"),
    ("\u{fb01}", "BadName(1)"),
    ("\ne\u{301}", "BadName(2)"),
    ("x\n\u{aa}", "BadName(2)"),
];

pub(crate) const NUMBERS: [(&str, &str); 19] = [
    ("01", "BadNumber(1)"),
    ("0_1", "BadNumber(1)"),
    ("1__0", "BadNumber(1)"),
    ("1_", "BadNumber(1)"),
    ("0b2", "BadNumber(1)"),
    ("0o8", "BadNumber(1)"),
    ("0xg", "BadNumber(1)"),
    ("0x", "BadNumber(1)"),
    ("0x__1", "BadNumber(1)"),
    ("0x1_", "BadNumber(1)"),
    ("1e5", "BadNumber(1)"),
    ("12abc", "BadNumber(1)"),
    ("1\u{663}", "BadNumber(1)"),
    ("x\n01\n?", "BadNumber(2)"),
    ("170141183460469231731687303715884105728", "WideNumber(1)"),
    ("0x80000000000000000000000000000000", "WideNumber(1)"),
    (
        "0o2000000000000000000000000000000000000000000",
        "WideNumber(1)",
    ),
    (
        "0b10000000000000000000000000000000000000000000000000000000000000000000000000000000000000000000000000000000000000000000000000000000",
        "WideNumber(1)",
    ),
    (
        "0999999999999999999999999999999999999999999",
        "BadNumber(1)",
    ),
];

pub(crate) const LINES: [(&str, &str); 8] = [
    ("\tx", "Tab(1)"),
    ("x\n \ty", "Tab(2)"),
    ("\t?", "Tab(1)"),
    ("\t01", "Tab(1)"),
    ("if x:\n    y\n  z\n", "BadDedent(3)"),
    ("if x:\n    y\n  ?\n", "BadDedent(3)"),
    ("  x\n y\n", "BadDedent(2)"),
    ("if x:\n    y\n \tz\n", "Tab(3)"),
];

pub(crate) const BYTES: [(&[u8], &str); 5] = [
    (b"a\n\xff", "Utf8(2)"),
    (b"?\xff", "Utf8(1)"),
    (b"\xe2\x82", "Utf8(0)"),
    (b"\xed\xa0\x80", "Utf8(0)"),
    (b"a\xc3(", "Utf8(1)"),
];

pub(crate) const TEXTS: [(&str, &str); 3] = [
    ("'''a\r\nb\rc\n'''", "|a\nb\nc\n"),
    ("'\\\\n' \"\\t\"", "|\\n|\t"),
    ("'''a''b\\''''", "|a''b'"),
];
