//! Sources, and what CPython's tokenize makes of them. Written by tools/token_rows.py.

pub(crate) const TOKENS: [(&str, &str); 41] = [
    ("", "End@0-0:1"),
    ("\u{a}", "End@1-1:2"),
    ("x", "Name@0-1:1 Newline@1-1:1 End@1-1:1"),
    ("x\u{a}", "Name@0-1:1 Newline@1-2:1 End@2-2:2"),
    ("x  # end", "Name@0-1:1 Newline@8-8:1 End@8-8:1"),
    ("# alone", "End@7-7:1"),
    (
        "  # alone\u{a}\u{a}   \u{a}x\u{a}",
        "Name@15-16:4 Newline@16-17:4 End@17-17:5",
    ),
    (
        "x = 1\u{a}y = 2\u{a}",
        "Name@0-1:1 Mark(Assign)@2-3:1 Int(1)@4-5:1 Newline@5-6:1 Name@6-7:2 Mark(Assign)@8-9:2 Int(2)@10-11:2 Newline@11-12:2 End@12-12:3",
    ),
    (
        "x\u{d}\u{a}y\u{d}\u{a}",
        "Name@0-1:1 Newline@1-3:1 Name@3-4:2 Newline@4-6:2 End@6-6:3",
    ),
    (
        "def f(a, b):\u{a}    return a + b\u{a}",
        "Word(Def)@0-3:1 Name@4-5:1 Mark(LeftParen)@5-6:1 Name@6-7:1 Mark(Comma)@7-8:1 Name@9-10:1 Mark(RightParen)@10-11:1 Mark(Colon)@11-12:1 Newline@12-13:1 Indent@17-17:2 Word(Return)@17-23:2 Name@24-25:2 Mark(Add)@26-27:2 Name@28-29:2 Newline@29-30:2 Dedent@30-30:3 End@30-30:3",
    ),
    (
        "if a:\u{a}  b\u{a}  if c:\u{a}      d\u{a}e\u{a}",
        "Word(If)@0-2:1 Name@3-4:1 Mark(Colon)@4-5:1 Newline@5-6:1 Indent@8-8:2 Name@8-9:2 Newline@9-10:2 Word(If)@12-14:3 Name@15-16:3 Mark(Colon)@16-17:3 Newline@17-18:3 Indent@24-24:4 Name@24-25:4 Newline@25-26:4 Dedent@26-26:5 Dedent@26-26:5 Name@26-27:5 Newline@27-28:5 End@28-28:6",
    ),
    (
        "while x:\u{a} if y:\u{a}  pass\u{a}\u{a} # low\u{a}  break\u{a}else:\u{a} return\u{a}",
        "Word(While)@0-5:1 Name@6-7:1 Mark(Colon)@7-8:1 Newline@8-9:1 Indent@10-10:2 Word(If)@10-12:2 Name@13-14:2 Mark(Colon)@14-15:2 Newline@15-16:2 Indent@18-18:3 Word(Pass)@18-22:3 Newline@22-23:3 Word(Break)@33-38:6 Newline@38-39:6 Dedent@39-39:7 Dedent@39-39:7 Word(Else)@39-43:7 Mark(Colon)@43-44:7 Newline@44-45:7 Indent@46-46:8 Word(Return)@46-52:8 Newline@52-53:8 Dedent@53-53:9 End@53-53:9",
    ),
    (
        "for i in range(3):\u{a}    pass\u{a}",
        "Word(For)@0-3:1 Name@4-5:1 Word(In)@6-8:1 Name@9-14:1 Mark(LeftParen)@14-15:1 Int(3)@15-16:1 Mark(RightParen)@16-17:1 Mark(Colon)@17-18:1 Newline@18-19:1 Indent@23-23:2 Word(Pass)@23-27:2 Newline@27-28:2 Dedent@28-28:3 End@28-28:3",
    ),
    (
        "x = (1,\u{a}     2,\u{a}  # three\u{a}\u{a} 3)\u{a}",
        "Name@0-1:1 Mark(Assign)@2-3:1 Mark(LeftParen)@4-5:1 Int(1)@5-6:1 Mark(Comma)@6-7:1 Int(2)@13-14:2 Mark(Comma)@14-15:2 Int(3)@28-29:5 Mark(RightParen)@29-30:5 Newline@30-31:5 End@31-31:6",
    ),
    (
        "f([1, (2,\u{a}3)],\u{a}4)\u{a}",
        "Name@0-1:1 Mark(LeftParen)@1-2:1 Mark(LeftBracket)@2-3:1 Int(1)@3-4:1 Mark(Comma)@4-5:1 Mark(LeftParen)@6-7:1 Int(2)@7-8:1 Mark(Comma)@8-9:1 Int(3)@10-11:2 Mark(RightParen)@11-12:2 Mark(RightBracket)@12-13:2 Mark(Comma)@13-14:2 Int(4)@15-16:3 Mark(RightParen)@16-17:3 Newline@17-18:3 End@18-18:4",
    ),
    (
        "a **= b // c << d >> e ** f\u{a}",
        "Name@0-1:1 Mark(PowAssign)@2-5:1 Name@6-7:1 Mark(Div)@8-10:1 Name@11-12:1 Mark(Shl)@13-15:1 Name@16-17:1 Mark(Shr)@18-20:1 Name@21-22:1 Mark(Pow)@23-25:1 Name@26-27:1 Newline@27-28:1 End@28-28:2",
    ),
    (
        "a //= b\u{a}a <<= 1\u{a}a >>= 1\u{a}a += 1\u{a}a -= 1\u{a}a *= 2\u{a}a %= 3\u{a}a &= 4\u{a}a |= 5\u{a}a ^= 6\u{a}",
        "Name@0-1:1 Mark(DivAssign)@2-5:1 Name@6-7:1 Newline@7-8:1 Name@8-9:2 Mark(ShlAssign)@10-13:2 Int(1)@14-15:2 Newline@15-16:2 Name@16-17:3 Mark(ShrAssign)@18-21:3 Int(1)@22-23:3 Newline@23-24:3 Name@24-25:4 Mark(AddAssign)@26-28:4 Int(1)@29-30:4 Newline@30-31:4 Name@31-32:5 Mark(SubAssign)@33-35:5 Int(1)@36-37:5 Newline@37-38:5 Name@38-39:6 Mark(MulAssign)@40-42:6 Int(2)@43-44:6 Newline@44-45:6 Name@45-46:7 Mark(ModAssign)@47-49:7 Int(3)@50-51:7 Newline@51-52:7 Name@52-53:8 Mark(AndAssign)@54-56:8 Int(4)@57-58:8 Newline@58-59:8 Name@59-60:9 Mark(OrAssign)@61-63:9 Int(5)@64-65:9 Newline@65-66:9 Name@66-67:10 Mark(XorAssign)@68-70:10 Int(6)@71-72:10 Newline@72-73:10 End@73-73:11",
    ),
    (
        "a<b<=c==d!=e>=f>g\u{a}",
        "Name@0-1:1 Mark(Lt)@1-2:1 Name@2-3:1 Mark(Le)@3-5:1 Name@5-6:1 Mark(Eq)@6-8:1 Name@8-9:1 Mark(Ne)@9-11:1 Name@11-12:1 Mark(Ge)@12-14:1 Name@14-15:1 Mark(Gt)@15-16:1 Name@16-17:1 Newline@17-18:1 End@18-18:2",
    ),
    (
        "a+b-c*d%e&f|g^h@i\u{a}",
        "Name@0-1:1 Mark(Add)@1-2:1 Name@2-3:1 Mark(Sub)@3-4:1 Name@4-5:1 Mark(Mul)@5-6:1 Name@6-7:1 Mark(Mod)@7-8:1 Name@8-9:1 Mark(And)@9-10:1 Name@10-11:1 Mark(Or)@11-12:1 Name@12-13:1 Mark(Xor)@13-14:1 Name@14-15:1 Mark(At)@15-16:1 Name@16-17:1 Newline@17-18:1 End@18-18:2",
    ),
    (
        "a***b\u{a}",
        "Name@0-1:1 Mark(Pow)@1-3:1 Mark(Mul)@3-4:1 Name@4-5:1 Newline@5-6:1 End@6-6:2",
    ),
    (
        "a<<=b>>=c**=d//=e\u{a}",
        "Name@0-1:1 Mark(ShlAssign)@1-4:1 Name@4-5:1 Mark(ShrAssign)@5-8:1 Name@8-9:1 Mark(PowAssign)@9-12:1 Name@12-13:1 Mark(DivAssign)@13-16:1 Name@16-17:1 Newline@17-18:1 End@18-18:2",
    ),
    (
        "a[1:2]\u{a}",
        "Name@0-1:1 Mark(LeftBracket)@1-2:1 Int(1)@2-3:1 Mark(Colon)@3-4:1 Int(2)@4-5:1 Mark(RightBracket)@5-6:1 Newline@6-7:1 End@7-7:2",
    ),
    (
        "False None True and as assert async await break class continue def del elif else except finally for\u{a}",
        "Word(False)@0-5:1 Word(None)@6-10:1 Word(True)@11-15:1 Word(And)@16-19:1 Word(As)@20-22:1 Word(Assert)@23-29:1 Word(Async)@30-35:1 Word(Await)@36-41:1 Word(Break)@42-47:1 Word(Class)@48-53:1 Word(Continue)@54-62:1 Word(Def)@63-66:1 Word(Del)@67-70:1 Word(Elif)@71-75:1 Word(Else)@76-80:1 Word(Except)@81-87:1 Word(Finally)@88-95:1 Word(For)@96-99:1 Newline@99-100:1 End@100-100:2",
    ),
    (
        "from global if import in is lambda nonlocal not or pass raise return try while with yield\u{a}",
        "Word(From)@0-4:1 Word(Global)@5-11:1 Word(If)@12-14:1 Word(Import)@15-21:1 Word(In)@22-24:1 Word(Is)@25-27:1 Word(Lambda)@28-34:1 Word(Nonlocal)@35-43:1 Word(Not)@44-47:1 Word(Or)@48-50:1 Word(Pass)@51-55:1 Word(Raise)@56-61:1 Word(Return)@62-68:1 Word(Try)@69-72:1 Word(While)@73-78:1 Word(With)@79-83:1 Word(Yield)@84-89:1 Newline@89-90:1 End@90-90:2",
    ),
    (
        "false Nones _true __x__ _ a1 \u{e9}t\u{e9} \u{540d}\u{524d} if_ ifx\u{a}",
        "Name@0-5:1 Name@6-11:1 Name@12-17:1 Name@18-23:1 Name@24-25:1 Name@26-28:1 Name@29-34:1 Name@35-41:1 Name@42-45:1 Name@46-49:1 Newline@49-50:1 End@50-50:2",
    ),
    (
        "0 00 0_0 7 10 1_000 123456789012345678901234567890\u{a}",
        "Int(0)@0-1:1 Int(0)@2-4:1 Int(0)@5-8:1 Int(7)@9-10:1 Int(10)@11-13:1 Int(1000)@14-19:1 Int(123456789012345678901234567890)@20-50:1 Newline@50-51:1 End@51-51:2",
    ),
    (
        "0x_1 0XfF 0xdead_beef 0o17 0O_7 0b101 0B_1\u{a}",
        "Int(1)@0-4:1 Int(255)@5-9:1 Int(3735928559)@10-21:1 Int(15)@22-26:1 Int(7)@27-31:1 Int(5)@32-37:1 Int(1)@38-42:1 Newline@42-43:1 End@43-43:2",
    ),
    (
        "170141183460469231731687303715884105727\u{a}",
        "Int(170141183460469231731687303715884105727)@0-39:1 Newline@39-40:1 End@40-40:2",
    ),
    (
        "'' \u{22}\u{22} 'a' \u{22}b\u{22} '''c''' \u{22}\u{22}\u{22}d\u{22}\u{22}\u{22} '''''' \u{22}\u{22}\u{22}\u{22}\u{22}\u{22}\u{a}",
        "Str@0-2:1 Str@3-5:1 Str@6-9:1 Str@10-13:1 Str@14-21:1 Str@22-29:1 Str@30-36:1 Str@37-43:1 Newline@43-44:1 End@44-44:2",
    ),
    (
        "'a\u{5c}\u{5c}b\u{5c}'c\u{5c}\u{22}d\u{5c}ne\u{5c}tf\u{5c}rg'\u{a}",
        "Str@0-21:1 Newline@21-22:1 End@22-22:2",
    ),
    (
        "\u{22}it's\u{22} 'say \u{22}hi\u{22}' '\u{e9}t\u{e9} \u{540d}'\u{a}",
        "Str@0-6:1 Str@7-17:1 Str@18-29:1 Newline@29-30:1 End@30-30:2",
    ),
    (
        "'''one\u{a}two'three''four\u{a}''' x\u{a}",
        "Str@0-26:1 Name@27-28:3 Newline@28-29:3 End@29-29:4",
    ),
    (
        "\u{22}\u{22}\u{22}a\u{5c}\u{22}\u{22}\u{22}b\u{22}\u{22}\u{22}\u{a}",
        "Str@0-12:1 Newline@12-13:1 End@13-13:2",
    ),
    ("'#' # '\u{a}", "Str@0-3:1 Newline@7-8:1 End@8-8:2"),
    (
        "x = '''a\u{a}\u{a}  b''' + 'c'\u{a}",
        "Name@0-1:1 Mark(Assign)@2-3:1 Str@4-16:1 Mark(Add)@17-18:3 Str@19-22:3 Newline@22-23:3 End@23-23:4",
    ),
    (
        "'a' 'b'\u{a}",
        "Str@0-3:1 Str@4-7:1 Newline@7-8:1 End@8-8:2",
    ),
    (
        "@schedule\u{a}def f():\u{a}  '''doc'''\u{a}",
        "Mark(At)@0-1:1 Name@1-9:1 Newline@9-10:1 Word(Def)@10-13:2 Name@14-15:2 Mark(LeftParen)@15-16:2 Mark(RightParen)@16-17:2 Mark(Colon)@17-18:2 Newline@18-19:2 Indent@21-21:3 Str@21-30:3 Newline@30-31:3 Dedent@31-31:4 End@31-31:4",
    ),
    (
        "-1 - -1\u{a}",
        "Mark(Sub)@0-1:1 Int(1)@1-2:1 Mark(Sub)@3-4:1 Mark(Sub)@5-6:1 Int(1)@6-7:1 Newline@7-8:1 End@8-8:2",
    ),
    (
        "if x:\u{a}  y",
        "Word(If)@0-2:1 Name@3-4:1 Mark(Colon)@4-5:1 Newline@5-6:1 Indent@8-8:2 Name@8-9:2 Newline@9-9:2 Dedent@9-9:2 End@9-9:2",
    ),
    (
        "if x:\u{a}  y # z",
        "Word(If)@0-2:1 Name@3-4:1 Mark(Colon)@4-5:1 Newline@5-6:1 Indent@8-8:2 Name@8-9:2 Newline@13-13:2 Dedent@13-13:2 End@13-13:2",
    ),
    ("(1", "Mark(LeftParen)@0-1:1 Int(1)@1-2:1 End@2-2:1"),
];

// Sources of strings alone, and the texts of these, each behind a vertical bar.
pub(crate) const TEXTS: [(&str, &str); 9] = [
    (
        "'' \u{22}\u{22} 'a' \u{22}b\u{22} '''c''' \u{22}\u{22}\u{22}d\u{22}\u{22}\u{22} '''''' \u{22}\u{22}\u{22}\u{22}\u{22}\u{22}\u{a}",
        "|||a|b|c|d||",
    ),
    (
        "'a\u{5c}\u{5c}b\u{5c}'c\u{5c}\u{22}d\u{5c}ne\u{5c}tf\u{5c}rg'\u{a}",
        "|a\u{5c}b'c\u{22}d\u{a}e\u{9}f\u{d}g",
    ),
    (
        "\u{22}it's\u{22} 'say \u{22}hi\u{22}' '\u{e9}t\u{e9} \u{540d}'\u{a}",
        "|it's|say \u{22}hi\u{22}|\u{e9}t\u{e9} \u{540d}",
    ),
    (
        "'''one\u{a}two'three''four\u{a}''' x\u{a}",
        "|one\u{a}two'three''four\u{a}",
    ),
    (
        "\u{22}\u{22}\u{22}a\u{5c}\u{22}\u{22}\u{22}b\u{22}\u{22}\u{22}\u{a}",
        "|a\u{22}\u{22}\u{22}b",
    ),
    ("'#' # '\u{a}", "|#"),
    ("x = '''a\u{a}\u{a}  b''' + 'c'\u{a}", "|a\u{a}\u{a}  b|c"),
    ("'a' 'b'\u{a}", "|a|b"),
    ("@schedule\u{a}def f():\u{a}  '''doc'''\u{a}", "|doc"),
];
