//! Scripts that are run: what is on the two sinks, a script a line, with ¶ for a line end.

/// Scripts that end in every way. CPython does the same, apart from limits and refusals.
pub(crate) const SCRIPTS: &str = "→→
print()¶print((1,), \"it's\", (\"it's\", None, True))¶→¶(1,) it's (\"it's\", None, True)¶→
print(-7 // 2, -7 % 2, 7 % -2, -2 ** 2, 0 ** 0)¶→-4 1 -1 -4 1¶→
print(2**126 + (2**126 - 1))¶print(2**127)¶→170141183460469231731687303715884105727¶→LIMIT IntLimit: line 2¶
def f(a):¶    return a // 0¶¶x = 0¶print(x and f(1), 1 < 2 > 0)¶→0 True¶→
from pydron import schedule, functional¶¶@functional¶def slow(x):¶    s = 0¶    for i in range(1000):¶        s = s + i¶    return s // x¶¶@schedule¶def main():¶    print(slow(1))¶    a = slow(0)¶    b = slow(\"x\")¶    print(a, b)¶¶main()¶→499500¶→ZeroDivisionError: line 8¶
from pydron import functional¶¶@functional¶def down(k):¶    return down(k + 1)¶¶print(1 // 0)¶print(down(0))¶→→ZeroDivisionError: line 7¶
from pydron import functional¶¶@functional¶def down(k):¶    return down(k + 1)¶¶print(down(0))¶→→LIMIT DepthLimit: line 5¶
def f(c):¶    if c:¶        x = 1¶    return x¶¶print(f(True))¶print(f(False))¶→1¶→UnboundLocalError: line 4¶
from pydron import schedule¶¶@schedule¶def f(c):¶    if c:¶        x = 1¶    return x¶¶print(f(True))¶print(f(False))¶→1¶→UnboundLocalError: line 7¶
if False:¶    y = 1¶print(y)¶→→NameError: line 3¶
from pydron import functional¶¶@functional¶def g(x):¶    return x + 1¶¶def shout(a):¶    print(\"one\", a)¶    print(\"two\", a)¶    return a // 0¶¶print(g(1))¶shout(g(2))¶print(g(3))¶→2¶one 3¶two 3¶→ZeroDivisionError: line 10¶
print(len(\"a\" * 1048575))¶print(len(\"a\" * 1048576))¶→1048575¶→LIMIT SizeLimit: line 2¶
from pydron import schedule, functional¶¶@functional¶def half(x):¶    return x // 2¶¶@schedule¶def count(x):¶    k = 0¶    while True:¶        if x == 1:¶            break¶        x = half(x)¶        k += 1¶    return k¶¶for i in range(1, 10):¶    if i % 4 == 0:¶        continue¶    print(i, count(i))¶→1 0¶2 1¶3 1¶5 2¶6 2¶7 2¶9 3¶→
print(170141183460469231731687303715884105726 + 1 + 0)¶→170141183460469231731687303715884105727¶→
print(7)¶print(170141183460469231731687303715884105727 + 1)¶print(8)¶→7¶→LIMIT IntLimit: line 2¶
print(1)  # one¶¶# two¶print ( 2, )¶→1¶2¶→
print(0x10 + 1_0)¶→26¶→
\"text\"¶print(\"é\", \"\\n\")¶→é ¶¶→
print(1)¶assert 2 < 1, \"no\"¶print(2)¶→1¶→AssertionError: line 2¶
print((1, 2)[2])¶→→IndexError: line 1¶
a, b = 1, 2, 3¶→→ValueError: line 1¶
print(1 + \"a\")¶→→TypeError: line 1¶
print(2 ** -1)¶→→LIMIT Outside: line 1¶
for i in range(100001):¶    pass¶→→LIMIT TurnLimit: line 1¶
def f(c):¶    if c:¶        x = 1¶    return x¶¶f(False)¶→→UnboundLocalError: line 4¶
print(1 // 0)¶→→ZeroDivisionError: line 1¶
print(2 ** 127)¶→→LIMIT IntLimit: line 1¶
print(len(\"a\" * 1048576))¶→→LIMIT SizeLimit: line 1¶
def down(k):¶    return down(k + 1)¶¶down(0)¶→→LIMIT DepthLimit: line 2¶
def ratio(part, whole):¶    return part * 100 // whole¶¶for part, whole in ((1, 4), (3, 0), (1, 2)):¶    print(\"percent\", ratio(part, whole))¶→percent 25¶→ZeroDivisionError: line 2¶
print(1)¶print(2)¶return 1¶→→REFUSED ReturnOutside: line 3¶
print(1 + 2) ; print(3)¶→→REFUSED BadChar: line 1¶
print(1¶→→REFUSED Syntax: line 2¶";

/// Two loops, of three turns and of four.
pub(crate) const TURNS: &str = "for i in range(3):¶    print(i)¶for i in range(4):¶    print(i)¶";

/// A whole script: five functions and two constants.
pub(crate) const PIXELS: &str = "\"\"\"Counts of bright pixels in three small fields.\"\"\"
from pydron import schedule, functional

# a pixel at or above LEVEL is bright
LEVEL = 50
FIELDS = ((\"north\", 17, 5), (\"east\", 5, 4), (\"west\", 29, 3))

@functional
def pixel(seed, i):
    return (seed * i * i + 13 * i) % 100

@functional
def bright(seed, n):
    count = 0
    for i in range(n):
        if pixel(seed, i) >= LEVEL:
            count += 1
    return count

@functional
def depth(n):
    \"\"\"Halvings until one is left.\"\"\"
    if n <= 1:
        return 0
    return 1 + depth(n // 2)

def report(rows):
    for name, found, levels in rows:
        if found > 0:
            print(name + \":\", found, levels)
        else:
            print(name + \": none\")

@schedule
def main():
    rows = ()
    total = 0
    for name, seed, n in FIELDS:
        found = bright(seed, n)
        rows += ((name, found, depth(n)),)
        total += found
    report(rows)
    print(\"total\", total, \"of\", sum((5, 4, 3)))
    print(rows[-1], max(rows)[0])

if __name__ == \"__main__\":
    main()
";

/// What it prints.
pub(crate) const PIXELS_OUTPUT: &str = "north: 2 2
east: 1 2
west: none
total 3 of 12
('west', 0, 1) west
";
