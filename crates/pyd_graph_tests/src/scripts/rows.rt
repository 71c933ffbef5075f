//! Scripts and their graphs, by hand from the rules of translation.

/// How many they are.
pub(crate) const COUNT: usize = 49;

/// Behind `§ ` a title, the script, a line `---`, and the graph.
pub(crate) const ROWS: &str = r##"§ the empty script
---
§ strings, imports, functions and constants make no nodes
"""Counts."""
from pydron import functional

LEVEL = 3

@functional
def f(x):
    return x + LEVEL
---
§ literals and names make no nodes
1
"a"
None
x = True
x
print(x)
---
0 6 Print True
§ constants are known
A = -3
B = (1, ("x",), None)
print(A, B, __name__)
---
0 3 Print -3 (1, ('x',), None) '__main__'
§ an if behind an assignment
x = 1 + 2
if x > 2:
    print(x * 2)
---
0 1 Add 1 2
1 2 Gt #0.0 2
2 2 Cond #1.0
§ tuples are built
print((1, 2), (), (3,))
---
0 1 Tuple 1 2
1 1 Tuple
2 1 Tuple 3
3 1 Print #0.0 #1.0 #2.0
§ unary operators
x = 5 + 0
print(-x, +x, not x, - -1)
---
0 1 Add 5 0
1 2 Neg #0.0
2 2 Pos #0.0
3 2 Not #0.0
4 2 Neg 1
5 2 Neg #4.0
6 2 Print #1.0 #2.0 #3.0 #5.0
§ a power takes its right side first
print(-2 ** 2 ** 3, 2 ** -1)
---
0 1 Pow 2 3
1 1 Pow 2 #0.0
2 1 Neg #1.0
3 1 Neg 1
4 1 Pow 2 #3.0
5 1 Print #2.0 #4.0
§ operators of one level go from the left
print(1 - 2 + 3, 7 // 2 % 3 * 4, 1 << 2 >> 3, 1 & 2 | 3 ^ 4)
---
0 1 Sub 1 2
1 1 Add #0.0 3
2 1 Div 7 2
3 1 Mod #2.0 3
4 1 Mul #3.0 4
5 1 Shl 1 2
6 1 Shr #5.0 3
7 1 BitAnd 1 2
8 1 BitXor 3 4
9 1 BitOr #7.0 #8.0
10 1 Print #1.0 #4.0 #6.0 #9.0
§ operands come from the left
print((1 + 2) * (3 - 4))
---
0 1 Add 1 2
1 1 Sub 3 4
2 1 Mul #0.0 #1.0
3 1 Print #2.0
§ comparisons of one link
print(1 == 2, 1 != 2, 1 < 2, 1 <= 2, 1 > 2, 1 >= 2, "a" in "ab", "a" not in "ab")
---
0 1 Eq 1 2
1 1 Ne 1 2
2 1 Lt 1 2
3 1 Le 1 2
4 1 Gt 1 2
5 1 Ge 1 2
6 1 In 'a' 'ab'
7 1 NotIn 'a' 'ab'
8 1 Print #0.0 #1.0 #2.0 #3.0 #4.0 #5.0 #6.0 #7.0
§ a comparison of more links makes its first link alone
print(1 < 2 + 3 < 4 + 5 <= 6)
---
0 1 Add 2 3
1 1 Lt 1 #0.0
2 1 Pick #1.0
3 1 Print #2.0
§ an and and an or make their first member alone
x = 1 + 1
print(x and x + 1 and 2, x or print(3))
---
0 1 Add 1 1
1 2 Pick #0.0
2 2 Pick #0.0
3 2 Print #1.0 #2.0
§ an and within an or waits
print(0 or 1 + 1 and 2)
---
0 1 Pick 0
1 1 Print #0.0
§ an and is the first member of an or
print(1 < 2 and 3 or 4)
---
0 1 Lt 1 2
1 1 Pick #0.0
2 1 Pick #1.0
3 1 Print #2.0
§ a not of an and
print(not (1 and 2))
---
0 1 Pick 1
1 1 Not #0.0
2 1 Print #1.0
§ a conditional expression makes its test alone
x = 0 + 1
y = x + 2 if x - 1 else x + 3
print(y)
---
0 1 Add 0 1
1 2 Sub #0.0 1
2 2 Pick #1.0
3 3 Print #2.0
§ indexes and slices
t = (1, 2, 3)
i = 1 + 1
print(t[0], t[i - 1], t[1:], t[:i], t[1:i], t[:], t[i:][0])
---
0 2 Add 1 1
1 3 Index (1, 2, 3) 0
2 3 Sub #0.0 1
3 3 Index (1, 2, 3) #2.0
4 3 Slice (1, 2, 3) 1
5 3 Slice (1, 2, 3) #0.0
6 3 Slice (1, 2, 3) 1 #0.0
7 3 Slice (1, 2, 3)
8 3 Slice (1, 2, 3) #0.0
9 3 Index #8.0 0
10 3 Print #1.0 #3.0 #4.0 #5.0 #6.0 #7.0 #9.0
§ a tuple of targets is unpacked
a, b = 1 + 2, 3
print(b, a)
---
0 1 Add 1 2
1 1 Tuple #0.0 3
2 1 Unpack 2 #1.0
3 2 Print #2.1 #2.0
§ a tuple of one target
(a,) = "x"
print(a)
---
0 1 Unpack 1 'x'
1 2 Print #0.0
§ a target that stands twice has the later member
a, a = 1, 2
print(a)
---
0 1 Tuple 1 2
1 1 Unpack 2 #0.0
2 2 Print #1.1
§ variables are exchanged
a = 1 + 0
b = 2 + 0
a, b = b, a
print(a, b)
---
0 1 Add 1 0
1 2 Add 2 0
2 3 Tuple #1.0 #0.0
3 3 Unpack 2 #2.0
4 4 Print #3.0 #3.1
§ augmented assignments
x = 2 + 1
x *= x + 1
x -= 1
print(x)
---
0 1 Add 2 1
1 2 Add #0.0 1
2 2 Mul #0.0 #1.0
3 3 Sub #2.0 1
4 4 Print #3.0
§ an augmented assignment reads its variable first
x += 1 // 0
---
0 1 Stop NameError
§ an augmented assignment reads a slot port
x = 1 + 1
if x:
    x = 2
x += x
print(x)
---
0 1 Add 1 1
1 2 Cond #0.0
2 4 Read #1.0
3 4 Read #1.0
4 4 Add #2.0 #3.0
5 5 Print #4.0
§ a slot port is read at each use
x = 1 + 1
if x:
    x = 2
print(x, x)
y = x
print(y, y)
---
0 1 Add 1 1
1 2 Cond #0.0
2 4 Read #1.0
3 4 Read #1.0
4 4 Print #2.0 #3.0
5 5 Read #1.0
6 6 Print #5.0 #5.0
§ a variable that one arm binds
if 1 < 2:
    x = 1
print(x)
---
0 1 Lt 1 2
1 1 Cond #0.0
2 3 Read #1.0
3 3 Print #2.0
§ a variable that is bound below has a slot port
if 1:
    pass
print(x)
x = 1
print(x)
---
0 1 Cond 1
1 3 Read #0.0
2 3 Print #1.0
3 5 Print 1
§ an if with elif and else
x = 3 + 0
if x > 2:
    print(1)
elif x > 1:
    print(2)
else:
    x = 4
print("end")
---
0 1 Add 3 0
1 2 Gt #0.0 2
2 2 Cond #1.0
3 8 Print 'end'
§ a while makes its test and is gone on behind
n = 3 + 0
while n > 0:
    n -= 1
print(n)
---
0 1 Add 3 0
1 2 Gt #0.0 0
2 2 While #1.0
3 4 Read #2.0
4 4 Print #3.0
§ a loop that a break or continue ends is gone on behind
for i in range(3):
    if i:
        continue
    break
print(i)
---
0 1 Range 3
1 1 For #0.0
2 5 Read #1.0
3 5 Print #2.0
§ a for with a tuple of targets
for a, b in (1, 2), (3, 4):
    print(a)
print(b)
---
0 1 Tuple 1 2
1 1 Tuple 3 4
2 1 Tuple #0.0 #1.0
3 1 For #2.0
4 3 Read #3.1
5 3 Print #4.0
§ a range of three, and a text
for i in range(1 + 0, 9, -2):
    pass
for c in "ab":
    pass
---
0 1 Add 1 0
1 1 Neg 2
2 1 Range #0.0 9 #1.0
3 1 For #2.0
4 3 For 'ab'
§ slots stand in text order
for b in "x":
    c = 1
    a = 2
print(a, b, c)
---
0 1 For 'x'
1 4 Read #0.2
2 4 Read #0.0
3 4 Read #0.1
4 4 Print #1.0 #2.0 #3.0
§ an assert
assert 1 < 2
assert None
print(3)
---
0 1 Lt 1 2
1 1 Assert #0.0
2 2 Assert None
3 3 Print 3
§ an assert with a message
x = 1 + 1
assert x == 2, print(x)
print(4)
---
0 1 Add 1 1
1 2 Eq #0.0 2
2 2 Pick #1.0
3 2 Assert #1.0
4 3 Print 4
§ a fault in a message waits
assert 1, nothing
print(2)
---
0 1 Pick 1
1 1 Assert 1
2 2 Print 2
§ calls of the four kinds
from pydron import schedule, functional

@schedule
def a(x):
    return x

@functional
def b(x):
    return x

@functional
@schedule
def c(x):
    return x

def d(x):
    return x

print(a(1), b(2), c(3), d(4))
---
0 19 Enter a 1
1 19 Call b 2
2 19 Enter c 3
3 19 Run d 4
4 19 Print #0.0 #1.0 #2.0 #3.0
§ arguments come before their call
def f(a, b):
    return a

f(1 + 2, f(3, "x"))
---
0 4 Add 1 2
1 4 Run f 3 'x'
2 4 Run f #0.0 #1.0
§ builtin functions
print(len("ab"), abs(1), min(1, 2), max((3,)), sum("", 0), str(), repr("a\n"), int("2"), bool(0))
---
0 1 Len 'ab'
1 1 Abs 1
2 1 Min 1 2
3 1 Tuple 3
4 1 Max #3.0
5 1 Sum '' 0
6 1 Str
7 1 Repr 'a\n'
8 1 Int '2'
9 1 Bool 0
10 1 Print #0.0 #1.0 #2.0 #4.0 #5.0 #6.0 #7.0 #8.0 #9.0
§ the value of a print
x = print("it's")
print(x, print())
---
0 1 Print "it's"
1 2 Print
2 2 Print #0.0 #1.0
§ too many arguments of a function
def f(a):
    return a

x = f(1 + 1, 2)
print(x)
---
0 4 Add 1 1
1 4 Stop TypeError
§ too few arguments of functions with marks
from pydron import schedule, functional
@schedule
@functional
def f(a):
    return a
print(1)
print(f())
print(2)
---
0 6 Print 1
1 7 Stop TypeError
§ a count that a builtin function doesn't take is no Stop
print(len())
print(1)
---
0 1 Len
1 1 Print #0.0
2 2 Print 1
§ a variable before it is bound stops
print(1 + 2, y, 3 + 4)
y = 3
print(y)
---
0 1 Add 1 2
1 1 Stop NameError
§ an unbound callee stops before its arguments
x = 1 + 2
nothing(x + 1)
---
0 1 Add 1 2
1 2 Stop NameError
§ an unbound name stops a test
while nothing < 1 + 1:
    pass
print(2)
---
0 1 Stop NameError
§ a later member that is unbound waits
print(1 and nothing)
print(nothing or 1)
print(2)
---
0 1 Pick 1
1 1 Print #0.0
2 2 Stop NameError
§ a statement over lines has its first line
x = (1 +
     2)
print(
    x)
---
0 1 Add 1 2
1 3 Print #0.0
"##;
