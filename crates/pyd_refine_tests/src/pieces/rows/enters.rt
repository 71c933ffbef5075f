//! Bodies of functions, by hand from the rules of refining.

pub(crate) const ROWS: &str = r##"§
from pydron import schedule
@schedule
def f():
    print(1)
f()
--- a function is entered
9 9: 0 -
1 4 Print 1
next 2: value None
--- a function that takes no control is entered with one
9 9: 0 False
1 4 Print 1
next 2: value None
§
from pydron import schedule
@schedule
def f(a, b):
    if a:
        c = 1
    return c, b
x = 1 + 2
print(f(x, "k"))
--- parameters take arguments, and no other slot is bound
9 9: 1 -
3 4 Cond #0.0
4 6 Read #3.2
5 6 Read #3.1
6 6 Tuple #4.0 #5.0
3 if 0 arm 0: #0.0 'k' ?
next 7: value #6.0
§
from pydron import functional, schedule
@functional
@schedule
def f(a):
    b = a + 1
    return b * 2
print(f(3))
--- a function that is pure and unfolded is entered
9 9: 0 -
2 5 Add 3 1
3 6 Mul #2.0 2
next 4: value #3.0
§
from pydron import functional, schedule
@functional
def g(x):
    return x
def h(x):
    return x
@functional
@schedule
def k(x):
    return x
@schedule
def f(a):
    return g(a), h(a), k(a), f(a)
f(3)
--- calls of the four kinds in a function
9 9: 0 -
1 13 Call g 3
2 13 Run h 3
3 13 Enter k 3
4 13 Enter f 3
5 13 Tuple #1.0 #2.0 #3.0 #4.0
next 6: value #5.0
§
from pydron import schedule
@schedule
def f(a):
    print(a)
    print(b)
    b = 1
f(3)
--- a body that stops has no value
9 9: 0 -
1 4 Print 3
2 5 Stop UnboundLocalError
next 3: value ?
§
from pydron import schedule
@schedule
def f(n):
    while n:
        if n == 5:
            return n
        n = n - 1
    print(n)
f(7)
--- a loop that a return may leave is the last of a body
9 9: 0 -
1 4 While 7
1 loop 0 turns 0, after 0: 7
next 2: value #1.1
§
from pydron import schedule
@schedule
def f(a):
    b = f(a - 1) if a else b
    return b
f(2)
--- a choice in a function
9 9: 0 -
1 4 Pick 2
1 yes e1 no e6: 2 ?
next 2: value #1.0
--- a side that enters a function
9 9: 0 -, 1 True
2 4 Sub 2 1
3 4 Enter f #2.0
next 4: value #3.0
--- a local that a side reads before it is bound
9 9: 0 -, 1 False
2 4 Stop UnboundLocalError
next 3: value ?
--- a call as deep as is allowed
9 2: 0 -, 1 True, 3 -
4 4 Pick #2.0
4 yes e1 no e6: #2.0 ?
next 5: value #4.0
--- a call that is one too deep
9 1: 0 -, 1 True, 3 -
4 4 Stop DepthLimit
next 5: value ?
"##;
