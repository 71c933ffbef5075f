//! Ifs and their arms, by hand from the rules of refining.

pub(crate) const ROWS: &str = r##"§
x = 1 + 1
if x > 1:
    x = x * 2
print(x)
--- an if whose test is true
9 9: 2 True
5 3 Mul #0.0 2
next 6: #5.0 value None
--- an if whose test is false
9 9: 2 False
next 5: #0.0 value None
--- an if whose test is absent
9 9: 2 -
5 2 Stop NameError
next 6: #0.0 value ?
§
x = 1 + 1
if x > 1:
    x = 5
else:
    x = x - 1
print(x)
--- an else
9 9: 2 False
5 5 Sub #0.0 1
next 6: #5.0 value None
§
x = 1 + 1
if x > 1:
    x = 5
elif x < 0:
    x = x + 6
else:
    x = 7
--- an arm behind a false one makes its test in its own line
9 9: 2 False
3 4 Lt #0.0 0
4 4 Cond #3.0
4 if 1 arm 1: #0.0
next 5: $4.0 value #4.1
--- the second arm
9 9: 2 False, 4 True
5 5 Add #0.0 6
next 6: #5.0 value None
--- an else behind two arms
9 9: 2 False, 4 False
next 5: 7 value None
§
x = 1 + 1
if x > 1:
    pass
elif x:
    x = 0
--- an arm whose test is a name
9 9: 2 False
3 4 Cond #0.0
3 if 1 arm 1: #0.0
next 4: $3.0 value #3.1
--- no arm is left, nor an else
9 9: 2 False, 3 False
next 4: #0.0 value None
§
x = 1 + 1
if x > 1:
    pass
elif x > 2 + 3:
    x = x - 4
elif x and x - 1:
    x = 8
--- an arm whose test is an and
9 9: 2 False, 5 False
6 6 Pick #0.0
7 6 Cond #6.0
6 yes e14.1 None no #0.0: #0.0
7 if 1 arm 2: #0.0
next 8: $7.0 value #7.1
§
if 1 > 2:
    pass
elif nothing:
    pass
--- an arm whose test stops
9 9: 1 False
2 3 Stop NameError
next 3: value ?
§
x = 1 + 1
if x:
    y = x + 1
    print(z)
    x = 3
z = 2 + 2
--- the slots behind a Stop are as they were there
9 9: 1 True
3 3 Add #0.0 1
4 4 Stop NameError
next 5: #0.0 #3.0 ? value ?
§
x = 1 + 1
y = x + 1
if x:
    y = 5
else:
    z = 6
print(y)
--- an arm that isn't chosen unbinds nothing
9 9: 2 False
next 5: #0.0 #1.0 6 value None
§
N = None
x = 1 + 1
if x:
    x = 2
else:
    x = 3
--- a test may be None
9 9: 1 N
next 2: 3 value None
§
T = "no"
x = 1 + 1
if x:
    x = 2
else:
    x = 3
--- a test may be a text
9 9: 1 T
next 2: 2 value None
§
Q = ()
x = 1 + 1
if x:
    x = 2
else:
    x = 3
--- a test may be the empty tuple
9 9: 1 Q
next 2: 3 value None
§
I = 0
x = 1 + 1
if x:
    x = 2
else:
    x = 3
--- a test may be a number
9 9: 1 I
next 2: 3 value None
§
from pydron import schedule
@schedule
def f(a):
    if a:
        return a + 1
    b = a * 2
    return b
print(f(3))
--- a return leaves out the rest
9 9: 0 -, 2 True
3 5 Add 3 1
next 4: 3 ? value #3.0
--- the rest behind an arm that isn't there
9 9: 0 -, 2 False
3 6 Mul 3 2
next 4: 3 #3.0 value #3.0
§
from pydron import schedule
@schedule
def f(a):
    if a:
        return 1
    elif a + 1:
        a = 2
    print(a)
print(f(3))
--- an arm of an if that goes on with its rest
9 9: 0 -, 2 False
3 6 Add 3 1
4 6 Cond #3.0
4 if 0 arm 1, after 0: 3
next 5: $4.0 value #4.1
--- the rest behind an arm
9 9: 0 -, 2 False, 4 True
5 8 Print 2
next 6: 2 value None
§
from pydron import schedule
@schedule
def f():
    if 1:
        if 2:
            return 3
        print(4)
    print(5)
f()
--- an inner if takes the rests of the outer one
9 9: 0 -, 1 True
2 5 Cond 2
2 if 1 arm 0, after 1, after 0:
next 3: value #2.0
--- both rests of an inner if
9 9: 0 -, 1 True, 2 False
3 7 Print 4
4 8 Print 5
next 5: value None
"##;
