//! Turns of `for` loops, by hand from the rules of refining.

pub(crate) const ROWS: &str = r##"§
I = 5
for c in I:
    print(c)
print("end")
--- a for over a number
9 9: 0 I
2 2 Stop TypeError
next 3: ? value ?
§
B = True
for c in B:
    print(c)
print("end")
--- a for over a truth value
9 9: 0 B
2 2 Stop TypeError
next 3: ? value ?
§
N = None
for c in N:
    print(c)
print("end")
--- a for over None
9 9: 0 N
2 2 Stop TypeError
next 3: ? value ?
§
T = "ab"
for c in T:
    print(c)
print("end")
--- a for whose iterable is absent
9 9: 0 -
2 2 Stop NameError
next 3: ? value ?
§
T = "né"
for c in T:
    print(c)
--- a for over a text
9 9: 0 T
1 3 Print 'n'
2 2 For 'né'
2 loop 0 turns 1: 'n'
next 3: $2.0 value #2.1
--- the next character of a text
9 9: 0 T, 2 T
3 3 Print 'é'
4 2 For 'né'
4 loop 0 turns 2: 'é'
next 5: $4.0 value #4.1
--- a text without a next character
9 9: 0 T, 2 T, 4 T
next 5: 'é' value None
§
E = ""
for c in E:
    print(c)
--- a for over the empty text
9 9: 0 E
next 1: ? value None
§
P = (7, "x")
for c in P:
    print(c)
--- a for over a tuple
9 9: 0 P
1 3 Print 7
2 2 For (7, 'x')
2 loop 0 turns 1: 7
next 3: $2.0 value #2.1
--- a tuple without a next member
9 9: 0 P, 2 P, 4 P
next 5: 'x' value None
§
Q = ()
for c in Q:
    print(c)
--- a for over the empty tuple
9 9: 0 Q
next 1: ? value None
§
R = (4, -2, 2)
for i in range(4, 0, -2):
    print(i)
--- a for over a range
9 9: 2 R
3 3 Print 4
4 2 For #1.0
4 loop 0 turns 1: 4
next 5: $4.0 value #4.1
--- the next number of a range
9 9: 2 R, 4 R
5 3 Print 2
6 2 For #1.0
6 loop 0 turns 2: 2
next 7: $6.0 value #6.1
--- a range without a next number
9 9: 2 R, 4 R, 6 R
next 7: 2 value None
§
R = (5, 1, 0)
for i in range(5, 5):
    print(i)
--- a range of no numbers
9 9: 1 R
next 2: ? value None
§
R = (4, -2, 2)
for i in R:
    print(i)
--- a tuple of three from elsewhere is no range
9 9: 0 R, 2 R
3 3 Print -2
4 2 For (4, -2, 2)
4 loop 0 turns 2: -2
next 5: $4.0 value #4.1
§
T = "ab"
for i in range(2):
    print(i)
--- a text is no range
9 9: 1 T
2 2 Stop TypeError
next 3: ? value ?
§
P = (0, 1)
for i in range(2):
    print(i)
--- two numbers are no range
9 9: 1 P
2 2 Stop TypeError
next 3: ? value ?
§
P = (0, 1, 2, 3)
for i in range(2):
    print(i)
--- four numbers are no range
9 9: 1 P
2 2 Stop TypeError
next 3: ? value ?
§
P = (0, 1, True)
for i in range(2):
    print(i)
--- a truth value is no number of a range
9 9: 1 P
2 2 Stop TypeError
next 3: ? value ?
§
P = (0, 0, 2)
for i in range(2):
    print(i)
--- a range has a step
9 9: 1 P
2 2 Stop TypeError
next 3: ? value ?
§
P = (0, 1, -1)
for i in range(2):
    print(i)
--- a range has no count below zero
9 9: 1 P
2 2 Stop TypeError
next 3: ? value ?
§
P = (170141183460469231731687303715884105727, 1, 2)
for i in range(2):
    print(i)
--- a range lies within 128 bits
9 9: 1 P
2 2 Stop TypeError
next 3: ? value ?
§
P = (170141183460469231731687303715884105726, 1, 2)
for i in range(2):
    print(i)
--- a range ends at 128 bits
9 9: 1 P
2 3 Print 170141183460469231731687303715884105726
3 2 For #0.0
3 loop 0 turns 1: 170141183460469231731687303715884105726
next 4: $3.0 value #3.1
§
T = "abc"
for c in T:
    print(c)
--- a for makes as many turns as are allowed
2 9: 0 T, 2 T
3 3 Print 'b'
4 2 For 'abc'
4 loop 0 turns 2: 'b'
next 5: $4.0 value #4.1
--- a for that wants one turn more
2 9: 0 T, 2 T, 4 T
5 2 Stop TurnLimit
next 6: 'b' value ?
§
T = "ab"
for c in T:
    print(c)
--- a for that is over behind the last turn
2 9: 0 T, 2 T, 4 T
next 5: 'b' value None
§
P = ((1, 2), (3, 4))
for a, b in P:
    print(b, a)
--- a tuple of targets
9 9: 0 P
1 2 Unpack 2 (1, 2)
2 3 Print #1.1 #1.0
3 2 For ((1, 2), (3, 4))
3 loop 0 turns 1: #1.0 #1.1
next 4: $3.0 $3.1 value #3.2
§
P = ("xy", 5)
for a, in P:
    print(a)
--- a tuple of one target
9 9: 0 P
1 2 Unpack 1 'xy'
2 3 Print #1.0
3 2 For ('xy', 5)
3 loop 0 turns 1: #1.0
next 4: $3.0 value #3.1
§
P = ((1, 2),)
for a, a in P:
    pass
--- a target that stands twice has the later member
9 9: 0 P
1 2 Unpack 2 (1, 2)
2 2 For ((1, 2),)
2 loop 0 turns 1: #1.1
next 3: $2.0 value #2.1
§
P = ((1, 2), (3, 4))
for a, b in P:
    pass
--- no turn is left for a tuple of targets
1 9: 0 P, 2 P
3 2 Stop TurnLimit
next 4: #1.0 #1.1 value ?
§
T = "abc"
for c in T:
    if c == "b":
        continue
    print(c)
--- a continue may skip the body
9 9: 0 T
1 3 Eq 'a' 'b'
2 3 Cond #1.0
2 if 1 arm 0, after 1, again 0 turns 1 over 'abc': 'a'
next 3: $2.0 value #2.1
--- a continue goes on with the next turn
9 9: 0 T, 2 True
3 2 For 'abc'
3 loop 0 turns 1: 'a'
next 4: $3.0 value #3.1
--- the body, and then the next turn of a for
9 9: 0 T, 2 False
3 5 Print 'a'
4 2 For 'abc'
4 loop 0 turns 1: 'a'
next 5: $4.0 value #4.1
§
R = (0, 1, 3)
for i in range(3):
    if i:
        break
    print(i)
--- a range is gone on with in the rest of an if
9 9: 1 R
2 3 Cond 0
2 if 1 arm 0, after 1, again 0 turns 1 over #0.0: 0
next 3: $2.0 value #2.1
§
from pydron import schedule
P = (1, 2)
@schedule
def f():
    for a in P:
        for b in P:
            if a == b:
                return a
            print(b)
    return 0
f()
--- a loop within a loop that a return may leave
9 9: 0 -, 1 P
2 6 For (1, 2)
2 loop 1 turns 0, after 1, again 0 turns 1 over (1, 2), after 0: 1 ?
next 3: $2.0 $2.1 value #2.2
--- the rests of two loops
9 9: 0 -, 1 P, 2 P
3 7 Eq 1 1
4 7 Cond #3.0
4 if 2 arm 0, after 2, again 1 turns 1 over (1, 2), after 1, again 0 turns 1 over (1, 2), after 0: 1 1
next 5: $4.0 $4.1 value #4.2
--- the inner loop goes on
9 9: 0 -, 1 P, 2 P, 4 False
5 9 Print 1
6 6 For (1, 2)
6 loop 1 turns 1, after 1, again 0 turns 1 over (1, 2), after 0: 1 1
next 7: $6.0 $6.1 value #6.2
--- a return leaves both loops
9 9: 0 -, 1 P, 2 P, 4 True
next 5: 1 1 value 1
§
from pydron import schedule
P = (1, 2)
Q = ()
@schedule
def f():
    for a in P:
        for b in P:
            if a == b:
                return a
            print(b)
    return 0
f()
--- the outer loop goes on behind the inner one
9 9: 0 -, 1 P, 2 Q
3 6 For (1, 2)
3 loop 0 turns 1, after 0: 1 ?
next 4: $3.0 $3.1 value #3.2
"##;
