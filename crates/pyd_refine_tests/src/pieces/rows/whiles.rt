//! Turns of `while` loops, by hand from the rules of refining.

pub(crate) const ROWS: &str = r##"§
n = 2 + 0
while n > 0:
    n = n - 1
print(n)
--- a while whose test is true
9 9: 2 True
5 3 Sub #0.0 1
6 2 Gt #5.0 0
7 2 While #6.0
7 loop 1 turns 1: #5.0
next 8: $7.0 value #7.1
--- a while whose test is false
9 9: 2 False
next 5: #0.0 value None
--- a while whose test is absent
9 9: 2 -
5 2 Stop NameError
next 6: #0.0 value ?
--- a while makes as many turns as are allowed
2 9: 2 True, 7 True
8 3 Sub #5.0 1
9 2 Gt #8.0 0
10 2 While #9.0
10 loop 1 turns 2: #8.0
next 11: $10.0 value #10.1
--- a while that wants one turn more
2 9: 2 True, 7 True, 10 True
11 2 Stop TurnLimit
next 12: #8.0 value ?
--- a while that is over behind the last turn
2 9: 2 True, 7 True, 10 False
next 11: #8.0 value None
§
n = 3 + 0
while n:
    if n < 2:
        break
    n = n - 1
print(n)
--- a turn whose if may end the loop
9 9: 1 True
4 3 Lt #0.0 2
5 3 Cond #4.0
5 if 2 arm 0, after 2, again 1 turns 1 over None: #0.0
next 6: $5.0 value #5.1
--- a break leaves out the turns
9 9: 1 True, 5 True
next 6: #0.0 value None
--- the next turn of a while is in the rest of an if
9 9: 1 True, 5 False
6 5 Sub #0.0 1
7 2 While #6.0
7 loop 1 turns 1: #6.0
next 8: $7.0 value #7.1
§
from pydron import schedule
@schedule
def f(n):
    while n:
        if n == 5:
            return n
        n = n - 1
    print(n)
f(7)
--- a loop that a return may leave goes on with its rest
9 9: 0 -, 1 False
2 8 Print 7
next 3: 7 value None
--- a turn stands before the rest of its loop
9 9: 0 -, 1 True
2 5 Eq 7 5
3 5 Cond #2.0
3 if 1 arm 0, after 1, again 0 turns 1 over None, after 0: 7
next 4: $3.0 value #3.1
--- a return leaves out the turns and the rest
9 9: 0 -, 1 True, 3 True
next 4: 7 value 7
--- the next turn keeps the rest of its loop
9 9: 0 -, 1 True, 3 False
4 7 Sub 7 1
5 4 While #4.0
5 loop 0 turns 1, after 0: #4.0
next 6: $5.0 value #5.1
§
n = 1 + 1
while n:
    while n > 1:
        n = n - 1
        break
    n = 0
--- a loop within a turn
9 9: 1 True
2 3 Gt #0.0 1
3 3 While #2.0
4 2 While 0
3 loop 2 turns 0: #0.0
4 loop 1 turns 1: 0
next 5: $4.0 value #4.1
--- a break of the inner loop
9 9: 1 True, 3 True
5 4 Sub #0.0 1
next 6: #5.0 value None
§
n = 2 + 1
while n:
    if n > 2:
        n = 1
    n = n - 1
--- a turn reads a slot port
9 9: 1 True
2 3 Gt #0.0 2
3 3 Cond #2.0
4 5 Read #3.0
5 5 Sub #4.0 1
6 2 While #5.0
3 if 2 arm 0: #0.0
6 loop 1 turns 1: #5.0
next 7: $6.0 value #6.1
"##;
