//! Bodies, turns of loops and their nodes, by hand from the rules of translation.

/// How many they are.
pub(crate) const BODY_COUNT: usize = 9;

/// Behind `§ ` a title, a script, a line `---`, and the nodes of the body of its first function.
pub(crate) const BODIES: &str = r##"§ an if that a return may leave takes the rest
from pydron import schedule
@schedule
def f():
    x = 1
    if x:
        return 2
    print(x)
---
0 5 Cond 1
§ an if that nothing leaves is gone on behind
from pydron import schedule
@schedule
def f():
    x = 1
    if x:
        x = 2
    print(x)
    return x
---
0 5 Cond 1
1 7 Read #0.0
2 7 Print #1.0
3 8 Read #0.0
§ a return in an inner suite may leave the outer if
from pydron import schedule
@schedule
def f():
    if 1:
        pass
    elif 2:
        while 3:
            return 4
    print(5)
---
0 4 Cond 1
§ a loop that a return may leave takes the rest
from pydron import schedule
@schedule
def f():
    for i in "ab":
        if i:
            return i
    print(1)
---
0 4 For 'ab'
§ a loop that a break ends is gone on behind
from pydron import schedule
@schedule
def f():
    while 1:
        if 2:
            break
    print(3)
---
0 4 While 1
1 7 Print 3
§ a return is the last of its body
from pydron import schedule
@schedule
def f():
    return 1 + 2
    print(3)
---
0 4 Add 1 2
§ a local before it is bound stops
from pydron import schedule
@schedule
def f():
    print(x)
    x = 1
---
0 4 Stop UnboundLocalError
§ a constant, a local of a constant's name, and an unbound name
from pydron import schedule
A = 7
B = 8
@schedule
def f():
    B = A + 1
    print(A, B)
    print(C)
---
0 6 Add 7 1
1 7 Print 7 #0.0
2 8 Stop NameError
§ a function enters itself
from pydron import schedule
@schedule
def f():
    return f()
---
0 4 Enter f
"##;

/// How many they are.
pub(crate) const TURN_COUNT: usize = 8;

/// Behind `§ ` a title, a script whose first statement is a `while`, a line `---`, and the nodes of
/// the first turn of that loop.
pub(crate) const TURNS: &str = r##"§ a break in an if takes the rest
while 1:
    if 2:
        break
    print(3)
---
0 2 Cond 2
§ a continue in an else takes the rest
while 1:
    if 2:
        pass
    else:
        continue
    print(3)
---
0 2 Cond 2
§ an if that nothing leaves, and the next turn
while 1 + 0:
    if 2:
        pass
    print(3)
---
0 2 Cond 2
1 4 Print 3
2 1 Add 1 0
3 1 While #2.0
§ a continue goes on with the next turn
while x:
    x = 1
    continue
    print(2)
---
0 1 While 1
§ a break goes on with no turn
while 1:
    print(2)
    break
print(3)
---
0 2 Print 2
§ an inner loop's break leaves neither loop early
while 1:
    while 2:
        break
    print(3)
---
0 2 While 2
1 4 Print 3
2 1 While 1
§ an inner loop's break leaves no if round that loop
while 1:
    if 2:
        while 3:
            break
    print(4)
---
0 2 Cond 2
1 5 Print 4
2 1 While 1
§ a test that is surely unbound stops the next turn
while x:
    print(1)
---
0 2 Print 1
1 1 Stop NameError
"##;
