//! Sources, and what is answered for each: a row a line, with ¶ for a line end.

/// The sources of docs/STATUS.md, and others that show where each refusal begins.
pub(crate) const REFUSALS: &str = "x¶→ok: 0 functions, 0 constants
x = \"a\" $ \"b\"¶→BadChar: line 1
ﬁ = 1¶→BadName: line 1
x = 012¶→BadNumber: line 1
x = 170141183460469231731687303715884105728¶→WideNumber: line 1
x = \"a\\d\"¶→BadString: line 1
x = 'a¶→BadString: line 1
if 1:¶\tx = 1¶→Tab: line 2
if 1:¶        x = 1¶    y = 2¶→BadDedent: line 3
print((1)¶→Syntax: line 2
print(------------------------1)¶→Deep: line 1
print(-----------------------1)¶→ok: 0 functions, 0 constants
1 = 2¶→Target: line 1
() = ()¶→Target: line 1
(a, b) += 1¶→Target: line 1
def f():¶    pass¶def f():¶    pass¶→TwiceDefined: line 3
print = 1¶→Rebind: line 1
x = len¶→FunctionValue: line 1
x = 1 + 1¶x(2)¶→CallOfVariable: line 2
def f():¶    return x¶x = 1 + 1¶→GlobalRead: line 2
from pydron import functional¶¶@functional¶def f(x):¶    return abs(print(x))¶¶f(1)¶→Impure: line 5
return 1¶→ReturnOutside: line 1
break¶→BreakOutside: line 1
print(1)¶def f():¶    pass¶→LateDef: line 2
x = 1 + 1¶def f():¶    pass¶→NotConstant: line 1
@functional¶def f():¶    pass¶→Decorator: line 1
def f(a, a):¶    pass¶→TwiceParameter: line 1";

/// Where the grammar stops.
pub(crate) const FAULTS: &str = "x = = 1¶→Syntax: line 1
x = 1 1¶→Syntax: line 1
else:¶→Syntax: line 1
)¶→Syntax: line 1
if 1:¶x = 1¶→Syntax: line 2
x = 1¶  y = 2¶→Syntax: line 2
def f():¶→Syntax: line 2
while 1:¶    pass¶else:¶    pass¶→Syntax: line 3
print(170141183460469231731687303715884105728)¶→WideNumber: line 1";

/// What binds, what names stand for, and where they may stand.
pub(crate) const NAMES: &str = "def f(len):¶    return len¶→ok: 1 functions, 0 constants
def f(len):¶    return len(1)¶→CallOfVariable: line 2
def g():¶    pass¶def f():¶    g = 1¶    return g¶→ok: 2 functions, 0 constants
from pydron import schedule¶schedule = 1¶→Rebind: line 2
from pydron import print¶print(1)¶→FunctionValue: line 2
from pydron import schedule¶def f():¶    return schedule¶→FunctionValue: line 3
from pydron import schedule¶def f(schedule):¶    return schedule¶→ok: 1 functions, 0 constants
from math import pi¶→Decorator: line 1
def __name__():¶    pass¶→Rebind: line 1
def print():¶    pass¶→Rebind: line 1
N = 1¶def f():¶    return N¶→ok: 1 functions, 1 constants
N = 1¶def f(N):¶    return N¶→ok: 1 functions, 1 constants
def f():¶    return f()¶→ok: 1 functions, 0 constants
def f():¶    return f¶→FunctionValue: line 2
x = nothing(1)¶→ok: 0 functions, 0 constants
x = range(3)¶→FunctionValue: line 1
for i in range(3):¶    pass¶→ok: 0 functions, 0 constants
for i in (range(3)):¶    pass¶→ok: 0 functions, 0 constants
for i in (range(3),):¶    pass¶→FunctionValue: line 1
A = 1¶B = -(2)¶C = (\"a\", (1, None), ())¶→ok: 0 functions, 3 constants
A = 1¶A = 2¶→ok: 0 functions, 0 constants
A = 1¶A += 2¶→ok: 0 functions, 0 constants
(\"text\")¶A = 1¶→ok: 0 functions, 1 constants
1¶A = 1¶→ok: 0 functions, 0 constants
A = 1¶for i in A:¶    A = i¶→ok: 0 functions, 0 constants
A = +1¶def f():¶    pass¶→NotConstant: line 1
if __name__ == \"__main__\":¶    pass¶→ok: 0 functions, 0 constants
for i in (1, 2):¶    if i:¶        continue¶→ok: 0 functions, 0 constants
def f():¶    while 1:¶        def_ = 1¶    break¶→BreakOutside: line 4
if 1:¶    continue¶→BreakOutside: line 2
def f():¶    return¶→ok: 1 functions, 0 constants
while 1:¶    return¶→ReturnOutside: line 2
from pydron import functional, schedule¶@schedule¶@functional¶def f():¶    return 1¶→ok: 1 functions, 0 constants
from pydron import functional¶@functional¶@functional¶def f():¶    return 1¶→Decorator: line 3
@functional¶def f():¶    return 1¶from pydron import functional¶→Decorator: line 1
from pydron import functional¶def g():¶    pass¶@functional¶def f(x):¶    if x:¶        return (1, -g())¶→Impure: line 7";

/// Sources that break a rule of scope twice, or two rules: the lower-numbered one, and its least line.
pub(crate) const PAIRS: &str =
    "def da():¶    pass¶def da():¶    pass¶def db():¶    pass¶def db():¶    pass¶→TwiceDefined: line 3
def da():¶    pass¶def da():¶    pass¶min = 1¶→TwiceDefined: line 3
def da():¶    pass¶def da():¶    pass¶fb = len¶→TwiceDefined: line 3
def da():¶    pass¶def da():¶    pass¶vb = 1 + 1¶vb(2)¶→TwiceDefined: line 3
def da():¶    pass¶def da():¶    pass¶def gb():¶    return wb¶wb = 1 + 1¶→TwiceDefined: line 3
def da():¶    pass¶def da():¶    pass¶from pydron import functional¶@functional¶def pb():¶    return str(print(1))¶→TwiceDefined: line 3
def da():¶    pass¶def da():¶    pass¶return 1¶→TwiceDefined: line 3
def da():¶    pass¶def da():¶    pass¶break¶→TwiceDefined: line 3
def da():¶    pass¶def da():¶    pass¶1¶def lb():¶    pass¶→TwiceDefined: line 3
def da():¶    pass¶def da():¶    pass¶nb = 1 + 1¶def hb():¶    pass¶→TwiceDefined: line 3
def da():¶    pass¶def da():¶    pass¶@schedule¶def kb():¶    pass¶→TwiceDefined: line 3
def da():¶    pass¶def da():¶    pass¶def tb(a, a):¶    pass¶→TwiceDefined: line 3
repr = 1¶def db():¶    pass¶def db():¶    pass¶→TwiceDefined: line 4
repr = 1¶min = 1¶→Rebind: line 1
repr = 1¶fb = len¶→Rebind: line 1
repr = 1¶vb = 1 + 1¶vb(2)¶→Rebind: line 1
repr = 1¶def gb():¶    return wb¶wb = 1 + 1¶→Rebind: line 1
repr = 1¶from pydron import functional¶@functional¶def pb():¶    return str(print(1))¶→Rebind: line 1
repr = 1¶return 1¶→Rebind: line 1
repr = 1¶break¶→Rebind: line 1
repr = 1¶1¶def lb():¶    pass¶→Rebind: line 1
repr = 1¶nb = 1 + 1¶def hb():¶    pass¶→Rebind: line 1
repr = 1¶@schedule¶def kb():¶    pass¶→Rebind: line 1
repr = 1¶def tb(a, a):¶    pass¶→Rebind: line 1
def db():¶    pass¶def db():¶    pass¶fa = len¶→TwiceDefined: line 3
min = 1¶fa = len¶→Rebind: line 1
fa = len¶fb = len¶→FunctionValue: line 1
fa = len¶vb = 1 + 1¶vb(2)¶→FunctionValue: line 1
def gb():¶    return wb¶fa = len¶wb = 1 + 1¶→FunctionValue: line 3
from pydron import functional¶@functional¶def pb():¶    return str(print(1))¶fa = len¶→FunctionValue: line 5
fa = len¶return 1¶→FunctionValue: line 1
fa = len¶break¶→FunctionValue: line 1
fa = len¶1¶def lb():¶    pass¶→FunctionValue: line 1
nb = 1 + 1¶def hb():¶    pass¶fa = len¶→FunctionValue: line 4
@schedule¶def kb():¶    pass¶fa = len¶→FunctionValue: line 4
def tb(a, a):¶    pass¶fa = len¶→FunctionValue: line 3
def db():¶    pass¶def db():¶    pass¶va = 1 + 1¶va(2)¶→TwiceDefined: line 3
min = 1¶va = 1 + 1¶va(2)¶→Rebind: line 1
va = 1 + 1¶va(2)¶fb = len¶→FunctionValue: line 3
va = 1 + 1¶va(2)¶vb = 1 + 1¶vb(2)¶→CallOfVariable: line 2
def gb():¶    return wb¶va = 1 + 1¶va(2)¶wb = 1 + 1¶→CallOfVariable: line 4
from pydron import functional¶@functional¶def pb():¶    return str(print(1))¶va = 1 + 1¶va(2)¶→CallOfVariable: line 6
va = 1 + 1¶va(2)¶return 1¶→CallOfVariable: line 2
va = 1 + 1¶va(2)¶break¶→CallOfVariable: line 2
va = 1 + 1¶va(2)¶1¶def lb():¶    pass¶→CallOfVariable: line 2
nb = 1 + 1¶def hb():¶    pass¶va = 1 + 1¶va(2)¶→CallOfVariable: line 5
@schedule¶def kb():¶    pass¶va = 1 + 1¶va(2)¶→CallOfVariable: line 5
def tb(a, a):¶    pass¶va = 1 + 1¶va(2)¶→CallOfVariable: line 4
def ga():¶    return wa¶def db():¶    pass¶def db():¶    pass¶wa = 1 + 1¶→TwiceDefined: line 5
def ga():¶    return wa¶min = 1¶wa = 1 + 1¶→Rebind: line 3
def ga():¶    return wa¶wa = 1 + 1¶fb = len¶→FunctionValue: line 4
def ga():¶    return wa¶wa = 1 + 1¶vb = 1 + 1¶vb(2)¶→CallOfVariable: line 5
def ga():¶    return wa¶def gb():¶    return wb¶wa = 1 + 1¶wb = 1 + 1¶→GlobalRead: line 2
def ga():¶    return wa¶from pydron import functional¶@functional¶def pb():¶    return str(print(1))¶wa = 1 + 1¶→GlobalRead: line 2
def ga():¶    return wa¶wa = 1 + 1¶return 1¶→GlobalRead: line 2
def ga():¶    return wa¶wa = 1 + 1¶break¶→GlobalRead: line 2
def ga():¶    return wa¶wa = 1 + 1¶1¶def lb():¶    pass¶→GlobalRead: line 2
def ga():¶    return wa¶nb = 1 + 1¶def hb():¶    pass¶wa = 1 + 1¶→GlobalRead: line 2
def ga():¶    return wa¶@schedule¶def kb():¶    pass¶wa = 1 + 1¶→GlobalRead: line 2
def ga():¶    return wa¶def tb(a, a):¶    pass¶wa = 1 + 1¶→GlobalRead: line 2
from pydron import functional¶@functional¶def pa():¶    return str(print(1))¶def db():¶    pass¶def db():¶    pass¶→TwiceDefined: line 7
from pydron import functional¶@functional¶def pa():¶    return str(print(1))¶min = 1¶→Rebind: line 5
from pydron import functional¶@functional¶def pa():¶    return str(print(1))¶fb = len¶→FunctionValue: line 5
from pydron import functional¶@functional¶def pa():¶    return str(print(1))¶vb = 1 + 1¶vb(2)¶→CallOfVariable: line 6
from pydron import functional¶@functional¶def pa():¶    return str(print(1))¶def gb():¶    return wb¶wb = 1 + 1¶→GlobalRead: line 6
from pydron import functional¶@functional¶def pa():¶    return str(print(1))¶from pydron import functional¶@functional¶def pb():¶    return str(print(1))¶→Impure: line 4
from pydron import functional¶@functional¶def pa():¶    return str(print(1))¶return 1¶→Impure: line 4
from pydron import functional¶@functional¶def pa():¶    return str(print(1))¶break¶→Impure: line 4
from pydron import functional¶@functional¶def pa():¶    return str(print(1))¶1¶def lb():¶    pass¶→Impure: line 4
from pydron import functional¶@functional¶def pa():¶    return str(print(1))¶nb = 1 + 1¶def hb():¶    pass¶→Impure: line 4
from pydron import functional¶@functional¶def pa():¶    return str(print(1))¶@schedule¶def kb():¶    pass¶→Impure: line 4
from pydron import functional¶@functional¶def pa():¶    return str(print(1))¶def tb(a, a):¶    pass¶→Impure: line 4
def db():¶    pass¶def db():¶    pass¶return 1¶→TwiceDefined: line 3
min = 1¶return 1¶→Rebind: line 1
return 1¶fb = len¶→FunctionValue: line 2
return 1¶vb = 1 + 1¶vb(2)¶→CallOfVariable: line 3
def gb():¶    return wb¶return 1¶wb = 1 + 1¶→GlobalRead: line 2
from pydron import functional¶@functional¶def pb():¶    return str(print(1))¶return 1¶→Impure: line 4
return 1¶return 1¶→ReturnOutside: line 1
return 1¶break¶→ReturnOutside: line 1
return 1¶1¶def lb():¶    pass¶→ReturnOutside: line 1
nb = 1 + 1¶def hb():¶    pass¶return 1¶→ReturnOutside: line 4
@schedule¶def kb():¶    pass¶return 1¶→ReturnOutside: line 4
def tb(a, a):¶    pass¶return 1¶→ReturnOutside: line 3
def db():¶    pass¶def db():¶    pass¶break¶→TwiceDefined: line 3
min = 1¶break¶→Rebind: line 1
break¶fb = len¶→FunctionValue: line 2
break¶vb = 1 + 1¶vb(2)¶→CallOfVariable: line 3
def gb():¶    return wb¶break¶wb = 1 + 1¶→GlobalRead: line 2
from pydron import functional¶@functional¶def pb():¶    return str(print(1))¶break¶→Impure: line 4
break¶return 1¶→ReturnOutside: line 2
break¶break¶→BreakOutside: line 1
break¶1¶def lb():¶    pass¶→BreakOutside: line 1
nb = 1 + 1¶def hb():¶    pass¶break¶→BreakOutside: line 4
@schedule¶def kb():¶    pass¶break¶→BreakOutside: line 4
def tb(a, a):¶    pass¶break¶→BreakOutside: line 3
def db():¶    pass¶def db():¶    pass¶1¶def la():¶    pass¶→TwiceDefined: line 3
min = 1¶1¶def la():¶    pass¶→Rebind: line 1
1¶def la():¶    pass¶fb = len¶→FunctionValue: line 4
1¶def la():¶    pass¶vb = 1 + 1¶vb(2)¶→CallOfVariable: line 5
def gb():¶    return wb¶1¶def la():¶    pass¶wb = 1 + 1¶→GlobalRead: line 2
from pydron import functional¶@functional¶def pb():¶    return str(print(1))¶1¶def la():¶    pass¶→Impure: line 4
1¶def la():¶    pass¶return 1¶→ReturnOutside: line 4
1¶def la():¶    pass¶break¶→BreakOutside: line 4
1¶def la():¶    pass¶1¶def lb():¶    pass¶→LateDef: line 2
nb = 1 + 1¶def hb():¶    pass¶1¶def la():¶    pass¶→LateDef: line 5
@schedule¶def kb():¶    pass¶1¶def la():¶    pass¶→LateDef: line 5
def tb(a, a):¶    pass¶1¶def la():¶    pass¶→LateDef: line 4
na = 1 + 1¶def ha():¶    pass¶def db():¶    pass¶def db():¶    pass¶→TwiceDefined: line 6
na = 1 + 1¶def ha():¶    pass¶min = 1¶→Rebind: line 4
na = 1 + 1¶def ha():¶    pass¶fb = len¶→FunctionValue: line 4
na = 1 + 1¶def ha():¶    pass¶vb = 1 + 1¶vb(2)¶→CallOfVariable: line 5
na = 1 + 1¶def ha():¶    pass¶def gb():¶    return wb¶wb = 1 + 1¶→GlobalRead: line 5
na = 1 + 1¶def ha():¶    pass¶from pydron import functional¶@functional¶def pb():¶    return str(print(1))¶→Impure: line 7
na = 1 + 1¶def ha():¶    pass¶return 1¶→ReturnOutside: line 4
na = 1 + 1¶def ha():¶    pass¶break¶→BreakOutside: line 4
na = 1 + 1¶def ha():¶    pass¶1¶def lb():¶    pass¶→LateDef: line 5
na = 1 + 1¶def ha():¶    pass¶nb = 1 + 1¶def hb():¶    pass¶→NotConstant: line 1
na = 1 + 1¶def ha():¶    pass¶@schedule¶def kb():¶    pass¶→NotConstant: line 1
na = 1 + 1¶def ha():¶    pass¶def tb(a, a):¶    pass¶→NotConstant: line 1
@schedule¶def ka():¶    pass¶def db():¶    pass¶def db():¶    pass¶→TwiceDefined: line 6
@schedule¶def ka():¶    pass¶min = 1¶→Rebind: line 4
@schedule¶def ka():¶    pass¶fb = len¶→FunctionValue: line 4
@schedule¶def ka():¶    pass¶vb = 1 + 1¶vb(2)¶→CallOfVariable: line 5
@schedule¶def ka():¶    pass¶def gb():¶    return wb¶wb = 1 + 1¶→GlobalRead: line 5
@schedule¶def ka():¶    pass¶from pydron import functional¶@functional¶def pb():¶    return str(print(1))¶→Impure: line 7
@schedule¶def ka():¶    pass¶return 1¶→ReturnOutside: line 4
@schedule¶def ka():¶    pass¶break¶→BreakOutside: line 4
@schedule¶def ka():¶    pass¶1¶def lb():¶    pass¶→LateDef: line 5
@schedule¶def ka():¶    pass¶nb = 1 + 1¶def hb():¶    pass¶→NotConstant: line 4
@schedule¶def ka():¶    pass¶@schedule¶def kb():¶    pass¶→Decorator: line 1
@schedule¶def ka():¶    pass¶def tb(a, a):¶    pass¶→Decorator: line 1
def ta(a, a):¶    pass¶def db():¶    pass¶def db():¶    pass¶→TwiceDefined: line 5
def ta(a, a):¶    pass¶min = 1¶→Rebind: line 3
def ta(a, a):¶    pass¶fb = len¶→FunctionValue: line 3
def ta(a, a):¶    pass¶vb = 1 + 1¶vb(2)¶→CallOfVariable: line 4
def ta(a, a):¶    pass¶def gb():¶    return wb¶wb = 1 + 1¶→GlobalRead: line 4
def ta(a, a):¶    pass¶from pydron import functional¶@functional¶def pb():¶    return str(print(1))¶→Impure: line 6
def ta(a, a):¶    pass¶return 1¶→ReturnOutside: line 3
def ta(a, a):¶    pass¶break¶→BreakOutside: line 3
def ta(a, a):¶    pass¶1¶def lb():¶    pass¶→LateDef: line 4
def ta(a, a):¶    pass¶nb = 1 + 1¶def hb():¶    pass¶→NotConstant: line 3
def ta(a, a):¶    pass¶@schedule¶def kb():¶    pass¶→Decorator: line 3
def ta(a, a):¶    pass¶def tb(a, a):¶    pass¶→TwiceParameter: line 1";
