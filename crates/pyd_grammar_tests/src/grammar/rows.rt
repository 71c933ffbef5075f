//! Sources and their answers: from the grammar by hand, and the tables of the profile.

/// How many rows there are.
pub(crate) const COUNT: usize = 97;

/// One row a line.
pub(crate) const ROWS: &str = "print(-----------------------1)¶→a file
print(------------------------1)¶→Deep(1)
1 = 2¶→Target(1)
() = ()¶→Target(1)
def f():¶    pass¶def f():¶    pass¶→a file
print = 1¶→a file
x = len¶→a file
x = 1 + 1¶x(2)¶→a file
def f():¶    return x¶x = 1 + 1¶→a file
return 1¶→a file
break¶→a file
print(1)¶def f():¶    pass¶→a file
x = 1 + 1¶def f():¶    pass¶→a file
@functional¶def f():¶    pass¶→a file
def f(a, a):¶    pass¶→a file
x = = 1¶→Syntax(1)
x = 1 1¶→Syntax(1)
else:¶→Syntax(1)
)¶→Syntax(1)
if 1:¶x = 1¶→Syntax(2)
x = 1¶  y = 2¶→Syntax(2)
def f():¶→Syntax(2)
while 1:¶    pass¶else:¶    pass¶→Syntax(3)
print((1)¶→Syntax(2)
→a file
¶# nothing¶¶→a file
x→a file
x = y = 1¶→Syntax(1)
x = (1,¶     2¶→Syntax(3)
x = (1¶+ * 2)¶→Syntax(2)
print(1)¶print(2¶¶¶→Syntax(5)
a b¶)¶→Syntax(1)
pass pass¶→Syntax(1)
if x:¶    pass¶elif:¶    pass¶→Syntax(3)
for x y in z:¶    pass¶→Syntax(1)
import x¶→Syntax(1)
from x import *¶→Syntax(1)
class C:¶    pass¶→Syntax(1)
x = lambda: 1¶→Syntax(1)
x.y¶→no tokens
x[1][¶→Syntax(2)
f(x=1)¶→Syntax(1)
def f(a=1):¶    pass¶→Syntax(1)
@f¶x = 1¶→Syntax(2)
not¶→Syntax(1)
x = 1 if 2¶→Syntax(1)
a[:, 1]¶→Syntax(1)
1 = 2¶x =¶→Syntax(2)
x = -------------------------1¶)¶→Syntax(2)
1 = 2¶x = -------------------------1¶→Deep(2)
x = -------------------------1¶1 = 2¶→Deep(1)
x = 1¶x = -------------------------1¶x = --------------------------1¶→Deep(2)
x = 1¶1 = 2¶2 = 3¶→Target(2)
if x:¶    pass¶elif y:¶    (a, 1) = 2¶→Target(4)
1 = -------------------------1¶→Deep(1)
(a) = 1¶→a file
a, b = 1, 2¶→a file
(a, b) = 1, 2¶→a file
(a,) = 1,¶→a file
a, = 1,¶→a file
((a), b) = 1, 2¶→a file
a += 1¶→a file
(a) += 1¶→a file
for a, in b:¶    pass¶→a file
(a, b) += 1¶→Target(1)
a, b += 1¶→Target(1)
a[0] = 1¶→Target(1)
f() = 1¶→Target(1)
(a, (b, c)) = 1¶→Target(1)
\"x\" = 1¶→Target(1)
a + b = 1¶→Target(1)
-a = 1¶→Target(1)
None = 1¶→Target(1)
() += 1¶→Target(1)
1 += 1¶→Target(1)
a if b else c = 1¶→Target(1)
a < b = 1¶→Target(1)
not a = 1¶→Target(1)
((((((((((((((((((((((((1,),),),),),),),),),),),),),),),),),),),),),),),)¶→a file
f(f(f(f(f(f(f(f(f(f(f(f(f(f(f(f(f(f(f(f(f(f(f(f(1))))))))))))))))))))))))¶→a file
not not not not not not not not not not not not not not not not not not not not not not not not x¶→a file
++++++++++++++++++++++++1¶→a file
2 ** 2 ** 2 ** 2 ** 2 ** 2 ** 2 ** 2 ** 2 ** 2 ** 2 ** 2 ** 2 ** 2 ** 2 ** 2 ** 2 ** 2 ** 2 ** 2 ** 2 ** 2 ** 2 ** 2 ** 1¶→a file
1 if x else 1 if x else 1 if x else 1 if x else 1 if x else 1 if x else 1 if x else 1 if x else 1 if x else 1 if x else 1 if x else 1 if x else 1 if x else 1 if x else 1 if x else 1 if x else 1 if x else 1 if x else 1 if x else 1 if x else 1 if x else 1 if x else 1 if x else 1 if x else 1¶→a file
x[x[x[x[x[x[x[x[x[x[x[x[x[x[x[x[x[x[x[x[x[x[x[x[1]]]]]]]]]]]]]]]]]]]]]]]]¶→a file
(((((((((((((((((((((((((1,),),),),),),),),),),),),),),),),),),),),),),),),)¶→Deep(1)
f(f(f(f(f(f(f(f(f(f(f(f(f(f(f(f(f(f(f(f(f(f(f(f(f(1)))))))))))))))))))))))))¶→Deep(1)
not not not not not not not not not not not not not not not not not not not not not not not not not x¶→Deep(1)
+++++++++++++++++++++++++1¶→Deep(1)
2 ** 2 ** 2 ** 2 ** 2 ** 2 ** 2 ** 2 ** 2 ** 2 ** 2 ** 2 ** 2 ** 2 ** 2 ** 2 ** 2 ** 2 ** 2 ** 2 ** 2 ** 2 ** 2 ** 2 ** 2 ** 1¶→Deep(1)
1 if x else 1 if x else 1 if x else 1 if x else 1 if x else 1 if x else 1 if x else 1 if x else 1 if x else 1 if x else 1 if x else 1 if x else 1 if x else 1 if x else 1 if x else 1 if x else 1 if x else 1 if x else 1 if x else 1 if x else 1 if x else 1 if x else 1 if x else 1 if x else 1 if x else 1¶→Deep(1)
x[x[x[x[x[x[x[x[x[x[x[x[x[x[x[x[x[x[x[x[x[x[x[x[x[1]]]]]]]]]]]]]]]]]]]]]]]]]¶→Deep(1)
((((((((((((((((((((((((((((((1))))))))))))))))))))))))))))))¶→a file
if x:¶ if x:¶  if x:¶   if x:¶    if x:¶     if x:¶      if x:¶       if x:¶        if x:¶         if x:¶          if x:¶           if x:¶            if x:¶             if x:¶              if x:¶               if x:¶                if x:¶                 if x:¶                  if x:¶                   if x:¶                    if x:¶                     if x:¶                      if x:¶                       if x:¶                        pass¶→a file
if x:¶ if x:¶  if x:¶   if x:¶    if x:¶     if x:¶      if x:¶       if x:¶        if x:¶         if x:¶          if x:¶           if x:¶            if x:¶             if x:¶              if x:¶               if x:¶                if x:¶                 if x:¶                  if x:¶                   if x:¶                    if x:¶                     if x:¶                      if x:¶                       if x:¶                        if x:¶                         pass¶→Deep(26)
if x:¶ if x:¶  if x:¶   if x:¶    if x:¶     if x:¶      if x:¶       if x:¶        if x:¶         if x:¶          if x:¶           if x:¶            if x:¶             if x:¶              if x:¶               if x:¶                if x:¶                 if x:¶                  if x:¶                   if x:¶                    if x:¶                     if x:¶                      if x:¶                       -1¶→a file
if x:¶ if x:¶  if x:¶   if x:¶    if x:¶     if x:¶      if x:¶       if x:¶        if x:¶         if x:¶          if x:¶           if x:¶            if x:¶             if x:¶              if x:¶               if x:¶                if x:¶                 if x:¶                  if x:¶                   if x:¶                    if x:¶                     if x:¶                      if x:¶                       if x:¶                        -1¶→Deep(25)";

/// How many long rows there are.
pub(crate) const LONG_COUNT: usize = 6;

/// One row a line: what is repeated in front, what follows it, what is repeated behind it, the answer.
pub(crate) const LONG_ROWS: &str = "(→1→)→a file
((→→→Syntax(2)
[[→→→Syntax(1)
--→1→→Deep(1)
--→→→Syntax(1)
not not →1→→Deep(1)";

/// A whole script.
pub(crate) const SCRIPT: &str = "\"\"\"Counts of bright pixels in three small fields.\"\"\"
from pydron import schedule, functional

# a pixel at or above LEVEL is bright
LEVEL = 50
FIELDS = ((\"north\", 17, 5), (\"east\", 5, 4), (\"west\", 29, 3))

@functional
def pixel(seed, i):
    return (seed * i * i + 13 * i) % 100

@functional
def bright(seed, n):
    count = 0
    for i in range(n):
        if pixel(seed, i) >= LEVEL:
            count += 1
    return count

@functional
def depth(n):
    \"\"\"Halvings until one is left.\"\"\"
    if n <= 1:
        return 0
    return 1 + depth(n // 2)

def report(rows):
    for name, found, levels in rows:
        if found > 0:
            print(name + \":\", found, levels)
        else:
            print(name + \": none\")

@schedule
def main():
    rows = ()
    total = 0
    for name, seed, n in FIELDS:
        found = bright(seed, n)
        rows += ((name, found, depth(n)),)
        total += found
    report(rows)
    print(\"total\", total, \"of\", sum((5, 4, 3)))
    print(rows[-1], max(rows)[0])

if __name__ == \"__main__\":
    main()
";

/// How many front parts of it CPython parses.
pub(crate) const PARSED: usize = 324;
