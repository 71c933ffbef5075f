//! Sides of choices, by hand from the rules of refining.

pub(crate) const ROWS: &str = r##"§
x = 1 + 1
y = x + 2 if x else x - 3
print(y)
--- the first side of a conditional expression
9 9: 1 True
3 2 Add #0.0 2
next 4: value #3.0
--- the second side of a conditional expression
9 9: 1 False
3 2 Sub #0.0 3
next 4: value #3.0
--- a choice whose test is absent
9 9: 1 -
3 2 Stop NameError
next 4: value ?
§
x = 1 + 1
print(x and x + 1 and x + 2)
--- an and goes on with its next member
9 9: 1 True
3 2 Add #0.0 1
4 2 Pick #3.0
4 yes e4.2 None no #3.0: #0.0
next 5: value #4.0
--- an and gives a member that is false
9 9: 1 False
next 3: value #0.0
--- an and gives its last member
9 9: 1 True, 4 True
5 2 Add #0.0 2
next 6: value #5.0
§
x = 1 + 1
print(x or x + 1 or x + 2)
--- an or gives a member that is true
9 9: 1 True
next 3: value #0.0
--- an or goes on with its next member
9 9: 1 False
3 2 Add #0.0 1
4 2 Pick #3.0
4 yes #3.0 no e4.2 None: #0.0
next 5: value #4.0
--- an or gives its last member
9 9: 1 False, 4 False
5 2 Add #0.0 2
next 6: value #5.0
§
x = 1 + 1
print(x < x + 1 < x + 2 < 9)
--- a comparison goes on with its next link
9 9: 3 True
5 2 Add #0.0 2
6 2 Lt #1.0 #5.0
7 2 Pick #6.0
7 yes e4.2 #5.0 no #6.0: #0.0
next 8: value #7.0
--- a comparison gives its last link
9 9: 3 True, 7 True
8 2 Lt #5.0 9
next 9: value #8.0
--- a comparison gives a link that is false
9 9: 3 False
next 5: value #2.0
§
x = 1 + 1
print(x if x else x or x + 1)
--- an and within a side of a choice
9 9: 1 False
3 2 Pick #0.0
3 yes #0.0 no e7.1 None: #0.0
next 4: value #3.0
§
x = 1 + 1
assert x > 1, print(x)
--- an assertion that holds leaves out its message
9 9: 2 True
next 4: value None
--- the message of an assertion that fails
9 9: 2 False
4 2 Print #0.0
next 5: value #4.0
§
x = 1 + 1
print(nothing if x else 2)
--- a side that stops
9 9: 1 True
3 2 Stop NameError
next 4: value ?
§
x = 1 + 1
if x:
    x = 2
print(x or x + 1)
--- a side reads a slot port once more
9 9: 3 False
5 4 Read #1.0
6 4 Add #5.0 1
next 7: value #6.0
--- a side reads a variable that an if has bound
9 9: 1 True, 3 False
5 4 Add 2 1
next 6: value #5.0
"##;
