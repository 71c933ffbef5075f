//! Scripts that look random, from rules that are written as text.

use std::alloc::{AllocError, Global};
use std::test::Fail;

/// More parts than any script has.
const MOST: usize = 100_000;

/// Within so many suites every part is written in its first way.
const DEEPEST: usize = 4;

/// Behind `§ ` the name of a part, the routines that it is for where these aren't all, and a line for
/// each way to write it, which names further parts in braces. The first way is the shortest. A routine
/// begins by its name and a number of parts, and ¶ stands for a line end.
const RULES: &str = r##"§ script
from pydron import functional, schedule¶{f}{g}{u}{s}{m}
§ f
¶@functional¶def f(x, y):¶{f: 40}{body}
§ g
¶@functional¶@schedule¶def g(x, y):¶{g: 60}{body}
§ u
¶def u(x, y):¶{u: 40}{body}
§ s
¶@schedule¶def s(x, y):¶{s: 90}{body}
§ m
¶{m: 200}x, y, w, i = 3, 2, 1, 0¶{block}{block}{block}{line}z = x¶{say}
§ body
{in}{line}w, i = x, 1¶{block}{block}{line}z = w¶{line}return z¶{out}
§ block
{stmt}
{stmt}{block}
{stmt}{block}
{stmt}{block}
§ stmt
{line}{name} = {e}¶
{line}{name} = {e}¶
{line}{name} = {e}¶
{line}{name} += {n}¶
{line}{name}, {name} = {e}, {e}¶
{line}{name}, {name} = {pair}¶
{say}
{say}
{say}
{if}
{if}
{if}
{while}
{while}
{for}
{for}
{for}
{jump}
{jump}
{leave}
{assert}
§ say f g
{line}pass¶
§ say u s m
{line}print({a})¶
{line}print({e}, {e})¶
{line}print({e}, {e})¶
{line}print({pair}, {call})¶
§ if
{line}if {e}:¶{in}{block}{out}{else}
§ else

{line}else:¶{in}{block}{out}
{line}elif {e}:¶{in}{block}{out}{else}
§ while
{line}i = 0¶{line}while i < 2:¶{in}{loop}{line}i += 1¶{block}{pool}{out}
{line}i = 0¶{line}while i < 3 and {e}:¶{in}{loop}{line}i += 1¶{block}{pool}{out}
{line}w = 3¶{line}while w > 0:¶{in}{loop}{line}w -= 1¶{block}{pool}{out}
{line}while {e}:¶{in}{loop}{block}{line}break¶{pool}{out}
{line}while {e}:¶{in}{loop}{block}{pool}{out}
§ for
{line}for {name} in {items}:¶{in}{loop}{block}{pool}{out}
{line}for {name} in {items}:¶{in}{loop}{block}{pool}{out}
{line}for {name} in {items}:¶{in}{loop}{block}{pool}{out}
{line}for {name}, {name} in {pairs}:¶{in}{loop}{block}{pool}{out}
§ jump
{line}pass¶
{line}break¶
{line}continue¶
{line}if {e}:¶{in}{line}break¶{out}
{line}if {e}:¶{in}{line}continue¶{out}
{line}if {e}:¶{in}{line}continue¶{out}
§ leave m
{line}pass¶
§ leave f g u s
{line}return {e}¶
{line}return w¶
{line}if {e}:¶{in}{line}return {e}¶{out}
{line}if {e}:¶{in}{line}return {e}¶{out}
{line}if {e}:¶{in}{line}return {e}¶{out}
§ assert
{line}pass¶
{line}assert {e} or 1¶
{line}assert {n} or {e}, {e}¶
{line}assert {n} < 3 or {e}, {call}¶
§ items
range(2)
range(3)
range(0, {n})
range(4, 0, -2)
range({n})
(1, 2)
(0, {e}, {e})
{seldom}
§ seldom
(2, 1)
(1, {e})
(3,)
range({a})
"ab"
{a}
§ pairs
((1, 2), (3, 4))
((0, {e}), ({e}, 1))
(({e}, {e}), {pair})
§ pair
(1, 2)
({e}, {e})
({e}, {e})
({n}, {a})
("b", 2)
§ e
{a}
{a}
{a}
{a}
{n} {op} {n}
{n} {op} {n}
{n} {op} {a}
({n} {op} {e})
({a} if {e} else {e})
({n} and {e})
({a} or {e})
({n} and {a} or {e})
({e} or {n} and {a})
{n} {cmp} {n}
({n} {cmp} {n} {cmp} {e})
({n} {cmp} {a} {cmp} {n} {cmp} {n})
(not {a})
(-{n})
{call}
{call}
len({pair})
max({n}, {e})
(1, {e})[{at}]
§ at
0
1
-1
-2
i
§ call f
abs({n})
min({e}, {n})
§ call g
f({n}, {a})
f({e}, {a})
§ call u
f({n}, {a})
g({e}, {a})
§ call s
f({n}, {a})
g({a}, {e})
u({a}, {e})
(print({e}) or {n})
s({a}, {n})
§ call m
f({n}, {a})
g({e}, {a})
u({a}, {n})
s({n}, {e})
s({e}, {a})
(print({e}) or {n})
§ a
x
y
{n}
{n}
{n}
{n}
{n}
{n}
{rare}
§ rare
w
i
True
True
False
"ab"
None
z
§ n
1
0
2
3
-1
x
y
w
i
§ name
x
y
w
i
§ op
+
+
+
-
-
*
//
§ cmp
<
<=
==
!=
>
"##;

/// Numbers that look random, the same for the same seed.
#[derive(Drop)]
struct Dice {
    state: u64,
}

impl Dice {
    fn below(&mut self, count: usize) -> usize {
        let state = self.state.wrapping_mul(6_364_136_223_846_793_005);
        self.state = state.wrapping_add(1_442_695_040_888_963_407);
        let number = (self.state >> 33) as usize;
        number.checked_rem(count).unwrap_or(0)
    }
}

/// A script that is being written.
#[derive(Drop)]
struct Making {
    dice: Dice,
    /// The rules, one by one.
    rules: Vec<&'static str>,
    text: String,
    routine: &'static str,
    /// How many more parts of the routine are written in any but the first way.
    left: usize,
    suites: usize,
    loops: usize,
}

/// The script of a seed.
pub(super) fn script_of(alloc: Global, seed: u64) -> Result<String, Fail> {
    let mut making = Making::new(alloc, seed)?;
    let mut pending = Vec::new(alloc);
    pending.push("{script}")?;
    for _ in 0..MOST {
        let Some(part) = pending.pop() else {
            return Ok(making.text);
        };
        match part.split_once('{') {
            None => making.push(part)?,
            Some((front, rest)) => {
                making.push(front)?;
                let (name, behind) = rest.split_once('}').ok_or("a name")?;
                pending.push(behind)?;
                pending.push(making.part(name)?)?;
            }
        }
    }
    Err(Fail::new("the script has no end"))
}

impl Making {
    fn new(alloc: Global, seed: u64) -> Result<Making, AllocError> {
        let mut rules = Vec::new(alloc);
        for rule in RULES.split('\u{a7}') {
            rules.push(rule)?;
        }
        Ok(Making {
            dice: Dice { state: seed },
            rules,
            text: String::new(alloc),
            routine: "",
            left: 0,
            suites: 0,
            loops: 0,
        })
    }

    fn push(&mut self, text: &str) -> Result<(), AllocError> {
        for c in text.chars() {
            self.text.push(if c == '\u{b6}' { '\n' } else { c })?;
        }
        Ok(())
    }

    /// What stands for a name in braces.
    fn part(&mut self, name: &'static str) -> Result<&'static str, AllocError> {
        match name {
            "in" => self.suites = self.suites.saturating_add(1),
            "out" => self.suites = self.suites.saturating_sub(1),
            "loop" => self.loops = self.loops.saturating_add(1),
            "pool" => self.loops = self.loops.saturating_sub(1),
            "line" => self.indent()?,
            _ => return Ok(self.way(name)),
        }
        Ok("")
    }

    fn indent(&mut self) -> Result<(), AllocError> {
        for _ in 0..self.suites {
            self.text.push_str("    ")?;
        }
        Ok(())
    }

    /// A way to write a part, or nothing where a routine begins.
    fn way(&mut self, name: &'static str) -> &'static str {
        if let Some((routine, parts)) = name.split_once(": ") {
            self.routine = routine;
            self.left = parts.parse().unwrap_or(0);
            return "";
        }
        let ways = self.ways(name);
        let outside = name == "jump" && self.loops == 0;
        let chosen = if outside || self.left == 0 || self.suites >= DEEPEST {
            0
        } else {
            self.dice.below(ways.lines().count())
        };
        self.left = self.left.saturating_sub(1);
        ways.lines().nth(chosen).unwrap_or("")
    }

    /// The ways to write a part in this routine, a line for each.
    fn ways(&self, name: &str) -> &'static str {
        for rule in &self.rules {
            if let Some((title, ways)) = rule.split_once('\n') {
                if is_for(title, name, self.routine) {
                    return ways;
                }
            }
        }
        ""
    }
}

/// Whether a title is a part's, and names this routine or none.
fn is_for(title: &str, name: &str, routine: &str) -> bool {
    let mut words = title.split_whitespace();
    if words.next() != Some(name) {
        return false;
    }
    let mut is_for_all = true;
    for word in words {
        if word == routine {
            return true;
        }
        is_for_all = false;
    }
    is_for_all
}
