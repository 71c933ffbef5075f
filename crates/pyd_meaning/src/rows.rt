//! Small expressions, each with all that it does, as the contract of a function with an empty body.
//! In them x is 3, y is a local that isn't bound, C is the constant 7, f prints `f` and gives 0,
//! and the line is 5.
ghost use Rattle.std.specs.Prelude.{pos, [], ◌∷◌, codes, Option, Some, Ok, Err, true, false};
ghost use Rattle.pyd_value.specs.declared.value.Value.TheVariants.{Int, Bool, Text, Tuple, None};
ghost use Rattle.pyd_value.specs.declared.fault.Fault.TheVariants as fault;
ghost use Rattle.pyd_value.specs.declared.fault.Kind.TheVariants as kind;
ghost use Rattle.pyd_value.specs.declared.fault.Limit.TheVariants as limit;
ghost use Rattle.pyd_value.specs.declared.operator.BinOp.TheVariants as binary;
ghost use Rattle.pyd_value.specs.declared.operator.CmpOp.TheVariants as compare;
ghost use Rattle.pyd_value.specs.declared.operator.UnOp.TheVariants as op;
ghost use Rattle.pyd_tree.specs.declared.expression.Expr.TheVariants as e;
ghost use Rattle.pyd_tree.specs.declared.expression.Suffix.TheVariants as suffix;
ghost use Rattle.pyd_meaning.specs.Rows.{number, Gives};

/// `x + 4 - 1`: a chain is read from the left.
pub fn chain_row()
    ensures { Gives (e.Chain (e.Name (codes "x")) ((binary.Add, (number 4)) ∷ (
      binary.Sub,
      (number 1),
    ) ∷ [])) [] (Ok (Int (pos 6))) 4 }
{}

/// `x + None + f()`: a chain stops at its first fault, and `f` is not called.
pub fn early_fault_row()
    ensures { Gives (e.Chain (e.Name (codes "x")) ((binary.Add, (e.Lit None)) ∷ (
      binary.Add,
      (e.Call (codes "f") []),
    ) ∷ [])) [] (Err (fault.Raised kind.TypeError 5)) 3 }
{}

/// `x and f()`: an `and` gives its last member where all before are true.
pub fn and_row()
    ensures { Gives (e.And ((e.Name (codes "x")) ∷ (e.Call (codes "f") []) ∷ [])) ((codes "f")
        ∷ []) (Ok (Int (pos 0))) 3 }
{}

/// `0 and f()`: an `and` stops at a member that is false.
pub fn false_and_row()
    ensures { Gives (e.And ((number 0) ∷ (e.Call (codes "f") []) ∷ [])) [] (Ok (Int (pos 0)))
        2 }
{}

/// `x or f()`: an `or` stops at a member that is true.
pub fn or_row()
    ensures { Gives (e.Or ((e.Name (codes "x")) ∷ (e.Call (codes "f") []) ∷ [])) [] (Ok (Int
        (pos 3))) 2 }
{}

/// `not x`: a `not` gives a truth value.
pub fn not_row()
    ensures { Gives (e.Unary op.Not (e.Name (codes "x"))) [] (Ok (Bool false)) 2 }
{}

/// `1 > f() < 2`: the operand in the middle is evaluated once.
pub fn comparison_row()
    ensures { Gives (e.Compare (number 1) ((compare.Gt, (e.Call (codes "f") [])) ∷
        (compare.Lt, (number 2)) ∷ [])) ((codes "f") ∷ []) (Ok (Bool true)) 4 }
{}

/// `1 < f() < y`: a comparison stops at a link that is false.
pub fn false_link_row()
    ensures { Gives (e.Compare (number 1) ((compare.Lt, (e.Call (codes "f") [])) ∷
        (compare.Lt, (e.Name (codes "y"))) ∷ [])) ((codes "f") ∷ []) (Ok (Bool false)) 3 }
{}

/// `4 if x else y`: the side that would fault is not evaluated.
pub fn conditional_row()
    ensures { Gives (e.If (e.Name (codes "x")) (number 4) (e.Name (codes "y"))) [] (Ok (Int
        (pos 4))) 3 }
{}

/// `y`: a local that is not bound.
pub fn unbound_local_row()
    ensures { Gives (e.Name (codes "y")) [] (Err (fault.Raised kind.UnboundLocalError 5)) 1 }
{}

/// `C`: a constant.
pub fn constant_row()
    ensures { Gives (e.Name (codes "C")) [] (Ok (Int (pos 7))) 1 }
{}

/// `g(f())`: an unbound name raises `NameError` before its arguments.
pub fn unbound_callee_row()
    ensures { Gives (e.Call (codes "g") ((e.Call (codes "f") []) ∷ [])) [] (Err (fault.Raised
        kind.NameError 5)) 1 }
{}

/// `f(f(), 1)`: arguments come before the call.
pub fn calls_row()
    ensures { Gives (e.Call (codes "f") ((e.Call (codes "f") []) ∷ (number 1) ∷ []))
        ((codes "f") ∷ (codes "f") ∷ []) (Ok (Int (pos 0))) 3 }
{}

/// `print(x)`: a `print` puts out a line and gives `None`.
pub fn print_row()
    ensures { Gives (e.Call (codes "print") ((e.Name (codes "x")) ∷ [])) ((codes "3") ∷ [])
        (Ok None) 2 }
{}

/// `print(y, f())`: a fault in the first argument comes before the second.
pub fn print_fault_row()
    ensures { Gives (e.Call (codes "print") ((e.Name (codes "y")) ∷ (e.Call (codes "f") []) ∷
        [])) [] (Err (fault.Raised kind.UnboundLocalError 5)) 2 }
{}

/// `(x,)`: a tuple of one member.
pub fn tuple_row()
    ensures { Gives (e.Tuple ((e.Name (codes "x")) ∷ [])) [] (Ok (Tuple (Int (pos 3) ∷ []))) 2 }
{}

/// `"hello"[1:-1]`: a slice of a text, with a bound from its end.
pub fn slice_row()
    ensures { Gives (e.Suffixed (e.Lit (Text (codes "hello"))) ((suffix.Slice (Some (number
        1)) (Some (e.Unary op.Neg (number 1)))) ∷ [])) [] (Ok (Text (codes "ell"))) 6 }
{}

/// `(1, 2)[x]`: an index past the end.
pub fn index_row()
    ensures { Gives (e.Suffixed (e.Tuple ((number 1) ∷ (number 2) ∷ [])) ((suffix.Index
        (e.Name (codes "x"))) ∷ [])) [] (Err (fault.Raised kind.IndexError 5)) 6 }
{}

/// `x ** 2`: a power.
pub fn power_row()
    ensures { Gives (e.Power (e.Name (codes "x")) (number 2)) [] (Ok (Int (pos 9))) 3 }
{}

/// `2 ** -1`: a power that Python gives as a fraction.
pub fn negative_power_row()
    ensures { Gives (e.Power (number 2) (e.Unary op.Neg (number 1))) [] (Err (fault.Limit
        limit.Outside 5)) 4 }
{}

/// `x // 0`: a division by 0.
pub fn division_row()
    ensures { Gives (e.Chain (e.Name (codes "x")) ((binary.Div, (number 0)) ∷ [])) [] (Err
        (fault.Raised kind.ZeroDivisionError 5)) 3 }
{}

/// `len("ab")`: a builtin function.
pub fn len_row()
    ensures { Gives (e.Call (codes "len") ((e.Lit (Text (codes "ab"))) ∷ [])) [] (Ok (Int (pos
        2))) 2 }
{}
