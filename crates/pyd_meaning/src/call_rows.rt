//! Scripts of functions, with all that they do, as contracts of functions with empty bodies.
ghost use Rattle.std.specs.Prelude.{true, false, Option, Some, [], ◌∷◌, codes};
ghost use Rattle.pyd_value.specs.declared.value.Value.TheVariants.{Bool, None};
ghost use Rattle.pyd_value.specs.declared.fault.End.TheVariants.{Finished};
ghost use Rattle.pyd_value.specs.declared.fault.End.TheVariants as ending;
ghost use Rattle.pyd_value.specs.declared.fault.Kind.TheVariants as kind;
ghost use Rattle.pyd_value.specs.declared.fault.Limit.TheVariants as limit;
ghost use Rattle.pyd_value.specs.declared.operator.BinOp.TheVariants as binary;
ghost use Rattle.pyd_value.specs.declared.operator.CmpOp.TheVariants as compare;
ghost use Rattle.pyd_tree.specs.declared.expression.Expr.TheVariants as e;
ghost use Rattle.pyd_tree.specs.declared.statement.What.TheVariants as what;
ghost use Rattle.pyd_names.specs.Resolution as resolution;
ghost use Rattle.pyd_meaning.specs.Defaults.{default_limits};
ghost use Rattle.pyd_meaning.specs.Rows.{number, statement, suite, arm, targets, function_of, at_most, Does};

/// A call gives what is returned:
///
/// ```text
/// def f(a):
///     return a + 1
///
/// print(f(4))
/// ```
pub fn call_script()
    ensures { Does (record {
      statements = ((statement 4 (what.Expr (e.Call (codes "print")
          ((e.Call (codes "f") ((number 4) ∷ [])) ∷ [])))) ∷ []);
      functions =
          ((function_of ((codes "a") ∷ []) ((statement 2 (what.Return (Some (e.Chain
          (e.Name (codes "a")) ((binary.Add, (number 1)) ∷ []))))) ∷ [])) ∷ []);
      kinds =
          ((((codes "f"), resolution.Function 1) ∷ []) ∷ (((codes "a"), resolution.Local)
          ∷ ((codes "f"), resolution.Function 1) ∷ []) ∷ []);
    }) default_limits
        ((codes "5") ∷ []) Finished 8 }
{}

/// A body that ends gives None:
///
/// ```text
/// def f():
///     pass
///
/// print(f() == None)
/// ```
pub fn call_none_script()
    ensures { Does (record {
      statements = ((statement 4 (what.Expr (e.Call (codes "print")
          ((e.Compare (e.Call (codes "f") []) ((compare.Eq, (e.Lit None)) ∷ [])) ∷ []))))
          ∷ []);
      functions = ((function_of [] ((statement 2 what.Pass) ∷ [])) ∷ []);
      kinds
          = ((((codes "f"), resolution.Function 1) ∷ []) ∷ ((
            (codes "f"),
            resolution.Function 1,
          ) ∷ []) ∷ []);
    }) default_limits ((codes "True") ∷ [])
        Finished 6 }
{}

/// A wrong count of arguments, in the line of the caller:
///
/// ```text
/// def f(a):
///     return a
///
/// f(print(1), 2)
/// ```
pub fn call_count_script()
    ensures { Does (record {
      statements = ((statement 4 (what.Expr (e.Call (codes "f")
          ((e.Call (codes "print") ((number 1) ∷ [])) ∷ (number 2) ∷ [])))) ∷ []);
      functions = ((function_of ((codes "a") ∷ []) ((statement 2 (what.Return (Some
          (e.Name (codes "a"))))) ∷ [])) ∷ []);
      kinds = (((
        (codes "f"),
        resolution.Function 1,
      ) ∷ []) ∷ (((codes "a"), resolution.Local) ∷ (
        (codes "f"),
        resolution.Function 1,
      ) ∷ []) ∷ []);
    }) default_limits ((codes "1") ∷ [])
        (ending.Raised kind.TypeError 4) 5 }
{}

/// An unbound local of a function:
///
/// ```text
/// def f(c):
///     if c:
///         x = 1
///     return x
///
/// f(False)
/// ```
pub fn call_unbound_script()
    ensures { Does (record {
      statements = ((statement 6 (what.Expr (e.Call (codes "f") ((e.Lit
          (Bool false)) ∷ [])))) ∷ []);
      functions = ((function_of ((codes "c") ∷ [])
          ((statement 2 (what.If ((arm 2 (e.Name (codes "c")) ((statement 3 (what.Assign
          (targets false ((codes "x") ∷ [])) (number 1))) ∷ [])) ∷ []) Option.None)) ∷
          (statement 4 (what.Return (Some (e.Name (codes "x"))))) ∷ [])) ∷ []);
      kinds =
          ((((codes "f"), resolution.Function 1) ∷ []) ∷ (((codes "c"), resolution.Local)
          ∷ ((codes "x"), resolution.Local) ∷ ((codes "f"), resolution.Function 1) ∷ []) ∷
          []);
    }) default_limits [] (ending.Raised kind.UnboundLocalError 4) 7 }
{}

/// A `return` leaves the loops round it, within 3 turns and 4 calls:
///
/// ```text
/// def f():
///     for i in range(3):
///         while True:
///             return i
///     print(9)
///
/// print(f())
/// ```
pub fn return_in_loop_script()
    ensures { Does (record {
      statements = ((statement 7 (what.Expr (e.Call (codes "print")
          ((e.Call (codes "f") []) ∷ [])))) ∷ []);
      functions = ((function_of []
          ((statement 2 (what.For (targets false ((codes "i") ∷ [])) (e.Call
          (codes "range") ((number 3) ∷ [])) (suite ((statement 3 (what.While (e.Lit (Bool
          true)) (suite ((statement 4 (what.Return (Some (e.Name (codes "i"))))) ∷ []))))
          ∷ [])))) ∷ (statement 5 (what.Expr (e.Call (codes "print") ((number 9) ∷ []))))
          ∷ [])) ∷ []);
      kinds = ((((codes "f"), resolution.Function 1) ∷ []) ∷
          (((codes "i"), resolution.Local) ∷ ((codes "f"), resolution.Function 1) ∷ []) ∷
          []);
    }) (at_most 3 4) ((codes "0") ∷ []) Finished 12 }
{}

/// Calls as deep as the limit, within 9 turns and 2 calls:
///
/// ```text
/// def f(k):
///     return k and f(k - 1)
///
/// print(f(1))
/// ```
pub fn depth_at_limit_script()
    ensures { Does (record {
      statements = ((statement 4 (what.Expr (e.Call (codes "print")
          ((e.Call (codes "f") ((number 1) ∷ [])) ∷ [])))) ∷ []);
      functions =
          ((function_of ((codes "k") ∷ []) ((statement 2 (what.Return (Some (e.And
          ((e.Name (codes "k")) ∷ (e.Call (codes "f") ((e.Chain (e.Name (codes "k"))
          ((binary.Sub, (number 1)) ∷ [])) ∷ [])) ∷ []))))) ∷ [])) ∷ []);
      kinds =
          ((((codes "f"), resolution.Function 1) ∷ []) ∷ (((codes "k"), resolution.Local)
          ∷ ((codes "f"), resolution.Function 1) ∷ []) ∷ []);
    }) (at_most 9 2)
        ((codes "0") ∷ []) Finished 14 }
{}

/// One call deeper than the limit, after its arguments, within 9 turns and 2 calls:
///
/// ```text
/// def f(k):
///     return k and f(k - 1)
///
/// print(f(2))
/// ```
pub fn depth_past_limit_script()
    ensures { Does (record {
      statements = ((statement 4 (what.Expr (e.Call (codes "print")
          ((e.Call (codes "f") ((number 2) ∷ [])) ∷ [])))) ∷ []);
      functions =
          ((function_of ((codes "k") ∷ []) ((statement 2 (what.Return (Some (e.And
          ((e.Name (codes "k")) ∷ (e.Call (codes "f") ((e.Chain (e.Name (codes "k"))
          ((binary.Sub, (number 1)) ∷ [])) ∷ [])) ∷ []))))) ∷ [])) ∷ []);
      kinds =
          ((((codes "f"), resolution.Function 1) ∷ []) ∷ (((codes "k"), resolution.Local)
          ∷ ((codes "f"), resolution.Function 1) ∷ []) ∷ []);
    }) (at_most 9 2) []
        (ending.Limit limit.Depth 2) 18 }
{}

/// The name is read before a call that prints:
///
/// ```text
/// def f(x):
///     print(x)
///     return 1
///
/// x = 5
/// x += f(x)
/// print(x)
/// ```
pub fn augmented_call_script()
    ensures { Does (record {
      statements = ((statement 5 (what.Assign (targets false
          ((codes "x") ∷ [])) (number 5))) ∷ (statement 6 (what.Aug (codes "x") binary.Add
          (e.Call (codes "f") ((e.Name (codes "x")) ∷ [])))) ∷ (statement 7 (what.Expr
          (e.Call (codes "print") ((e.Name (codes "x")) ∷ [])))) ∷ []);
      functions =
          ((function_of ((codes "x") ∷ []) ((statement 2 (what.Expr (e.Call
          (codes "print") ((e.Name (codes "x")) ∷ [])))) ∷ (statement 3 (what.Return (Some
          (number 1)))) ∷ [])) ∷ []);
      kinds = ((((codes "x"), resolution.Local) ∷
          ((codes "f"), resolution.Function 1) ∷ []) ∷ (((codes "x"), resolution.Local) ∷
          ((codes "f"), resolution.Function 1) ∷ []) ∷ []);
    }) default_limits ((codes "5")
        ∷ (codes "6") ∷ []) Finished 13 }
{}
