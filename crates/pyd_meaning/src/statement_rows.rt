//! Scripts of assignments, arms and assertions, with all that they do, as contracts of functions
//! with empty bodies.
ghost use Rattle.std.specs.Prelude.{true, false, Option, Some, [], ◌∷◌, codes};
ghost use Rattle.pyd_value.specs.declared.value.Value.TheVariants.{Bool, Text, None};
ghost use Rattle.pyd_value.specs.declared.fault.End.TheVariants.{Finished};
ghost use Rattle.pyd_value.specs.declared.fault.End.TheVariants as ending;
ghost use Rattle.pyd_value.specs.declared.fault.Kind.TheVariants as kind;
ghost use Rattle.pyd_value.specs.declared.fault.Limit.TheVariants as limit;
ghost use Rattle.pyd_value.specs.declared.operator.BinOp.TheVariants as binary;
ghost use Rattle.pyd_value.specs.declared.operator.CmpOp.TheVariants as compare;
ghost use Rattle.pyd_tree.specs.declared.expression.Expr.TheVariants as e;
ghost use Rattle.pyd_tree.specs.declared.statement.What.TheVariants as what;
ghost use Rattle.pyd_names.specs.Resolution as resolution;
ghost use Rattle.pyd_meaning.specs.Defaults.{default_limits};
ghost use Rattle.pyd_meaning.specs.Rows.{number, statement, suite, arm, targets, Does};

/// An assignment, and a `print` of what was bound:
///
/// ```text
/// x = 2
/// print(x + 1)
/// ```
pub fn assignment_script()
    ensures { Does (record {
      statements = ((statement 1 (what.Assign (targets false
          ((codes "x") ∷ [])) (number 2))) ∷ (statement 2 (what.Expr (e.Call
          (codes "print") ((e.Chain (e.Name (codes "x")) ((binary.Add, (number 1)) ∷ []))
          ∷ [])))) ∷ []);
      functions = [];
      kinds = ((((codes "x"), resolution.Local) ∷ [])
          ∷ []);
    }) default_limits ((codes "3") ∷ []) Finished 7 }
{}

/// Targets of a tuple:
///
/// ```text
/// a, b = 1, 2
/// print(b)
/// ```
pub fn unpacking_script()
    ensures { Does (record {
      statements = ((statement 1 (what.Assign (targets true
          ((codes "a") ∷ (codes "b") ∷ [])) (e.Tuple ((number 1) ∷ (number 2) ∷ [])))) ∷
          (statement 2 (what.Expr (e.Call (codes "print") ((e.Name (codes "b")) ∷ [])))) ∷
          []);
      functions = [];
      kinds = ((((codes "a"), resolution.Local) ∷ (
        (codes "b"),
        resolution.Local,
      ) ∷ []) ∷ []);
    }) default_limits ((codes "2") ∷ []) Finished 7 }
{}

/// A text is unpacked to its characters:
///
/// ```text
/// a, b = "xy"
/// assert a < b
/// ```
pub fn unpack_text_script()
    ensures { Does (record {
      statements = ((statement 1 (what.Assign (targets true
          ((codes "a") ∷ (codes "b") ∷ [])) (e.Lit (Text (codes "xy"))))) ∷ (statement 2
          (what.Assert (e.Compare (e.Name (codes "a")) ((compare.Lt, (e.Name (codes "b")))
          ∷ [])) Option.None)) ∷ []);
      functions = [];
      kinds = (((
        (codes "a"),
        resolution.Local,
      ) ∷ ((codes "b"), resolution.Local) ∷ []) ∷ []);
    })
        default_limits [] Finished 6 }
{}

/// A wrong count binds no target:
///
/// ```text
/// a, b = (1,)
/// ```
pub fn unpack_count_script()
    ensures { Does (record {
      statements = ((statement 1 (what.Assign (targets true
          ((codes "a") ∷ (codes "b") ∷ [])) (e.Tuple ((number 1) ∷ [])))) ∷ []);
      functions
          = [];
      kinds = ((((codes "a"), resolution.Local) ∷ (
        (codes "b"),
        resolution.Local,
      ) ∷ []) ∷ []);
    }) default_limits [] (ending.Raised
        kind.ValueError 1) 3 }
{}

/// Only tuples and texts are unpacked:
///
/// ```text
/// a, b = 7
/// ```
pub fn unpack_kind_script()
    ensures { Does (record {
      statements = ((statement 1 (what.Assign (targets true
          ((codes "a") ∷ (codes "b") ∷ [])) (number 7))) ∷ []);
      functions = [];
      kinds =
          ((((codes "a"), resolution.Local) ∷ ((codes "b"), resolution.Local) ∷ []) ∷ []);
    }) default_limits [] (ending.Raised kind.TypeError 1) 2 }
{}

/// An augmented assignment:
///
/// ```text
/// x = 3
/// x += 4
/// print(x)
/// ```
pub fn augmented_script()
    ensures { Does (record {
      statements = ((statement 1 (what.Assign (targets false
          ((codes "x") ∷ [])) (number 3))) ∷ (statement 2 (what.Aug (codes "x") binary.Add
          (number 4))) ∷ (statement 3 (what.Expr (e.Call (codes "print") ((e.Name
          (codes "x")) ∷ [])))) ∷ []);
      functions = [];
      kinds = (((
        (codes "x"),
        resolution.Local,
      ) ∷ []) ∷ []);
    }) default_limits ((codes "7") ∷ []) Finished 7 }
{}

/// The name is read before the right side:
///
/// ```text
/// x += print(1)
/// ```
pub fn augmented_unbound_script()
    ensures { Does (record {
      statements = ((statement 1 (what.Aug (codes "x") binary.Add
          (e.Call (codes "print") ((number 1) ∷ [])))) ∷ []);
      functions = [];
      kinds =
          ((((codes "x"), resolution.Local) ∷ []) ∷ []);
    }) default_limits []
        (ending.Raised kind.NameError 1) 1 }
{}

/// The first arm whose test is true:
///
/// ```text
/// x = 0
/// if x:
///     print(1)
/// elif x == 0:
///     print(2)
/// else:
///     print(3)
/// ```
pub fn if_elif_script()
    ensures { Does (record {
      statements = ((statement 1 (what.Assign (targets false
          ((codes "x") ∷ [])) (number 0))) ∷ (statement 2 (what.If ((arm 2 (e.Name
          (codes "x")) ((statement 3 (what.Expr (e.Call (codes "print") ((number 1) ∷
          [])))) ∷ [])) ∷ (arm 4 (e.Compare (e.Name (codes "x")) ((compare.Eq, (number 0))
          ∷ [])) ((statement 5 (what.Expr (e.Call (codes "print") ((number 2) ∷ [])))) ∷
          [])) ∷ []) (Some (suite ((statement 7 (what.Expr (e.Call (codes "print")
          ((number 3) ∷ [])))) ∷ []))))) ∷ []);
      functions = [];
      kinds = (((
        (codes "x"),
        resolution.Local,
      ) ∷ []) ∷ []);
    }) default_limits ((codes "2") ∷ []) Finished 10 }
{}

/// A fault in the test of an `elif` has that line:
///
/// ```text
/// x = 0
/// if x:
///     pass
/// elif x + None:
///     pass
/// ```
pub fn elif_fault_script()
    ensures { Does (record {
      statements = ((statement 1 (what.Assign (targets false
          ((codes "x") ∷ [])) (number 0))) ∷ (statement 2 (what.If ((arm 2 (e.Name
          (codes "x")) ((statement 3 what.Pass) ∷ [])) ∷ (arm 4 (e.Chain (e.Name
          (codes "x")) ((binary.Add, (e.Lit None)) ∷ [])) ((statement 5 what.Pass) ∷ []))
          ∷ []) Option.None)) ∷ []);
      functions = [];
      kinds = (((
        (codes "x"),
        resolution.Local,
      ) ∷ []) ∷ []);
    }) default_limits [] (ending.Raised
        kind.TypeError 4) 7 }
{}

/// A name that was bound in no branch that ran:
///
/// ```text
/// if False:
///     y = 1
/// print(y)
/// ```
pub fn unbound_branch_script()
    ensures { Does (record {
      statements = ((statement 1 (what.If ((arm 1 (e.Lit (Bool false))
          ((statement 2 (what.Assign (targets false ((codes "y") ∷ [])) (number 1))) ∷
          [])) ∷ []) Option.None)) ∷ (statement 3 (what.Expr (e.Call (codes "print")
          ((e.Name (codes "y")) ∷ [])))) ∷ []);
      functions = [];
      kinds = (((
        (codes "y"),
        resolution.Local,
      ) ∷ []) ∷ []);
    }) default_limits [] (ending.Raised
        kind.NameError 3) 5 }
{}

/// An `assert` that holds:
///
/// ```text
/// assert 1, print(2)
/// ```
pub fn assert_passes_script()
    ensures { Does (record {
      statements = ((statement 1 (what.Assert (number 1) (Some (e.Call
          (codes "print") ((number 2) ∷ []))))) ∷ []);
      functions = [];
      kinds = ([] ∷ []);
    }) default_limits [] Finished 2 }
{}

/// The message is evaluated before the exception:
///
/// ```text
/// assert 0, print(2)
/// ```
pub fn assert_fails_script()
    ensures { Does (record {
      statements = ((statement 1 (what.Assert (number 0) (Some (e.Call
          (codes "print") ((number 2) ∷ []))))) ∷ []);
      functions = [];
      kinds = ([] ∷ []);
    }) default_limits ((codes "2") ∷ []) (ending.Raised kind.AssertionError 1) 4 }
{}

/// A sum that is too wide:
///
/// ```text
/// x = 2 ** 126
/// x = x + x
/// ```
pub fn int_limit_script()
    ensures { Does (record {
      statements = ((statement 1 (what.Assign (targets false
          ((codes "x") ∷ [])) (e.Power (number 2) (number 126)))) ∷ (statement 2
          (what.Assign (targets false ((codes "x") ∷ [])) (e.Chain (e.Name (codes "x"))
          ((binary.Add, (e.Name (codes "x"))) ∷ [])))) ∷ []);
      functions = [];
      kinds =
          ((((codes "x"), resolution.Local) ∷ []) ∷ []);
    }) default_limits []
        (ending.Limit limit.Int 2) 8 }
{}

/// Nothing follows a fault:
///
/// ```text
/// print(1 // 0)
/// print(2)
/// ```
pub fn fault_ends_script()
    ensures { Does (record {
      statements = ((statement 1 (what.Expr (e.Call (codes "print")
          ((e.Chain (number 1) ((binary.Div, (number 0)) ∷ [])) ∷ [])))) ∷ (statement 2
          (what.Expr (e.Call (codes "print") ((number 2) ∷ [])))) ∷ []);
      functions = [];
      kinds = ([] ∷ []);
    }) default_limits [] (ending.Raised kind.ZeroDivisionError 1)
        5 }
{}
