//! Scripts of loops, with all that they do, as contracts of functions with empty bodies.
ghost use Rattle.std.specs.Prelude.{true, false, [], ◌∷◌, codes};
ghost use Rattle.pyd_value.specs.declared.value.Value.TheVariants.{Bool};
ghost use Rattle.pyd_value.specs.declared.fault.End.TheVariants.{Finished};
ghost use Rattle.pyd_value.specs.declared.fault.End.TheVariants as ending;
ghost use Rattle.pyd_value.specs.declared.fault.Kind.TheVariants as kind;
ghost use Rattle.pyd_value.specs.declared.fault.Limit.TheVariants as limit;
ghost use Rattle.pyd_value.specs.declared.operator.BinOp.TheVariants as binary;
ghost use Rattle.pyd_value.specs.declared.operator.CmpOp.TheVariants as compare;
ghost use Rattle.pyd_tree.specs.declared.expression.Expr.TheVariants as e;
ghost use Rattle.pyd_tree.specs.declared.statement.What.TheVariants as what;
ghost use Rattle.pyd_names.specs.Resolution as resolution;
ghost use Rattle.pyd_meaning.specs.Rows.{number, statement, suite, targets, at_most, Does};

/// A `while` tests before each turn, within 2 turns and 4 calls:
///
/// ```text
/// k = 0
/// while k < 1:
///     k += 1
/// print(k)
/// ```
pub fn while_loop_script()
    ensures { Does (record {
      statements = ((statement 1 (what.Assign (targets false
          ((codes "k") ∷ [])) (number 0))) ∷ (statement 2 (what.While (e.Compare (e.Name
          (codes "k")) ((compare.Lt, (number 1)) ∷ [])) (suite ((statement 3 (what.Aug
          (codes "k") binary.Add (number 1))) ∷ [])))) ∷ (statement 4 (what.Expr (e.Call
          (codes "print") ((e.Name (codes "k")) ∷ [])))) ∷ []);
      functions = [];
      kinds =
          ((((codes "k"), resolution.Local) ∷ []) ∷ []);
    }) (at_most 2 4) ((codes "1") ∷
        []) Finished 15 }
{}

/// Exactly as many turns as the limit, within 2 turns and 4 calls:
///
/// ```text
/// k = 0
/// while k < 2:
///     k += 1
/// ```
pub fn while_at_limit_script()
    ensures { Does (record {
      statements = ((statement 1 (what.Assign (targets false
          ((codes "k") ∷ [])) (number 0))) ∷ (statement 2 (what.While (e.Compare (e.Name
          (codes "k")) ((compare.Lt, (number 2)) ∷ [])) (suite ((statement 3 (what.Aug
          (codes "k") binary.Add (number 1))) ∷ [])))) ∷ []);
      functions = [];
      kinds =
          ((((codes "k"), resolution.Local) ∷ []) ∷ []);
    }) (at_most 2 4) [] Finished 18 }
{}

/// One turn more than the limit, within 2 turns and 4 calls:
///
/// ```text
/// k = 0
/// while k < 3:
///     k += 1
/// ```
pub fn while_past_limit_script()
    ensures { Does (record {
      statements = ((statement 1 (what.Assign (targets false
          ((codes "k") ∷ [])) (number 0))) ∷ (statement 2 (what.While (e.Compare (e.Name
          (codes "k")) ((compare.Lt, (number 3)) ∷ [])) (suite ((statement 3 (what.Aug
          (codes "k") binary.Add (number 1))) ∷ [])))) ∷ []);
      functions = [];
      kinds =
          ((((codes "k"), resolution.Local) ∷ []) ∷ []);
    }) (at_most 2 4) [] (ending.Limit
        limit.Turn 2) 19 }
{}

/// A `while` that has no turn, within 0 turns and 4 calls:
///
/// ```text
/// while 0:
///     print(1)
/// ```
pub fn while_false_script()
    ensures { Does (record {
      statements = ((statement 1 (what.While (number 0) (suite
          ((statement 2 (what.Expr (e.Call (codes "print") ((number 1) ∷ [])))) ∷ [])))) ∷
          []);
      functions = [];
      kinds = ([] ∷ []);
    }) (at_most 0 4) [] Finished 2 }
{}

/// A `break` out of a `while True`, within 3 turns and 4 calls:
///
/// ```text
/// while True:
///     break
/// print(1)
/// ```
pub fn while_break_script()
    ensures { Does (record {
      statements = ((statement 1 (what.While (e.Lit (Bool true)) (suite
          ((statement 2 what.Break) ∷ [])))) ∷ (statement 3 (what.Expr (e.Call
          (codes "print") ((number 1) ∷ [])))) ∷ []);
      functions = [];
      kinds = ([] ∷ []);
    }) (at_most 3 4) ((codes "1") ∷ []) Finished 7 }
{}

/// A `for` over a tuple, with unpacked targets, within 4 turns and 4 calls:
///
/// ```text
/// for a, b in ((1, 2), (3, 4)):
///     print(a + b)
/// ```
pub fn for_tuple_script()
    ensures { Does (record {
      statements = ((statement 1 (what.For (targets true ((codes "a") ∷
          (codes "b") ∷ [])) (e.Tuple ((e.Tuple ((number 1) ∷ (number 2) ∷ [])) ∷ (e.Tuple
          ((number 3) ∷ (number 4) ∷ [])) ∷ [])) (suite ((statement 2 (what.Expr (e.Call
          (codes "print") ((e.Chain (e.Name (codes "a")) ((
            binary.Add,
            (e.Name
                (codes "b")),
          ) ∷ [])) ∷ [])))) ∷ [])))) ∷ []);
      functions = [];
      kinds =
          ((((codes "a"), resolution.Local) ∷ ((codes "b"), resolution.Local) ∷ []) ∷ []);
    }) (at_most 4 4) ((codes "3") ∷ (codes "7") ∷ []) Finished 20 }
{}

/// A `for` over a range, within 2 turns and 4 calls:
///
/// ```text
/// for i in range(1, 4, 2):
///     print(i)
/// ```
pub fn for_range_script()
    ensures { Does (record {
      statements = ((statement 1 (what.For (targets false ((codes "i")
          ∷ [])) (e.Call (codes "range") ((number 1) ∷ (number 4) ∷ (number 2) ∷ []))
          (suite ((statement 2 (what.Expr (e.Call (codes "print") ((e.Name (codes "i")) ∷
          [])))) ∷ [])))) ∷ []);
      functions = [];
      kinds = ((((codes "i"), resolution.Local)
          ∷ []) ∷ []);
    }) (at_most 2 4) ((codes "1") ∷ (codes "3") ∷ []) Finished 13 }
{}

/// A range whose next number would be too wide, within 2 turns and 4 calls:
///
/// ```text
/// for i in range(170141183460469231731687303715884105726, 170141183460469231731687303715884105727, 5):
///     pass
/// ```
pub fn range_end_script()
    ensures { Does (record {
      statements = ((statement 1 (what.For (targets false ((codes "i")
          ∷ [])) (e.Call (codes "range") ((number 170141183460469231731687303715884105726)
          ∷ (number 170141183460469231731687303715884105727) ∷ (number 5) ∷ [])) (suite
          ((statement 2 what.Pass) ∷ [])))) ∷ []);
      functions = [];
      kinds = (((
        (codes "i"),
        resolution.Local,
      ) ∷ []) ∷ []);
    }) (at_most 2 4) [] Finished 7 }
{}

/// Exactly as many items as the limit, within 2 turns and 4 calls:
///
/// ```text
/// for i in range(2):
///     pass
/// ```
pub fn for_at_limit_script()
    ensures { Does (record {
      statements = ((statement 1 (what.For (targets false ((codes "i")
          ∷ [])) (e.Call (codes "range") ((number 2) ∷ [])) (suite ((statement 2
          what.Pass) ∷ [])))) ∷ []);
      functions = [];
      kinds = (((
        (codes "i"),
        resolution.Local,
      ) ∷ []) ∷ []);
    }) (at_most 2 4) [] Finished 7 }
{}

/// One item more than the limit, within 2 turns and 4 calls:
///
/// ```text
/// for i in range(3):
///     pass
/// ```
pub fn for_past_limit_script()
    ensures { Does (record {
      statements = ((statement 1 (what.For (targets false ((codes "i")
          ∷ [])) (e.Call (codes "range") ((number 3) ∷ [])) (suite ((statement 2
          what.Pass) ∷ [])))) ∷ []);
      functions = [];
      kinds = (((
        (codes "i"),
        resolution.Local,
      ) ∷ []) ∷ []);
    }) (at_most 2 4) [] (ending.Limit limit.Turn 1) 8 }
{}

/// Only a tuple, a text or a range, within 4 turns and 4 calls:
///
/// ```text
/// for i in 7:
///     pass
/// ```
pub fn for_kind_script()
    ensures { Does (record {
      statements = ((statement 1 (what.For (targets false ((codes "i")
          ∷ [])) (number 7) (suite ((statement 2 what.Pass) ∷ [])))) ∷ []);
      functions =
          [];
      kinds = ((((codes "i"), resolution.Local) ∷ []) ∷ []);
    }) (at_most 4 4) []
        (ending.Raised kind.TypeError 1) 2 }
{}

/// A `break` ends the innermost loop, within 2 turns and 4 calls:
///
/// ```text
/// for i in (1, 2):
///     for j in (3, 4):
///         break
/// print(j)
/// ```
pub fn for_break_script()
    ensures { Does (record {
      statements = ((statement 1 (what.For (targets false ((codes "i")
          ∷ [])) (e.Tuple ((number 1) ∷ (number 2) ∷ [])) (suite ((statement 2 (what.For
          (targets false ((codes "j") ∷ [])) (e.Tuple ((number 3) ∷ (number 4) ∷ []))
          (suite ((statement 3 what.Break) ∷ [])))) ∷ [])))) ∷ (statement 4 (what.Expr
          (e.Call (codes "print") ((e.Name (codes "j")) ∷ [])))) ∷ []);
      functions = [];
      kinds = ((((codes "i"), resolution.Local) ∷ ((codes "j"), resolution.Local) ∷
          []) ∷ []);
    }) (at_most 2 4) ((codes "3") ∷ []) Finished 21 }
{}

/// A `continue` goes on with the next turn, within 2 turns and 4 calls:
///
/// ```text
/// for i in (1, 2):
///     continue
///     print(i)
/// ```
pub fn for_continue_script()
    ensures { Does (record {
      statements = ((statement 1 (what.For (targets false ((codes "i")
          ∷ [])) (e.Tuple ((number 1) ∷ (number 2) ∷ [])) (suite ((statement 2
          what.Continue) ∷ (statement 3 (what.Expr (e.Call (codes "print") ((e.Name
          (codes "i")) ∷ [])))) ∷ [])))) ∷ []);
      functions = [];
      kinds = (((
        (codes "i"),
        resolution.Local,
      ) ∷ []) ∷ []);
    }) (at_most 2 4) [] Finished 8 }
{}

/// A target is bound, and then its turn ends in a fault, within 2 turns and 4 calls:
///
/// ```text
/// for i in (5,):
///     print(i)
///     i // 0
/// ```
pub fn bound_before_fault_script()
    ensures { Does (record {
      statements = ((statement 1 (what.For (targets false ((codes "i")
          ∷ [])) (e.Tuple ((number 5) ∷ [])) (suite ((statement 2 (what.Expr (e.Call
          (codes "print") ((e.Name (codes "i")) ∷ [])))) ∷ (statement 3 (what.Expr
          (e.Chain (e.Name (codes "i")) ((binary.Div, (number 0)) ∷ [])))) ∷ [])))) ∷ []);
      functions = [];
      kinds = ((((codes "i"), resolution.Local) ∷ []) ∷ []);
    })
        (at_most 2 4) ((codes "5") ∷ []) (ending.Raised kind.ZeroDivisionError 3) 11 }
{}
