//! The least of some lines.
ghost use Rattle.std.specs.Prelude.{◌≡◌};
ghost use Rattle.pyd_scope.specs.Least as spec;

/// The lesser of two lines, either of which may be missing.
pub fn lesser(a: Option<u32>, b: Option<u32>) -> Option<u32>
    ensures { result ≡ spec.lesser a b }
{
    match (a, b) {
        (Some(a), Some(b)) => Some(a.min(b)),
        (Some(a), None) => Some(a),
        (None, b) => b,
    }
}
