ghost use Rattle.std.specs.Prelude.{◌≡◌, ◌&&◌};

/// All of three.
pub fn are_all(a: bool, b: bool, c: bool) -> bool
    ensures { result ≡ (a && (b && c)) }
{
    a && b && c
}
