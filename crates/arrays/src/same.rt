// Slices compared.
ghost use Rattle.std.specs.Prelude.{◌≡◌};
ghost use lib.Pointwise.{pointwise};

// Returns whether two slices hold the same items: `==`, to which an array may be given too.
pub fn same<T: PartialEq>(a: &[T], b: &[T]) -> bool
    ensures { result ≡ pointwise T.eq a.now b.now }
{
    a == b
}
