ghost use Rattle.std.specs.Prelude.{◌≡◌, ◌≤◌, length, drop};
ghost use Rattle.std.specs.Option.{option_copied};
ghost use Rattle.tl_rules.specs.Refusals as spec;

/// The only one of some ports.
pub fn only<P>(ports: &[P]) -> Option<&P>
    ensures { option_copied result ≡ spec.only ports.now }
{
    match ports {
        [port] => Some(port),
        _ => None,
    }
}

/// What stands behind the first items of a list.
pub fn behind<T>(items: &[T], count: usize) -> &[T]
    requires { count ≤ length items.now }
    ensures { result.now ≡ drop count items.now }
{
    &items[count..]
}
