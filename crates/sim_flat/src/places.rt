// Places of names, and numbers by them.

ghost use Rattle.std.specs.Prelude.{◌≡◌, ◌+◌, ◌<◌, ◌^◌, IfSome, length};
ghost use Rattle.sim_flat.specs.Places.{place_in as place_lem, number_in as number_lem, both as both_lem};

use tapa_base::Text;
use vlog_scope::Scope;

/// The first index of a name.
pub fn place_in(scope: &Scope, name: &Text) -> Option<usize>
    ensures place { result ≡ place_lem scope.now name.now }
    ensures low { IfSome result (λ p. p < length scope.now) }
{
    match scope.place(name) {
        Some((place, _)) => Some(place),
        None => None,
    }
}

/// The number of a name's net, where the first name has this number.
pub fn number_in(base: usize, scope: &Scope, name: &Text) -> Option<usize>
    requires { base + length scope.now < 2 ^ 64 }
    ensures { result ≡ number_lem base scope.now name.now }
{
    match place_in(scope, name) {
        Some(place) => Some(base + place),
        None => None,
    }
}

/// Two numbers, where there are both.
pub fn both(a: Option<usize>, b: Option<usize>) -> Option<(usize, usize)>
    ensures { result ≡ both_lem a b }
{
    match a {
        Some(p) => match b {
            Some(q) => Some((p, q)),
            None => None,
        },
        None => None,
    }
}
