// The index of a net.

ghost use Rattle.std.specs.Prelude.{◌≡◌, ℕ, None, Some, slice_get, IfSome, bytes_eq};
ghost use Rattle.std.specs.List.{position};
ghost use Rattle.tapa_base.specs.declared.shape.Port.{Port as PortTree};

use tapa_base::Port;

/// The index of the net of a name, and none where there is no such net.
pub fn place_of(nets: &[Port], name: &[u8]) -> Option<usize>
    ensures { result ≡ position (λ (p : PortTree). bytes_eq p.name name.now) nets.now }
{
    nets.iter().position(|net| net.name.bytes() == name)
}
