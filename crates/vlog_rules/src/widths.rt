// The first name at which a width or a value doesn't fit.
#![tactic(auto, using(vlog_tree::proofs::Walks::passes, vlog_tree::proofs::Walks::tells))]

ghost use Rattle.std.specs.Prelude.{◌≡◌, ◌≤◌, ◌^◌, ◌∷◌, ◌++◌, [], map, sum, nat_le, nat_lt, IfOk, ◌==◌, ◌&&◌, ◌*◌};
ghost use Rattle.std.specs.Option.{option_copied};
ghost use Rattle.std.specs.List.{flat_map, list_all};
ghost use Rattle.vlog_tree.specs.Table.{first_violation, declared, bits_of};
ghost use Rattle.vlog_tree.specs.V3.{is_width as is_width_lem, is_cell_count as is_cell_count_lem, net_fits as fits_net, memory_fits as fits_memory};
ghost use Rattle.vlog_tree.specs.V3.{atom_bits as bits_of_atom, atom_fits as fits_atom, has_bits as has_bits_lem, is_divisor as is_divisor_lem, op_fits as fits_op};
ghost use Rattle.vlog_tree.specs.V3.{value_fits as fits_value, step_widths, connection_widths, item_widths, port_widths, module_widths, v3_uses};

use crate::names::named_if;
use tapa_base::Text;
use vlog_scope::{Library, Scope};
use vlog_tree::{Atom, BinaryOp, Connection, Item, Module, PortDecl, Step, Value};

fn is_width(bits: u32) -> bool
    ensures { result ≡ is_width_lem bits }
{
    1 <= bits && bits <= 128
}

fn is_cell_count(cells: u32) -> bool
    ensures { result ≡ is_cell_count_lem cells }
{
    1 <= cells && cells <= 1_048_576
}

// Whether a net can be used: its own line has a width that is in range.
fn net_fits(scope: &Scope, net: &Text) -> bool
    ensures { result ≡ fits_net scope.now net.now }
{
    is_width(scope.find(net).1)
}

fn memory_fits(scope: &Scope, memory: &Text) -> bool
    ensures { result ≡ fits_memory scope.now memory.now }
{
    is_width(scope.find(memory).1) && is_cell_count(scope.cells(memory.bytes()))
}

fn atom_bits(scope: &Scope, atom: &Atom) -> u64
    ensures { result ≡ bits_of_atom scope.now atom.now }
{
    match atom {
        Atom::Net(x) => scope.find(x).1 as u64,
        Atom::Part { high, low, .. } => (*high as u64 + 1).saturating_sub(*low as u64),
        Atom::Literal { width: bits, .. } => *bits as u64,
    }
}

fn is_below(n: u128, bits: u32) -> bool
    requires { bits ≤ 128 }
    ensures { result ≡ nat_lt n (2 ^ bits) }
{
    bits == 128 || n < 1u128 << bits
}

fn part_fits(bits: u32, high: u32, low: u32) -> bool
    ensures { result ≡ nat_le 2 bits && nat_le low high && nat_lt high bits }
{
    2 <= bits && low <= high && high < bits
}

fn atom_fits(scope: &Scope, atom: &Atom) -> bool
    ensures { result ≡ fits_atom scope.now atom.now }
{
    match atom {
        Atom::Net(x) => net_fits(scope, x),
        Atom::Part { net: x, high, low } => {
            let own = scope.find(x).1;
            is_width(own) && part_fits(own, *high, *low)
        }
        Atom::Literal {
            width: bits,
            value: n,
        } => is_width(*bits) && is_below(*n, *bits),
    }
}

fn has_bits(scope: &Scope, bits: u64, atom: &Atom) -> bool
    ensures { result ≡ has_bits_lem scope.now bits atom.now }
{
    match atom {
        Atom::Net(x) => {
            let own = scope.find(x).1;
            is_width(own) && own as u64 == bits
        }
        Atom::Part { .. } => atom_fits(scope, atom) && atom_bits(scope, atom) == bits,
        Atom::Literal { .. } => atom_fits(scope, atom) && atom_bits(scope, atom) == bits,
    }
}

fn is_divisor(atom: &Atom) -> bool
    ensures { result ≡ is_divisor_lem atom.now }
{
    match atom {
        Atom::Literal { value: n, .. } => *n != 0,
        Atom::Net(_) | Atom::Part { .. } => false,
    }
}

fn both(scope: &Scope, bits: u64, a: &Atom, b: &Atom) -> bool
    ensures { result ≡ (has_bits_lem scope.now bits a.now && has_bits_lem scope.now bits b.now) }
{
    has_bits(scope, bits, a) && has_bits(scope, bits, b)
}

fn compares(scope: &Scope, bits: u64, a: &Atom, b: &Atom) -> bool
    ensures { result ≡ ((bits == 1) && fits_atom scope.now a.now && has_bits_lem scope.now (bits_of_atom scope.now a.now) b.now) }
{
    bits == 1 && atom_fits(scope, a) && has_bits(scope, atom_bits(scope, a), b)
}

fn op_fits(scope: &Scope, bits: u64, op: BinaryOp, a: &Atom, b: &Atom) -> bool
    ensures { result ≡ fits_op scope.now bits op a.now b.now }
{
    match op {
        BinaryOp::Plus
        | BinaryOp::Minus
        | BinaryOp::Times
        | BinaryOp::And
        | BinaryOp::Or
        | BinaryOp::Xor => both(scope, bits, a, b),
        BinaryOp::Divide | BinaryOp::Remainder => both(scope, bits, a, b) && is_divisor(b),
        BinaryOp::ShiftLeft | BinaryOp::ShiftRight => has_bits(scope, bits, a)
            && atom_fits(scope, b),
        BinaryOp::Equals | BinaryOp::Differs | BinaryOp::Less => compares(scope, bits, a, b),
    }
}

fn all_fit(scope: &Scope, atoms: &[Atom]) -> bool
    ensures { result ≡ list_all (fits_atom scope.now) atoms.now }
{
    atoms.iter().all(|a| atom_fits(scope, a))
}

// Whether the atoms together have this number of bits.
fn have_bits(scope: &Scope, bits: u64, atoms: &[Atom]) -> bool
    ensures { result ≡ (sum (map (bits_of_atom scope.now) atoms.now) == bits) }
{
    let mut left = bits;
    for a in atoms {
        let own = atom_bits(scope, a);
        if own > left {
            return false;
        }
        left -= own;
    }
    left == 0
}

fn copies_fit(scope: &Scope, bits: u64, n: u32, atom: &Atom) -> bool
    ensures { result ≡ (fits_atom scope.now atom.now && (n * bits_of_atom scope.now atom.now == bits)) }
{
    atom_fits(scope, atom) && n as u128 * atom_bits(scope, atom) as u128 == bits as u128
}

fn value_fits(scope: &Scope, bits: u64, value: &Value) -> bool
    ensures { result ≡ fits_value scope.now bits value.now }
{
    match value {
        Value::Plain(a) | Value::Invert(a) => has_bits(scope, bits, a),
        Value::Binary {
            left: a,
            op,
            right: b,
        } => op_fits(scope, bits, *op, a, b),
        Value::Choose {
            condition: c,
            yes: a,
            no: b,
        } => has_bits(scope, 1, c) && both(scope, bits, a, b),
        Value::Concat(atoms) => all_fit(scope, atoms.atoms())
            && have_bits(scope, bits, atoms.atoms()),
        Value::Repeat { count: n, atom: a } => copies_fit(scope, bits, *n, a),
        Value::Cell {
            memory: m,
            index: x,
        } => { memory_fits(scope, m) && net_fits(scope, x) && scope.find(m).1 as u64 == bits }
    }
}

fn assign_fits(scope: &Scope, x: &Text, e: &Value) -> bool
    ensures { result ≡ (fits_net scope.now x.now && fits_value scope.now (bits_of scope.now x.now) e.now) }
{
    let bits = scope.find(x).1;
    is_width(bits) && value_fits(scope, bits as u64, e)
}

fn register_fits(scope: &Scope, x: &Text, a: &Atom) -> bool
    ensures { result ≡ (fits_net scope.now x.now && has_bits_lem scope.now (bits_of scope.now x.now) a.now) }
{
    let bits = scope.find(x).1;
    is_width(bits) && has_bits(scope, bits as u64, a)
}

fn store_fits(scope: &Scope, m: &Text, x: &Text, a: &Atom) -> bool
    ensures { result ≡ (fits_memory scope.now m.now && fits_net scope.now x.now && has_bits_lem scope.now (bits_of scope.now m.now) a.now) }
{
    memory_fits(scope, m) && net_fits(scope, x) && has_bits(scope, scope.find(m).1 as u64, a)
}

fn step<'a>(scope: &Scope, step: &'a Step) -> Option<&'a Text>
    ensures { option_copied result ≡ first_violation (step_widths scope.now step.now) }
{
    match step {
        Step::If(c) => named_if(c, scope.find(c).1 != 1),
        Step::Else | Step::End => None,
        Step::NonblockingAssign {
            register: x,
            value: a,
        } => named_if(x, !register_fits(scope, x, a)),
        Step::MemoryAssign {
            memory: m,
            index: x,
            value: a,
        } => named_if(m, !store_fits(scope, m, x, a)),
    }
}

fn steps<'a>(scope: &Scope, steps: &'a [Step]) -> Option<&'a Text>
    ensures { option_copied result ≡ first_violation (flat_map (step_widths scope.now) steps.now) }
{
    for s in steps {
        if let Some(x) = step(scope, s) {
            return Some(x);
        }
    }
    None
}

#[tactic(auto, unfolding(vlog_tree::specs::V3::connection_widths))]
fn connection<'a>(ports: &Scope, scope: &Scope, connection: &'a Connection) -> Option<&'a Text>
    ensures { option_copied result ≡ first_violation (connection_widths ports.now scope.now connection.now) }
{
    let bits = scope.find(&connection.net).1;
    let same = ports.find(&connection.port).1 == bits;
    named_if(&connection.port, !(is_width(bits) && same))
}

fn connections<'a>(ports: &Scope, scope: &Scope, connections: &'a [Connection]) -> Option<&'a Text>
    ensures { option_copied result ≡ first_violation (flat_map (connection_widths ports.now scope.now) connections.now) }
{
    for l in connections {
        if let Some(x) = connection(ports, scope, l) {
            return Some(x);
        }
    }
    None
}

#[tactic(auto, unfolding(vlog_tree::specs::V3::port_widths))]
fn port<'a>(port: &'a PortDecl) -> Option<&'a Text>
    ensures { option_copied result ≡ first_violation (port_widths port.now) }
{
    named_if(&port.name, !is_width(port.width))
}

fn ports<'a>(ports: &'a [PortDecl]) -> Option<&'a Text>
    ensures { option_copied result ≡ first_violation (flat_map port_widths ports.now) }
{
    for p in ports {
        if let Some(x) = port(p) {
            return Some(x);
        }
    }
    None
}

#[tactic(auto, unfolding(vlog_tree::specs::V3::item_widths))]
fn item<'a>(library: &Library, scope: &Scope, item: &'a Item) -> Option<&'a Text>
    ensures { option_copied result ≡ first_violation (item_widths library.now scope.now item.now) }
{
    match item {
        Item::Wire {
            width: bits,
            name: x,
        } => named_if(x, !is_width(*bits)),
        Item::Reg {
            width: bits,
            name: x,
        } => named_if(x, !is_width(*bits)),
        Item::Memory {
            width: bits,
            name: x,
            cells,
        } => named_if(x, !(is_width(*bits) && is_cell_count(*cells))),
        Item::Assign { net: x, value: e } => named_if(x, !assign_fits(scope, x, e)),
        Item::Always(b) => steps(scope, b.steps()),
        Item::Instance {
            module: m,
            connections: joins,
            ..
        } => connections(library.ports_named(m), scope, joins.connections()),
    }
}

fn items<'a>(library: &Library, scope: &Scope, items: &'a [Item]) -> Option<&'a Text>
    ensures { option_copied result ≡ first_violation (flat_map (item_widths library.now scope.now) items.now) }
{
    for i in items {
        if let Some(x) = item(library, scope, i) {
            return Some(x);
        }
    }
    None
}

#[tactic(auto, using(vlog_tree::proofs::Walks::passes, vlog_tree::proofs::Walks::tells), unfolding(vlog_tree::specs::V3::module_widths))]
fn module_names<'a>(library: &Library, scope: &Scope, m: &'a Module) -> Option<&'a Text>
    requires { scope.now ≡ declared m.now }
    ensures { option_copied result ≡ first_violation (module_widths library.now m.now) }
{
    if let Some(x) = ports(m.ports()) {
        return Some(x);
    }
    items(library, scope, m.items())
}

/// The first name in the text at which a width or a value doesn't fit.
pub fn first_misfit(library: &Library) -> Option<&Text>
    ensures { option_copied result ≡ first_violation (v3_uses library.now) }
{
    let modules = library.modules();
    let scopes = library.scopes();
    for at in 0..modules.len() {
        if let Some(x) = module_names(library, &scopes[at], &modules[at]) {
            return Some(x);
        }
    }
    None
}
