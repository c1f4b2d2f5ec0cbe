// The words of a tree, one after another.

ghost use Rattle.std.specs.Prelude.{◌≡◌, ◌-◌, fold, map, OnOk, ◌∷◌, []};
ghost use Rattle.std.specs.List.{flat_map};
ghost use Rattle.std.specs.Fmt.{decimal};
ghost use Rattle.vlog_tree.specs.Spelling.{lay_word, range_words, port_words, atom_words, op_word, more_words, with_commas, value_words, step_words, connection_words, item_words, module_words};

use crate::page::Page;
use std::alloc::{AllocError, Global};
use tapa_base::Text;
use vlog_tree::{Atom, BinaryOp, Connection, Item, Module, PortDecl, Step, Value};

fn number(page: &mut Page, alloc: Global, n: u32) -> Result<(), AllocError>
    ensures { OnOk result (page.new ≡ lay_word page.old (decimal n)) }
{
    let digits = n.to_string(alloc)?;
    page.word(digits.as_bytes())
}

fn literal(page: &mut Page, alloc: Global, bits: u32, n: u128) -> Result<(), AllocError>
    ensures { OnOk result (page.new ≡ fold lay_word page.old (atom_words (Atom.Literal bits n))) }
{
    let mut text = Vec::new(alloc);
    let digits = bits.to_string(alloc)?;
    text.extend_from_slice(digits.as_bytes())?;
    text.extend_from_slice(b"'d")?;
    let digits = n.to_string(alloc)?;
    text.extend_from_slice(digits.as_bytes())?;
    page.word(&text)
}

fn atom(page: &mut Page, alloc: Global, atom: &Atom) -> Result<(), AllocError>
    ensures { OnOk result (page.new ≡ fold lay_word page.old (atom_words atom.now)) }
{
    match atom {
        Atom::Net(x) => page.word(x.bytes()),
        Atom::Part { net: x, high, low } => {
            page.word(x.bytes())?;
            page.word(b"[")?;
            number(page, alloc, *high)?;
            page.word(b":")?;
            number(page, alloc, *low)?;
            page.word(b"]")
        }
        Atom::Literal {
            width: bits,
            value: n,
        } => literal(page, alloc, *bits, *n),
    }
}

fn range(page: &mut Page, alloc: Global, bits: u32) -> Result<(), AllocError>
    ensures { OnOk result (page.new ≡ fold lay_word page.old (range_words bits)) }
{
    if bits == 1 {
        return Ok(());
    }
    page.word(b"[")?;
    number(page, alloc, bits.saturating_sub(1))?;
    page.word(b":")?;
    page.word(b"0")?;
    page.word(b"]")
}

fn operator(op: BinaryOp) -> &'static [u8]
    ensures { result.now ≡ op_word op }
{
    match op {
        BinaryOp::Plus => b"+",
        BinaryOp::Minus => b"-",
        BinaryOp::Times => b"*",
        BinaryOp::Divide => b"/",
        BinaryOp::Remainder => b"%",
        BinaryOp::And => b"&",
        BinaryOp::Or => b"|",
        BinaryOp::Xor => b"^",
        BinaryOp::ShiftLeft => b"<<",
        BinaryOp::ShiftRight => b">>",
        BinaryOp::Equals => b"==",
        BinaryOp::Differs => b"!=",
        BinaryOp::Less => b"<",
    }
}

fn more_atoms(page: &mut Page, alloc: Global, atoms: &[Atom]) -> Result<(), AllocError>
    ensures { OnOk result (page.new ≡ fold lay_word page.old (more_words (map atom_words atoms.now))) }
{
    for a in atoms {
        page.word(b",")?;
        atom(page, alloc, a)?;
    }
    Ok(())
}

fn all_atoms(page: &mut Page, alloc: Global, atoms: &[Atom]) -> Result<(), AllocError>
    ensures { OnOk result (page.new ≡ fold lay_word page.old (with_commas (map atom_words atoms.now))) }
{
    match atoms {
        [] => Ok(()),
        [first, rest @ ..] => {
            atom(page, alloc, first)?;
            more_atoms(page, alloc, rest)
        }
    }
}

fn binary(
    page: &mut Page,
    alloc: Global,
    a: &Atom,
    op: BinaryOp,
    b: &Atom,
) -> Result<(), AllocError>
    ensures { OnOk result (page.new ≡ fold lay_word page.old (value_words (Value.Binary a.now op b.now))) }
{
    atom(page, alloc, a)?;
    page.word(operator(op))?;
    atom(page, alloc, b)
}

fn choice(page: &mut Page, alloc: Global, c: &Atom, a: &Atom, b: &Atom) -> Result<(), AllocError>
    ensures { OnOk result (page.new ≡ fold lay_word page.old (value_words (Value.Choose c.now a.now b.now))) }
{
    atom(page, alloc, c)?;
    page.word(b"?")?;
    atom(page, alloc, a)?;
    page.word(b":")?;
    atom(page, alloc, b)
}

fn concat(page: &mut Page, alloc: Global, atoms: &[Atom]) -> Result<(), AllocError>
    ensures { OnOk result (page.new ≡ fold lay_word page.old (value_words (Value.Concat atoms.now))) }
{
    page.word(b"{")?;
    all_atoms(page, alloc, atoms)?;
    page.word(b"}")
}

fn copies(page: &mut Page, alloc: Global, n: u32, a: &Atom) -> Result<(), AllocError>
    ensures { OnOk result (page.new ≡ fold lay_word page.old (value_words (Value.Repeat n a.now))) }
{
    page.word(b"{")?;
    number(page, alloc, n)?;
    page.word(b"{")?;
    atom(page, alloc, a)?;
    page.word(b"}")?;
    page.word(b"}")
}

fn value(page: &mut Page, alloc: Global, value: &Value) -> Result<(), AllocError>
    ensures { OnOk result (page.new ≡ fold lay_word page.old (value_words value.now)) }
{
    match value {
        Value::Plain(a) => atom(page, alloc, a),
        Value::Invert(a) => {
            page.word(b"~")?;
            atom(page, alloc, a)
        }
        Value::Binary {
            left: a,
            op,
            right: b,
        } => binary(page, alloc, a, *op, b),
        Value::Choose {
            condition: c,
            yes: a,
            no: b,
        } => choice(page, alloc, c, a, b),
        Value::Concat(atoms) => concat(page, alloc, atoms.atoms()),
        Value::Repeat { count: n, atom: a } => copies(page, alloc, *n, a),
        Value::Cell {
            memory: m,
            index: x,
        } => {
            page.word(m.bytes())?;
            page.word(b"[")?;
            page.word(x.bytes())?;
            page.word(b"]")
        }
    }
}

fn put(page: &mut Page, alloc: Global, x: &Text, a: &Atom) -> Result<(), AllocError>
    ensures { OnOk result (page.new ≡ fold lay_word page.old (step_words (Step.NonblockingAssign x.now a.now))) }
{
    page.word(x.bytes())?;
    page.word(b"<=")?;
    atom(page, alloc, a)?;
    page.word(b";")
}

fn store(page: &mut Page, alloc: Global, m: &Text, x: &Text, a: &Atom) -> Result<(), AllocError>
    ensures { OnOk result (page.new ≡ fold lay_word page.old (step_words (Step.MemoryAssign m.now x.now a.now))) }
{
    page.word(m.bytes())?;
    page.word(b"[")?;
    page.word(x.bytes())?;
    page.word(b"]")?;
    page.word(b"<=")?;
    atom(page, alloc, a)?;
    page.word(b";")
}

fn condition(page: &mut Page, c: &Text) -> Result<(), AllocError>
    ensures { OnOk result (page.new ≡ fold lay_word page.old (step_words (Step.If c.now))) }
{
    page.word(b"if")?;
    page.word(b"(")?;
    page.word(c.bytes())?;
    page.word(b")")?;
    page.word(b"begin")
}

fn step(page: &mut Page, alloc: Global, step: &Step) -> Result<(), AllocError>
    ensures { OnOk result (page.new ≡ fold lay_word page.old (step_words step.now)) }
{
    match step {
        Step::If(c) => condition(page, c),
        Step::Else => {
            page.word(b"end")?;
            page.word(b"else")?;
            page.word(b"begin")
        }
        Step::End => page.word(b"end"),
        Step::NonblockingAssign {
            register: x,
            value: a,
        } => put(page, alloc, x, a),
        Step::MemoryAssign {
            memory: m,
            index: x,
            value: a,
        } => store(page, alloc, m, x, a),
    }
}

fn steps(page: &mut Page, alloc: Global, steps: &[Step]) -> Result<(), AllocError>
    ensures { OnOk result (page.new ≡ fold lay_word page.old (flat_map step_words steps.now)) }
{
    for s in steps {
        step(page, alloc, s)?;
    }
    Ok(())
}

fn connection(page: &mut Page, connection: &Connection) -> Result<(), AllocError>
    ensures { OnOk result (page.new ≡ fold lay_word page.old (connection_words connection.now)) }
{
    page.word(b".")?;
    page.word(connection.port.bytes())?;
    page.word(b"(")?;
    page.word(connection.net.bytes())?;
    page.word(b")")
}

fn more_connections(page: &mut Page, connections: &[Connection]) -> Result<(), AllocError>
    ensures { OnOk result (page.new ≡ fold lay_word page.old (more_words (map connection_words connections.now))) }
{
    for l in connections {
        page.word(b",")?;
        connection(page, l)?;
    }
    Ok(())
}

fn all_connections(page: &mut Page, connections: &[Connection]) -> Result<(), AllocError>
    ensures { OnOk result (page.new ≡ fold lay_word page.old (with_commas (map connection_words connections.now))) }
{
    match connections {
        [] => Ok(()),
        [first, rest @ ..] => {
            connection(page, first)?;
            more_connections(page, rest)
        }
    }
}

fn port(page: &mut Page, alloc: Global, port: &PortDecl) -> Result<(), AllocError>
    ensures { OnOk result (page.new ≡ fold lay_word page.old (port_words port.now)) }
{
    if port.is_input() {
        page.word(b"input")?;
    } else {
        page.word(b"output")?;
    }
    range(page, alloc, port.width)?;
    page.word(port.name.bytes())
}

fn more_ports(page: &mut Page, alloc: Global, ports: &[PortDecl]) -> Result<(), AllocError>
    ensures { OnOk result (page.new ≡ fold lay_word page.old (more_words (map port_words ports.now))) }
{
    for p in ports {
        page.word(b",")?;
        port(page, alloc, p)?;
    }
    Ok(())
}

fn all_ports(page: &mut Page, alloc: Global, ports: &[PortDecl]) -> Result<(), AllocError>
    ensures { OnOk result (page.new ≡ fold lay_word page.old (with_commas (map port_words ports.now))) }
{
    match ports {
        [] => Ok(()),
        [first, rest @ ..] => {
            port(page, alloc, first)?;
            more_ports(page, alloc, rest)
        }
    }
}

fn wire(page: &mut Page, alloc: Global, bits: u32, x: &Text) -> Result<(), AllocError>
    ensures { OnOk result (page.new ≡ fold lay_word page.old (item_words (Item.Wire bits x.now))) }
{
    page.word(b"wire")?;
    range(page, alloc, bits)?;
    page.word(x.bytes())?;
    page.word(b";")
}

fn register(page: &mut Page, alloc: Global, bits: u32, x: &Text) -> Result<(), AllocError>
    ensures { OnOk result (page.new ≡ fold lay_word page.old (item_words (Item.Reg bits x.now))) }
{
    page.word(b"reg")?;
    range(page, alloc, bits)?;
    page.word(x.bytes())?;
    page.word(b";")
}

fn memory(page: &mut Page, alloc: Global, bits: u32, x: &Text, cells: u32) -> Result<(), AllocError>
    ensures { OnOk result (page.new ≡ fold lay_word page.old (item_words (Item.Memory bits x.now cells))) }
{
    page.word(b"reg")?;
    range(page, alloc, bits)?;
    page.word(x.bytes())?;
    page.word(b"[")?;
    page.word(b"0")?;
    page.word(b":")?;
    number(page, alloc, cells.saturating_sub(1))?;
    page.word(b"]")?;
    page.word(b";")
}

fn assign(page: &mut Page, alloc: Global, x: &Text, e: &Value) -> Result<(), AllocError>
    ensures { OnOk result (page.new ≡ fold lay_word page.old (item_words (Item.Assign x.now e.now))) }
{
    page.word(b"assign")?;
    page.word(x.bytes())?;
    page.word(b"=")?;
    value(page, alloc, e)?;
    page.word(b";")
}

fn always(page: &mut Page, alloc: Global, block: &[Step]) -> Result<(), AllocError>
    ensures { OnOk result (page.new ≡ fold lay_word page.old (item_words (Item.Always block.now))) }
{
    page.word(b"always")?;
    page.word(b"@")?;
    page.word(b"(")?;
    page.word(b"posedge")?;
    page.word(b"clk")?;
    page.word(b")")?;
    page.word(b"begin")?;
    steps(page, alloc, block)?;
    page.word(b"end")
}

fn instance(
    page: &mut Page,
    m: &Text,
    i: &Text,
    connections: &[Connection],
) -> Result<(), AllocError>
    ensures { OnOk result (page.new ≡ fold lay_word page.old (item_words (Item.Instance m.now i.now connections.now))) }
{
    page.word(m.bytes())?;
    page.word(i.bytes())?;
    page.word(b"(")?;
    all_connections(page, connections)?;
    page.word(b")")?;
    page.word(b";")
}

fn item(page: &mut Page, alloc: Global, item: &Item) -> Result<(), AllocError>
    ensures { OnOk result (page.new ≡ fold lay_word page.old (item_words item.now)) }
{
    match item {
        Item::Wire {
            width: bits,
            name: x,
        } => wire(page, alloc, *bits, x),
        Item::Reg {
            width: bits,
            name: x,
        } => register(page, alloc, *bits, x),
        Item::Memory {
            width: bits,
            name: x,
            cells,
        } => memory(page, alloc, *bits, x, *cells),
        Item::Assign { net: x, value: e } => assign(page, alloc, x, e),
        Item::Always(b) => always(page, alloc, b.steps()),
        Item::Instance {
            module: m,
            name: i,
            connections,
        } => instance(page, m, i, connections.connections()),
    }
}

fn items(page: &mut Page, alloc: Global, items: &[Item]) -> Result<(), AllocError>
    ensures { OnOk result (page.new ≡ fold lay_word page.old (flat_map item_words items.now)) }
{
    for i in items {
        item(page, alloc, i)?;
    }
    Ok(())
}

fn module(page: &mut Page, alloc: Global, m: &Module) -> Result<(), AllocError>
    ensures { OnOk result (page.new ≡ fold lay_word page.old (module_words m.now)) }
{
    page.word(b"module")?;
    page.word(m.name().bytes())?;
    page.word(b"(")?;
    all_ports(page, alloc, m.ports())?;
    page.word(b")")?;
    page.word(b";")?;
    items(page, alloc, m.items())?;
    page.word(b"endmodule")
}

/// The words of all modules.
pub(crate) fn modules(page: &mut Page, alloc: Global, modules: &[Module]) -> Result<(), AllocError>
    ensures { OnOk result (page.new ≡ fold lay_word page.old (flat_map module_words modules.now)) }
{
    for m in modules {
        module(page, alloc, m)?;
    }
    Ok(())
}
