// The wires of an expression.

ghost use Rattle.std.specs.Prelude.{◌≡◌, ◌+◌, ◌++◌, ℕ, List, IfOk};
ghost use Rattle.tapa_base.specs.Kinds.{bits_of};
ghost use Rattle.vlog_tree.specs.Form.{ModuleTree};
ghost use Rattle.vlog_tree.specs.declared.tree.Value.TheVariants.{Binary, Invert};
ghost use Rattle.hw_build.specs.Elements.{Element, with_all};
ghost use Rattle.task_fsm.specs.Machine.{expression_of};
ghost use Rattle.hw_lines.specs.Drivers.{one as one_lem, operation as operation_lem, wires_of};
ghost use Rattle.hw_lines.specs.Wires.{Compiled, after_operands, choosing, compiled, converting, joining, one_more};
ghost use Rattle.hw_expressions.specs.Grown.{Grows};

use crate::fixed::fixed;
use crate::reads::read_count;
use hw_build::{Draft, numbered};
use hw_lines::Net;
use hw_nets::{binary, choose, copy, literal, net};
use hw_operators::{Driver, Numbered, Operator, conversion, last, one, operation};
use std::alloc::{AllocError, Global};
use tapa_base::{Kind, narrow, plus};
use task_fsm::Expr;
use vlog_tree::{Atom, BinaryOp, Value};

/// The atom with the value of an expression, and how many wires it has.
#[derive(Drop)]
pub struct Wired {
    pub atom: Atom,
    pub count: u32,
}

/// Adds wires with these drivers.
pub fn add_wires(
    alloc: Global,
    draft: &mut Draft,
    at: &Numbered,
    mut drivers: Vec<Driver>,
) -> Result<(), AllocError>
    ensures { IfOk result (λ u. draft.new ≡ with_all draft.old (wires_of at.now.front.now at.now.first drivers.items)) }
{
    let mut n = at.first;
    while !drivers.is_empty() {
        let (width, value) = drivers.remove(0);
        let name = numbered(alloc, at.front.bytes(), n)?;
        draft.wire(alloc, width, name.bytes(), value)?;
        n = plus(n, 1)?;
    }
    Ok(())
}

// Adds an operator's wires; its operands made `count` before it.
fn with_drivers(
    alloc: Global,
    draft: &mut Draft,
    at: &Numbered,
    drivers: Vec<Driver>,
    before: &Atom,
    count: u32,
) -> Result<Wired, AllocError>
    ensures { IfOk result (λ r. (old : ModuleTree) (elements : List Element) (k : ℕ) → draft.old ≡ with_all old elements → at.now.first ≡ k + count
        → Grows old draft.new r (after_operands at.now.front.now k elements count drivers.items before.now)) }
{
    let atom = last(alloc, at, &drivers, before)?;
    let count = plus(count, narrow(drivers.len())?)?;
    add_wires(alloc, draft, at, drivers)?;
    Ok(Wired { atom, count })
}

fn inverted(
    alloc: Global,
    draft: &mut Draft,
    at: &Numbered,
    kind: Kind,
    operand: Wired,
) -> Result<Wired, AllocError>
    ensures { IfOk result (λ r. (old : ModuleTree) (C : Compiled) → Grows old draft.old operand C → Grows old draft.new r (one_more at.now.front.now at.now.first C (λ a. one_lem (bits_of kind) (Invert a)))) }
{
    let next = at.after(operand.count)?;
    let inverse = Value::Invert(copy(alloc, &operand.atom)?);
    let drivers = one(alloc, kind.bits(), inverse)?;
    with_drivers(alloc, draft, &next, drivers, &operand.atom, operand.count)
}

fn converted(
    alloc: Global,
    draft: &mut Draft,
    at: &Numbered,
    source: Kind,
    target: Kind,
    operand: Wired,
) -> Result<Wired, AllocError>
    ensures { IfOk result (λ r. (old : ModuleTree) (C : Compiled) → Grows old draft.old operand C → Grows old draft.new r (converting at.now.front.now at.now.first source target C)) }
{
    let next = at.after(operand.count)?;
    let drivers = conversion(alloc, &next, source, target, &operand.atom)?;
    with_drivers(alloc, draft, &next, drivers, &operand.atom, operand.count)
}

// An operator in a kind of its own, for a kind that is asked for.
fn applied(
    alloc: Global,
    draft: &mut Draft,
    at: &Numbered,
    operator: Operator,
    left: Wired,
    right: Wired,
) -> Result<Wired, AllocError>
    ensures { IfOk result (λ r. (old second : ModuleTree) (C D : Compiled) → Grows old second left C → Grows second draft.old right D
        → Grows old draft.new r (joining at.now.front.now at.now.first C D (λ i a b. operation_lem at.now.front.now i operator.op operator.kind operator.asked a b))) }
{
    let count = plus(left.count, right.count)?;
    let next = at.after(count)?;
    let drivers = operation(alloc, &next, operator, &left.atom, &right.atom)?;
    with_drivers(alloc, draft, &next, drivers, &left.atom, count)
}

// An operator on two bits.
fn joined(
    alloc: Global,
    draft: &mut Draft,
    at: &Numbered,
    op: BinaryOp,
    left: Wired,
    right: Wired,
) -> Result<Wired, AllocError>
    ensures { IfOk result (λ r. (old second : ModuleTree) (C D : Compiled) → Grows old second left C → Grows second draft.old right D
        → Grows old draft.new r (joining at.now.front.now at.now.first C D (λ i a b. one_lem 1 (Binary a op b)))) }
{
    let count = plus(left.count, right.count)?;
    let next = at.after(count)?;
    let value = binary(copy(alloc, &left.atom)?, op, right.atom);
    let drivers = one(alloc, 1, value)?;
    with_drivers(alloc, draft, &next, drivers, &left.atom, count)
}

fn chosen(
    alloc: Global,
    draft: &mut Draft,
    at: &Numbered,
    kind: Kind,
    test: Wired,
    yes: Wired,
    no: Wired,
) -> Result<Wired, AllocError>
    ensures { IfOk result (λ r. (old second third : ModuleTree) (C D E : Compiled) → Grows old second test C → Grows second third yes D → Grows third draft.old no E
        → Grows old draft.new r (choosing at.now.front.now at.now.first kind C D E)) }
{
    let branches = plus(yes.count, no.count)?;
    let count = plus(test.count, branches)?;
    let next = at.after(count)?;
    let value = choose(copy(alloc, &test.atom)?, yes.atom, no.atom);
    let drivers = one(alloc, kind.bits(), value)?;
    with_drivers(alloc, draft, &next, drivers, &test.atom, count)
}

// What makes no wire.
fn as_is(atom: Atom) -> Wired
    ensures { result ≡ record { atom = atom; count = 0 } }
{
    Wired { atom, count: 0 }
}

/// Adds the wires of an expression of a kind, whose first read of an array has number m.
pub fn compile(
    alloc: Global,
    draft: &mut Draft,
    at: &Numbered,
    m: u32,
    kind: Kind,
    e: &Expr,
) -> Result<Wired, AllocError>
    ensures { IfOk result (λ r. Grows draft.old draft.new r (compiled at.now.front.now m at.now.first kind (expression_of e.now))) }
{
    if let Some(value) = fixed(e) {
        return Ok(as_is(literal(kind.bits(), u128::from(value))));
    }
    match e {
        Expr::Lit(_, n) => Ok(as_is(literal(kind.bits(), u128::from(*n)))),
        Expr::Var(x) => Ok(as_is(net(alloc, Net::Variable(*x))?)),
        Expr::Cell(a, i) => {
            let number = plus(m, read_count(i)?)?;
            Ok(as_is(net(alloc, Net::Answer(number, *a))?))
        }
        Expr::Conv { from, to, value } => {
            let operand = compile(alloc, draft, at, m, *from, value)?;
            converted(alloc, draft, at, *from, *to, operand)
        }
        Expr::Apply {
            op,
            kind: own,
            left,
            right,
        } => {
            let after = plus(m, read_count(left)?)?;
            let count = op.right_kind(*own);
            let a = compile(alloc, draft, at, m, *own, left)?;
            let second = at.after(a.count)?;
            let b = compile(alloc, draft, &second, after, count, right)?;
            let operator = Operator {
                op: *op,
                kind: *own,
                asked: kind,
            };
            applied(alloc, draft, at, operator, a, b)
        }
        Expr::Flip(own, e) => {
            let operand = compile(alloc, draft, at, m, *own, e)?;
            inverted(alloc, draft, at, *own, operand)
        }
        Expr::Not(e) => {
            let operand = compile(alloc, draft, at, m, Kind::Bool, e)?;
            inverted(alloc, draft, at, Kind::Bool, operand)
        }
        Expr::And(l, r) => {
            let after = plus(m, read_count(l)?)?;
            let a = compile(alloc, draft, at, m, Kind::Bool, l)?;
            let second = at.after(a.count)?;
            let b = compile(alloc, draft, &second, after, Kind::Bool, r)?;
            joined(alloc, draft, at, BinaryOp::And, a, b)
        }
        Expr::Or(l, r) => {
            let after = plus(m, read_count(l)?)?;
            let a = compile(alloc, draft, at, m, Kind::Bool, l)?;
            let second = at.after(a.count)?;
            let b = compile(alloc, draft, &second, after, Kind::Bool, r)?;
            joined(alloc, draft, at, BinaryOp::Or, a, b)
        }
        Expr::Choose(test, yes, no) => {
            let after = plus(m, read_count(test)?)?;
            let later = plus(after, read_count(yes)?)?;
            let c = compile(alloc, draft, at, m, Kind::Bool, test)?;
            let second = at.after(c.count)?;
            let a = compile(alloc, draft, &second, after, kind, yes)?;
            let third = second.after(a.count)?;
            let b = compile(alloc, draft, &third, later, kind, no)?;
            chosen(alloc, draft, at, kind, c, a, b)
        }
    }
}
