//! Sums over the text of a leaf.
ghost use Rattle.std.specs.Prelude.{◌≡◌, ◌+◌, ℕ, map, slice_index_or};
ghost use Rattle.tapa_syntax.specs.Typed as typed;
ghost use Rattle.tapa_syntax.specs.Flat.{flat_expression, flat_statement, in_row};
ghost use Rattle.tapa_syntax.specs.LeafKinds.{kinds_of};
ghost use Rattle.tapa_syntax.specs.TickPlaces.{capped};
ghost use Rattle.task_graph.specs.Counted.{rates_of};
ghost use Rattle.task_graph.specs.Estimate as estimate;

use tapa_base::{Kind, Op};
use tapa_syntax::{Expr, Leaf, Stmt};

/// What is summed over a text: look-up tables and DSP slices of its operators, or the bits of its temporaries.
#[derive(Clone, Copy, PartialEq, Eq, Debug)]
pub(crate) enum Counted {
    Luts,
    Dsps,
    TemporaryBits,
}

fn operator_luts(op: Op, kind: Kind) -> u64
    ensures { result ≡ capped (estimate.operator_luts op kind) }
{
    match op {
        Op::Mul => 0,
        Op::Div | Op::Rem => 8 * u64::from(kind.bits()),
        _ => u64::from(kind.bits()),
    }
}

fn product_dsps(kind: Kind) -> u64
    ensures { result ≡ capped (estimate.product_dsps kind) }
{
    match kind {
        Kind::I32 | Kind::U32 => 3,
        Kind::I64 | Kind::U64 => 10,
        _ => 0,
    }
}

fn operator_dsps(op: Op, kind: Kind) -> u64
    ensures { result ≡ capped (estimate.operator_dsps op kind) }
{
    match op {
        Op::Mul => product_dsps(kind),
        _ => 0,
    }
}

#[tactic(auto, unfolding(crate::specs::Counted::rates_of))]
impl Counted {
    fn operator(self, op: Op, kind: Kind) -> u64
        ensures { result ≡ capped ((rates_of self).operator op kind) }
    {
        match self {
            Counted::Luts => operator_luts(op, kind),
            Counted::Dsps => operator_dsps(op, kind),
            Counted::TemporaryBits => 0,
        }
    }

    fn complement(self, kind: Kind) -> u64
        ensures { result ≡ capped ((rates_of self).complement kind) }
    {
        match self {
            Counted::Luts => u64::from(kind.bits()),
            Counted::Dsps => 0,
            Counted::TemporaryBits => 0,
        }
    }

    fn logical(self) -> u64
        ensures { result ≡ capped (rates_of self).logical }
    {
        match self {
            Counted::Luts => 1,
            Counted::Dsps => 0,
            Counted::TemporaryBits => 0,
        }
    }

    fn conditional(self, kind: Kind) -> u64
        ensures { result ≡ capped ((rates_of self).conditional kind) }
    {
        match self {
            Counted::Luts => u64::from(kind.bits()),
            Counted::Dsps => 0,
            Counted::TemporaryBits => 0,
        }
    }

    fn temporary(self, kind: Kind) -> u64
        ensures { result ≡ capped ((rates_of self).temporary kind) }
    {
        match self {
            Counted::Luts => 0,
            Counted::Dsps => 0,
            Counted::TemporaryBits => u64::from(kind.bits()),
        }
    }

    fn end_test(self) -> u64
        ensures { result ≡ capped (rates_of self).end_test }
    {
        match self {
            Counted::Luts => 0,
            Counted::Dsps => 0,
            Counted::TemporaryBits => 1,
        }
    }
}

fn kind_at(kinds: &[Kind], number: u32) -> Kind
    ensures { result ≡ slice_index_or kinds.now number Kind.U64 }
{
    match kinds.get(number as usize) {
        Some(kind) => *kind,
        None => Kind::U64,
    }
}

fn stream_kind(leaf: &Leaf, position: u32) -> Kind
    ensures { result ≡ (kinds_of leaf.now).streams position }
{
    match leaf.streams.get(position as usize) {
        Some(end) => end.kind,
        None => Kind::U64,
    }
}

fn array_kind(leaf: &Leaf, number: u32) -> Kind
    ensures { result ≡ (kinds_of leaf.now).arrays number }
{
    match leaf.arrays.get(number as usize) {
        Some(array) => array.kind,
        None => Kind::U64,
    }
}

fn memory_kind(leaf: &Leaf, position: u32) -> Kind
    ensures { result ≡ (kinds_of leaf.now).memories position }
{
    kind_at(&leaf.memories, position)
}

fn result_kind(op: Op, kind: Kind) -> Kind
    ensures { result ≡ typed.result_kind op kind }
{
    match op {
        Op::Eq | Op::Ne | Op::Lt | Op::Le | Op::Gt | Op::Ge => Kind::Bool,
        _ => kind,
    }
}

/// The kind of an expression of a leaf.
fn kind_of(leaf: &Leaf, value: &Expr) -> Kind
    ensures { result ≡ estimate.kind_in (kinds_of leaf.now) (flat_expression value.now) }
{
    match value {
        Expr::Lit(kind, _) => *kind,
        Expr::Var(number) => kind_at(&leaf.vars, *number),
        Expr::Cell(array, _) => array_kind(leaf, *array),
        Expr::Read(stream) => stream_kind(leaf, *stream),
        Expr::Peek(stream) => stream_kind(leaf, *stream),
        Expr::Eot(_) => Kind::Bool,
        Expr::Load(memory, _) => memory_kind(leaf, *memory),
        Expr::Conv { to, .. } => *to,
        Expr::Apply { op, kind, .. } => result_kind(*op, *kind),
        Expr::Flip(kind, _) => *kind,
        Expr::Not(_) => Kind::Bool,
        Expr::And(_, _) => Kind::Bool,
        Expr::Or(_, _) => Kind::Bool,
        Expr::Choose(_, first, _) => kind_of(leaf, first),
    }
}

/// The sum over an expression, at most the greatest number.
fn in_expression(counted: Counted, leaf: &Leaf, value: &Expr) -> u64
    ensures { result ≡ capped (estimate.in_expression (rates_of counted) (kinds_of leaf.now) (flat_expression value.now)) }
{
    match value {
        Expr::Lit(_, _) => 0,
        Expr::Var(_) => 0,
        Expr::Cell(_, index) => in_expression(counted, leaf, index),
        Expr::Read(stream) => counted.temporary(stream_kind(leaf, *stream)),
        Expr::Peek(stream) => counted.temporary(stream_kind(leaf, *stream)),
        Expr::Eot(_) => counted.end_test(),
        Expr::Load(memory, index) => counted
            .temporary(memory_kind(leaf, *memory))
            .saturating_add(in_expression(counted, leaf, index)),
        Expr::Conv { value, .. } => in_expression(counted, leaf, value),
        Expr::Apply {
            op,
            kind,
            left,
            right,
        } => counted
            .operator(*op, *kind)
            .saturating_add(in_expression(counted, leaf, left))
            .saturating_add(in_expression(counted, leaf, right)),
        Expr::Flip(kind, value) => counted
            .complement(*kind)
            .saturating_add(in_expression(counted, leaf, value)),
        Expr::Not(value) => counted
            .logical()
            .saturating_add(in_expression(counted, leaf, value)),
        Expr::And(left, right) => counted
            .logical()
            .saturating_add(in_expression(counted, leaf, left))
            .saturating_add(in_expression(counted, leaf, right)),
        Expr::Or(left, right) => counted
            .logical()
            .saturating_add(in_expression(counted, leaf, left))
            .saturating_add(in_expression(counted, leaf, right)),
        Expr::Choose(test, first, second) => counted
            .conditional(kind_of(leaf, first))
            .saturating_add(in_expression(counted, leaf, test))
            .saturating_add(in_expression(counted, leaf, first))
            .saturating_add(in_expression(counted, leaf, second)),
    }
}

/// The sum over an expression that is a statement by itself.
fn in_discarded(counted: Counted, leaf: &Leaf, value: &Expr) -> u64
    ensures { result ≡ capped (estimate.in_discarded (rates_of counted) (kinds_of leaf.now) (flat_expression value.now)) }
{
    match value {
        Expr::Read(_) => 0,
        Expr::Peek(_) => 0,
        Expr::Eot(_) => 0,
        Expr::Load(_, index) => in_expression(counted, leaf, index),
        _ => in_expression(counted, leaf, value),
    }
}

/// The sum over two expressions.
fn two(counted: Counted, leaf: &Leaf, first: &Expr, second: &Expr) -> u64
    ensures { result ≡ capped (estimate.in_expression (rates_of counted) (kinds_of leaf.now) (flat_expression first.now) + estimate.in_expression (rates_of counted)
        (kinds_of leaf.now) (flat_expression second.now)) }
{
    in_expression(counted, leaf, first).saturating_add(in_expression(counted, leaf, second))
}

/// The sum over a test, and two parts.
fn with_test(counted: Counted, leaf: &Leaf, test: &Expr, first: u64, second: u64) -> u64
    ensures { (m n : ℕ) → first ≡ capped m → second ≡ capped n → result ≡ capped (estimate.in_expression (rates_of counted) (kinds_of leaf.now) (flat_expression test.now) + m + n) }
{
    in_expression(counted, leaf, test)
        .saturating_add(first)
        .saturating_add(second)
}

/// The temporary of a read, and the sum over an index.
fn after_read(counted: Counted, leaf: &Leaf, stream: u32, index: &Expr) -> u64
    ensures { result ≡ capped ((rates_of counted).temporary ((kinds_of leaf.now).streams stream) + estimate.in_expression (rates_of counted) (kinds_of leaf.now) (flat_expression index.now)) }
{
    counted
        .temporary(stream_kind(leaf, stream))
        .saturating_add(in_expression(counted, leaf, index))
}

/// The sum over a statement, at most the greatest number.
#[cycle(code_sums)]
fn in_statement(counted: Counted, leaf: &Leaf, statement: &Stmt) -> u64
    ensures { result ≡ capped (estimate.in_statement (rates_of counted) (kinds_of leaf.now) (flat_statement statement.now)) }
{
    match statement {
        Stmt::Set(_, value) => in_expression(counted, leaf, value),
        Stmt::SetCell { index, value, .. } => two(counted, leaf, index, value),
        Stmt::SetCellBy {
            index,
            op,
            kind,
            value,
            ..
        } => counted
            .operator(*op, *kind)
            .saturating_add(two(counted, leaf, index, value)),
        Stmt::Store { index, value, .. } => two(counted, leaf, index, value),
        Stmt::StoreBy {
            memory,
            index,
            op,
            kind,
            value,
        } => counted
            .operator(*op, *kind)
            .saturating_add(counted.temporary(memory_kind(leaf, *memory)))
            .saturating_add(two(counted, leaf, index, value)),
        Stmt::ReadVar { stream, .. } => counted.temporary(stream_kind(leaf, *stream)),
        Stmt::ReadCell { stream, index, .. } => after_read(counted, leaf, *stream, index),
        Stmt::ReadStore { stream, index, .. } => after_read(counted, leaf, *stream, index),
        Stmt::Write(_, value) => in_expression(counted, leaf, value),
        Stmt::Open(_) => 0,
        Stmt::Close(_) => 0,
        Stmt::Discard(value) => in_discarded(counted, leaf, value),
        Stmt::Clear(_) => 0,
        Stmt::If(test, left, right) => with_test(
            counted,
            leaf,
            test,
            in_code(counted, leaf, left),
            in_code(counted, leaf, right),
        ),
        Stmt::Loop { test, body, step } => with_test(
            counted,
            leaf,
            test,
            in_code(counted, leaf, body),
            in_code(counted, leaf, step),
        ),
        Stmt::Break => 0,
        Stmt::Continue => 0,
    }
}

/// The sum over statements, at most the greatest number.
#[cycle(code_sums)]
pub(crate) fn in_code(counted: Counted, leaf: &Leaf, code: &[Stmt]) -> u64
    ensures { result ≡ capped (estimate.in_statements (rates_of counted) (kinds_of leaf.now) (in_row (map flat_statement code.now))) }
{
    let mut sum: u64 = 0;
    for statement in code {
        sum = sum.saturating_add(in_statement(counted, leaf, statement));
    }
    sum
}
