// The machine of a leaf task.

use tapa_base::{Kind, Op, Text};
use tapa_syntax::Array;

/// An expression over the registers and arrays of a machine. It has no operation on a stream or a memory: each of these is a
/// state of its own, and its value is in a register.
#[derive(Drop)]
pub enum Expr {
    Lit(Kind, u64),
    Var(u32),
    Cell(u32, Box<Expr>),
    Conv {
        from: Kind,
        to: Kind,
        value: Box<Expr>,
    },
    Apply {
        op: Op,
        kind: Kind,
        left: Box<Expr>,
        right: Box<Expr>,
    },
    Flip(Kind, Box<Expr>),
    Not(Box<Expr>),
    And(Box<Expr>, Box<Expr>),
    Or(Box<Expr>, Box<Expr>),
    Choose(Box<Expr>, Box<Expr>, Box<Expr>),
}

/// A state, which is one place at which the task makes ticks.
#[derive(Drop)]
pub enum State {
    Set {
        reg: u32,
        value: Expr,
        next: u32,
    },
    Cell {
        array: u32,
        index: Expr,
        value: Expr,
        next: u32,
    },
    Test {
        test: Expr,
        yes: u32,
        no: u32,
    },
    Read {
        stream: u32,
        into: Option<u32>,
        next: u32,
    },
    Write {
        stream: u32,
        value: Expr,
        next: u32,
    },
    Peek {
        stream: u32,
        into: Option<u32>,
        next: u32,
    },
    Eot {
        stream: u32,
        into: Option<u32>,
        next: u32,
    },
    Open {
        stream: u32,
        next: u32,
    },
    Close {
        stream: u32,
        next: u32,
    },
    Load {
        memory: u32,
        index: Expr,
        into: Option<u32>,
        next: u32,
    },
    Store {
        memory: u32,
        index: Expr,
        value: Expr,
        next: u32,
    },
    Clear {
        array: u32,
        count: u32,
        next: u32,
    },
    End,
    Trap,
}

/// A machine. Its first state is number 0, and a bad token leads to its last.
#[derive(Drop)]
pub struct Fsm {
    pub name: Text,
    pub scalars: Vec<u32>,
    pub regs: Vec<Kind>,
    pub arrays: Vec<Array>,
    pub states: Vec<State>,
}
