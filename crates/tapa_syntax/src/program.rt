// The flat program: leaf instances connected by bounded streams, with every conversion written out.
use tapa_base::{Kind, Op, Text};

/// A program without hierarchy. Scalars and memories are numbered in the order of the top task's parameters; leaf
/// instances depth first in the order of the chains; streams in order of declaration, the top task's first, then those
/// of each upper-level instance in the same way.
#[derive(Drop)]
pub struct Program {
    pub top: Text,
    pub scalars: Vec<Scalar>,
    pub memories: Vec<Memory>,
    /// The leaf tasks that some instance has, each once, in the order of the file.
    pub bodies: Vec<Leaf>,
    pub instances: Vec<Instance>,
    pub streams: Vec<Stream>,
}

/// A scalar parameter of the top task.
#[derive(Drop)]
pub struct Scalar {
    pub name: Text,
    pub kind: Kind,
}

/// A memory parameter of the top task, and the instance that it is bound to.
#[derive(Drop)]
pub struct Memory {
    pub name: Text,
    pub kind: Kind,
    pub constant: bool,
    pub owner: u32,
}

/// A bounded stream: the most tokens that it holds, and the instances that write and read it.
#[derive(Drop)]
pub struct Stream {
    pub label: Text,
    pub kind: Kind,
    pub depth: u32,
    pub producer: u32,
    pub consumer: u32,
}

/// A leaf instance: the number of its leaf among the bodies, what its scalar parameters are bound to, and the numbers of the streams and
/// memories that its parameters of that sort are bound to, in order.
#[derive(Drop)]
pub struct Instance {
    pub label: Text,
    pub body: u32,
    /// Not waited for: some invocation on the way from the top is `tapa::detach`.
    pub detached: bool,
    pub scalars: Vec<Bound>,
    pub streams: Vec<u32>,
    pub memories: Vec<u32>,
}

/// What a scalar parameter of an instance is bound to: a constant of its kind, or a scalar of the top task, converted
/// through these kinds in order.
#[derive(Drop)]
pub enum Bound {
    Number(u64),
    Top { scalar: u32, kinds: Vec<Kind> },
}

/// A leaf task. In its code streams and memories are numbered by their positions among the parameters of that sort.
#[derive(Drop)]
pub struct Leaf {
    pub name: Text,
    /// The variables that hold the scalar parameters, in order.
    pub scalars: Vec<u32>,
    pub streams: Vec<End>,
    pub memories: Vec<Kind>,
    pub vars: Vec<Kind>,
    pub arrays: Vec<Array>,
    pub code: Vec<Stmt>,
}

/// A stream parameter of a leaf: the kind of its data, and whether the leaf writes it.
#[derive(Clone, Copy, PartialEq, Eq, Debug)]
pub struct End {
    pub kind: Kind,
    pub writes: bool,
}

/// An array of a leaf.
#[derive(Clone, Copy, PartialEq, Eq, Debug)]
pub struct Array {
    pub kind: Kind,
    pub cells: u32,
}

/// A statement. Each conversion is explicit, except those that follow from the kinds of its parts: the token of a `ReadVar`,
/// `ReadCell` or `ReadStore` is converted to the target's kind, and `SetCellBy` and `StoreBy` convert the cell to
/// `kind`, and the result to the cell's kind.
#[derive(Drop)]
pub enum Stmt {
    Set(u32, Expr),
    SetCell {
        array: u32,
        index: Expr,
        value: Expr,
    },
    SetCellBy {
        array: u32,
        index: Expr,
        op: Op,
        kind: Kind,
        value: Expr,
    },
    Store {
        memory: u32,
        index: Expr,
        value: Expr,
    },
    StoreBy {
        memory: u32,
        index: Expr,
        op: Op,
        kind: Kind,
        value: Expr,
    },
    ReadVar {
        stream: u32,
        var: u32,
    },
    ReadCell {
        stream: u32,
        array: u32,
        index: Expr,
    },
    ReadStore {
        stream: u32,
        memory: u32,
        index: Expr,
    },
    Write(u32, Expr),
    Open(u32),
    Close(u32),
    /// An expression whose value is not used, as `s.read();`.
    Discard(Expr),
    /// Every cell of an array becomes 0, one a tick.
    Clear(u32),
    If(Expr, Vec<Stmt>, Vec<Stmt>),
    /// A test before each turn; `continue` goes to the step.
    Loop {
        test: Expr,
        body: Vec<Stmt>,
        step: Vec<Stmt>,
    },
    Break,
    Continue,
}

/// An expression. `Flip` is `~`; `Not`, `And` and `Or` are `!`, `&&` and `||` on 0 and 1; an expression is computed
/// whole, without short circuit.
#[derive(Drop)]
pub enum Expr {
    Lit(Kind, u64),
    Var(u32),
    Cell(u32, Box<Expr>),
    Read(u32),
    Peek(u32),
    Eot(u32),
    Load(u32, Box<Expr>),
    Conv {
        from: Kind,
        to: Kind,
        value: Box<Expr>,
    },
    Apply {
        op: Op,
        kind: Kind,
        left: Box<Expr>,
        right: Box<Expr>,
    },
    Flip(Kind, Box<Expr>),
    Not(Box<Expr>),
    And(Box<Expr>, Box<Expr>),
    Or(Box<Expr>, Box<Expr>),
    Choose(Box<Expr>, Box<Expr>, Box<Expr>),
}
