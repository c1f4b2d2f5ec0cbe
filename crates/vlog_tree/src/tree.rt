// The parts of a tree. Nothing here holds itself, so no walk and no drop goes deep.

use std::marker::Model;
use tapa_base::Text;

/// A net, a part of one from a high bit to a low one, or a number of a stated width.
#[derive(Drop)]
pub enum Atom {
    Net(Text),
    Part { net: Text, high: u32, low: u32 },
    Literal { width: u32, value: u128 },
}

/// An operator on two atoms.
#[derive(Clone, Copy, PartialEq, Eq, Debug)]
pub enum BinaryOp {
    Plus,
    Minus,
    Times,
    Divide,
    Remainder,
    And,
    Or,
    Xor,
    ShiftLeft,
    ShiftRight,
    Equals,
    Differs,
    Less,
}

/// The parts of a concatenation, the highest first.
#[derive(Drop)]
pub struct Atoms {
    atoms: Vec<Atom>,
}

impl Model for Atoms {
    ghost use Rattle.std.specs.Prelude.{List};
    ghost use Rattle.vlog_tree.specs.declared.tree.Atom.{Atom};

    ghost Value = { List Atom };

    ghost view = { λ a. a.atoms.items };
}

/// What drives a wire: among others a number of copies of an atom, and the cell of a memory whose index is on a net.
#[derive(Drop)]
pub enum Value {
    Plain(Atom),
    Invert(Atom),
    Binary {
        left: Atom,
        op: BinaryOp,
        right: Atom,
    },
    Choose {
        condition: Atom,
        yes: Atom,
        no: Atom,
    },
    Concat(Atoms),
    Repeat {
        count: u32,
        atom: Atom,
    },
    Cell {
        memory: Text,
        index: Text,
    },
}

/// A step of a clocked block. Steps don't hold each other: an `If` opens a part, `Else` closes it and opens the
/// other, and `End` closes the part that is open.
#[derive(Drop)]
pub enum Step {
    If(Text),
    Else,
    End,
    NonblockingAssign {
        register: Text,
        value: Atom,
    },
    MemoryAssign {
        memory: Text,
        index: Text,
        value: Atom,
    },
}

/// The steps between `begin` and `end`, in the order of the text.
#[derive(Drop)]
pub struct Block {
    steps: Vec<Step>,
}

impl Model for Block {
    ghost use Rattle.std.specs.Prelude.{List};
    ghost use Rattle.vlog_tree.specs.declared.tree.Step.{Step};

    ghost Value = { List Step };

    ghost view = { λ b. b.steps.items };
}

/// A port of an instance, and the net that it is connected to.
#[derive(Drop)]
pub struct Connection {
    pub port: Text,
    pub net: Text,
}

/// The connections of an instance.
#[derive(Drop)]
pub struct Connections {
    connections: Vec<Connection>,
}

impl Model for Connections {
    ghost use Rattle.std.specs.Prelude.{List};
    ghost use Rattle.vlog_tree.specs.declared.tree.Connection.{Connection};

    ghost Value = { List Connection };

    ghost view = { λ a. a.connections.items };
}

/// One line of a module. A width is the number of bits, of a memory that of each of its cells.
#[derive(Drop)]
pub enum Item {
    Wire {
        width: u32,
        name: Text,
    },
    Reg {
        width: u32,
        name: Text,
    },
    Memory {
        width: u32,
        name: Text,
        cells: u32,
    },
    Assign {
        net: Text,
        value: Value,
    },
    Always(Block),
    Instance {
        module: Text,
        name: Text,
        connections: Connections,
    },
}

/// Which way a port goes, seen from its module.
#[derive(Clone, Copy, PartialEq, Eq, Debug)]
pub enum Direction {
    Input,
    Output,
}

/// A port and the number of its bits.
#[derive(Drop)]
pub struct PortDecl {
    pub direction: Direction,
    pub width: u32,
    pub name: Text,
}

ghost use Rattle.std.specs.Prelude.{◌≡◌};
ghost use Rattle.vlog_tree.specs.Form.{is_input as is_input_lem};

impl PortDecl {
    /// Whether it is an input.
    pub fn is_input(&self) -> bool
        ensures { result ≡ is_input_lem self.now.direction }
    {
        matches!(self.direction, Direction::Input)
    }
}

impl Atoms {
    /// These atoms.
    pub fn of(atoms: Vec<Atom>) -> Atoms
        ensures { result ≡ atoms.items }
    {
        Atoms { atoms }
    }

    /// The atoms, the first before the next.
    pub fn atoms(&self) -> &[Atom]
        ensures { result.now ≡ self.now }
    {
        &self.atoms
    }
}

impl Block {
    /// A block of these steps.
    pub fn of(steps: Vec<Step>) -> Block
        ensures { result ≡ steps.items }
    {
        Block { steps }
    }

    /// The steps, in the order of the text.
    pub fn steps(&self) -> &[Step]
        ensures { result.now ≡ self.now }
    {
        &self.steps
    }
}

impl Connections {
    /// These connections.
    pub fn of(connections: Vec<Connection>) -> Connections
        ensures { result ≡ connections.items }
    {
        Connections { connections }
    }

    /// The connections, in the order of the text.
    pub fn connections(&self) -> &[Connection]
        ensures { result.now ≡ self.now }
    {
        &self.connections
    }
}
