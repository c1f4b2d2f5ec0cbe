// Checked tasks: the streams that an upper-level task declares, its invocations, and what their arguments are bound to.
use tapa_base::{Kind, Place, Text};
use tapa_syntax::{Leaf, TaskDeclaration};

/// What an argument of an invocation is, for the parameter that it is bound to.
#[derive(Clone, Copy)]
pub enum Binding {
    /// A stream of the invoking task's own, by its number among them.
    OwnStream(u32),
    /// A stream parameter of the invoking task, by its position.
    StreamParameter(u32),
    /// A memory parameter of the invoking task, by its position.
    MemoryParameter(u32),
    /// A scalar parameter of the invoking task: its position, its kind, and the kind of the parameter that it is bound to.
    ScalarParameter { number: u32, from: Kind, to: Kind },
    /// A constant, as a value of the parameter's kind.
    Constant(u64),
}

/// A stream that an upper-level task declares.
#[derive(Drop)]
pub struct Channel {
    pub name: Text,
    pub place: Place,
    pub kind: Kind,
    pub depth: u32,
}

/// An invocation: where the task is named, whether it is detached, its number among the tasks of the file, and what its
/// parameters are bound to.
#[derive(Drop)]
pub struct Invoked {
    pub place: Place,
    /// `invoke<tapa::detach>`: the task is not waited for.
    pub detached: bool,
    pub task: usize,
    pub bindings: Vec<Binding>,
}

/// A task's body once it is checked: a leaf's code, or what an upper task declares and invokes.
#[derive(Drop)]
pub enum Body {
    Leaf(Leaf),
    Upper {
        channels: Vec<Channel>,
        invocations: Vec<Invoked>,
    },
}

/// A task of a legal file.
#[derive(Drop)]
pub struct Task<'a> {
    pub declared: &'a TaskDeclaration,
    pub body: Body,
}
