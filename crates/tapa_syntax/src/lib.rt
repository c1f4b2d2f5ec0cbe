//! What the front end reads and gives: the lexemes of a text, its tree, and the flat program.
#![tactic(auto)]

mod gap;
mod lexeme;
mod program;
mod shape;
mod terminal;
mod tick_places;
mod tree;

pub use gap::{byte, closing, is_blank};
pub use lexeme::{LexKind, Lexeme};
pub use program::{Array, Bound, End, Expr, Instance, Leaf, Memory, Program, Scalar, Stmt, Stream};
pub use terminal::Terminal;
pub use tick_places::{operations, places_in};
pub use tree::{
    Action, AssignmentOperator, Attribute, AttributeArgument, AttributeArguments, BinaryOperator,
    Count, CountValue, Declaration, Declarator, Expression, File, FileItem, ForHead, ForStart,
    Invocation, InvocationArgument, Name, Parameter, PlaceExpression, PrefixOperator, Statement,
    StepOperator, StreamDeclaration, TaskBody, TaskDeclaration,
};
