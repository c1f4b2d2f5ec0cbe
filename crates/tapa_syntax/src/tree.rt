// The tree of a source: what the grammar of the dialect says of its lexemes, before names are looked up.
use tapa_base::{Kind, Op, Place, Text};

/// A name with its place.
#[derive(Drop)]
pub struct Name {
    pub text: Text,
    pub place: Place,
}

/// A source.
#[derive(Drop)]
pub struct File {
    pub items: Vec<FileItem>,
}

/// What is declared in a file.
#[derive(Drop)]
pub enum FileItem {
    /// `const kind name = value;`, or with `constexpr`.
    Constant {
        attributes: Vec<Attribute>,
        kind: Kind,
        name: Name,
        value: Expression,
    },
    Task(TaskDeclaration),
}

/// An attribute, as `[[tapa::pipeline(2)]]`: it is accepted and ignored.
#[derive(Drop)]
pub struct Attribute {
    pub name: Name,
    pub arguments: AttributeArguments,
}

/// The contents of the parentheses of an attribute, if it has any.
#[derive(Drop)]
pub enum AttributeArguments {
    /// There are no parentheses.
    Absent,
    Listed(Vec<AttributeArgument>),
}

/// An argument of an attribute.
#[derive(Drop)]
pub enum AttributeArgument {
    Literal(Kind, u64),
    Str,
    Name(Name),
}

/// `void name(parameters) { .. }`.
#[derive(Drop)]
pub struct TaskDeclaration {
    pub attributes: Vec<Attribute>,
    pub name: Name,
    pub parameters: Vec<Parameter>,
    pub body: TaskBody,
    /// The brace that closes the body.
    pub end: Place,
}

/// A parameter of a task, with its name.
#[derive(Drop)]
pub enum Parameter {
    /// `tapa::istream<kind>& name`.
    InputStream(Kind, Name),
    /// `tapa::ostream<kind>& name`.
    OutputStream(Kind, Name),
    /// `tapa::mmap<kind> name`, or with `const` before the kind.
    Memory {
        constant: bool,
        kind: Kind,
        name: Name,
    },
    Scalar {
        constant: bool,
        kind: Kind,
        name: Name,
    },
}

/// A task's body: the statements of a leaf, or what an upper task declares and invokes.
#[derive(Drop)]
pub enum TaskBody {
    Leaf(Vec<Statement>),
    /// The task's own streams, and what its `tapa::task()` invokes.
    Upper {
        streams: Vec<StreamDeclaration>,
        invocations: Vec<Invocation>,
    },
}

/// `tapa::stream<kind, depth> name, name;`. The strings that may follow the names are not kept.
#[derive(Drop)]
pub struct StreamDeclaration {
    pub kind: Kind,
    pub depth: Option<Count>,
    pub names: Vec<Name>,
}

/// A stream's depth or an array's number of cells.
#[derive(Drop)]
pub struct Count {
    /// The first lexeme.
    pub place: Place,
    pub value: CountValue,
}

/// A number that a declaration asks for: written out, a constant's name, or an expression in parentheses.
#[derive(Drop)]
pub enum CountValue {
    Literal(Kind, u64),
    Name(Name),
    Parenthesized(Expression),
}

/// `.invoke<tapa::mode>(task, argument, argument)`.
#[derive(Drop)]
pub struct Invocation {
    pub mode: Option<Name>,
    pub task: Name,
    pub arguments: Vec<InvocationArgument>,
}

/// An argument of an invocation.
#[derive(Drop)]
pub struct InvocationArgument {
    /// The first lexeme.
    pub place: Place,
    pub value: Expression,
}

/// A statement.
#[derive(Drop)]
pub enum Statement {
    /// A statement with attributes before it, at least one; it has no further ones of its own.
    Attributed(Vec<Attribute>, Box<Statement>),
    Empty,
    Block(Vec<Statement>),
    Declare(Declaration),
    Act(Action),
    If(Expression, Box<Statement>),
    IfElse(Expression, Box<Statement>, Box<Statement>),
    While(Expression, Box<Statement>),
    For {
        head: Box<ForHead>,
        body: Box<Statement>,
    },
    /// `TAPA_WHILE_NOT_EOT(stream) body`.
    WhileNotEot(Name, Box<Statement>),
    Break(Place),
    Continue(Place),
}

/// The contents of the parentheses of a `for`.
#[derive(Drop)]
pub struct ForHead {
    pub start: ForStart,
    pub test: Option<Expression>,
    pub step: Option<Action>,
}

/// What comes before the first semicolon of a `for`.
#[derive(Drop)]
pub enum ForStart {
    Nothing,
    Declare(Declaration),
    Act(Action),
}

/// `const kind name = value, name[cells], name`.
#[derive(Drop)]
pub struct Declaration {
    pub constant: bool,
    pub kind: Kind,
    pub names: Vec<Declarator>,
}

/// A name that a declaration of a leaf declares, with what it begins with.
#[derive(Drop)]
pub enum Declarator {
    Plain(Name),
    Initialized(Name, Expression),
    Array(Name, Count),
}

/// A statement without its semicolon that is no declaration.
#[derive(Drop)]
pub enum Action {
    /// `stream.method(argument, argument)`.
    Call {
        stream: Name,
        method: Name,
        arguments: Vec<Expression>,
    },
    /// `stream << value << value`.
    Write(Name, Vec<Expression>),
    /// `stream >> target >> target`.
    Read(Name, Vec<PlaceExpression>),
    Assign {
        target: PlaceExpression,
        operator: AssignmentOperator,
        place: Place,
        value: Expression,
    },
    /// `target++` or `target--`.
    Postfix {
        target: PlaceExpression,
        step: StepOperator,
        place: Place,
    },
    /// `++target` or `--target`.
    Prefix {
        step: StepOperator,
        place: Place,
        target: PlaceExpression,
    },
}

/// A variable, or an element of an array or a memory.
#[derive(Drop)]
pub enum PlaceExpression {
    Variable(Name),
    Element(Name, Expression),
}

/// The operators `++` and `--`.
#[derive(Clone, Copy, Debug, PartialEq, Eq)]
pub enum StepOperator {
    Increment,
    Decrement,
}

/// `=`, or an operator followed by `=`.
#[derive(Clone, Copy, Debug, PartialEq, Eq)]
pub enum AssignmentOperator {
    Plain,
    Compound(Op),
}

/// An expression. Each operator has its place.
#[derive(Drop)]
pub enum Expression {
    Literal(Kind, u64),
    Boolean(bool),
    Variable(Name),
    Element(Name, Box<Expression>),
    /// `stream.method(argument, argument)`.
    Call {
        stream: Name,
        method: Name,
        arguments: Vec<Expression>,
    },
    /// `nullptr`, which is legal only as an argument of a method.
    Nullptr,
    /// `kind(value)`.
    Construct(Kind, Box<Expression>),
    /// `static_cast<kind>(value)`.
    StaticCast(Kind, Box<Expression>),
    /// `(kind) value`.
    Cast(Kind, Box<Expression>),
    Parenthesized(Box<Expression>),
    Prefix(PrefixOperator, Place, Box<Expression>),
    Binary(BinaryOperator, Place, Box<Expression>, Box<Expression>),
    /// `test ? first : second`, with the place of the `?`.
    Conditional(Place, Box<Expression>, Box<Expression>, Box<Expression>),
}

/// The operators before one operand (ISO C++, unary expressions).
#[derive(Clone, Copy, Debug, PartialEq, Eq)]
pub enum PrefixOperator {
    Negate,
    Plus,
    /// `~`.
    Complement,
    /// `!`.
    Not,
}

/// The operators between two operands.
#[derive(Clone, Copy, Debug, PartialEq, Eq)]
pub enum BinaryOperator {
    LogicalOr,
    LogicalAnd,
    Value(Op),
}
