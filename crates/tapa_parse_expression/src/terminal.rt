//! What a lexeme is to the grammar, and what its terminals mean.

ghost use Rattle.std.specs.Prelude.{◌≡◌, map};
ghost use Rattle.std.specs.List.{list_all};
ghost use Rattle.std.specs.Char.{is_ascii};
ghost use Rattle.tapa_syntax.specs.Symbols as symbols;
ghost use Rattle.tapa_syntax.specs.Grammar as grammar;
ghost use Rattle.tapa_parse_expression.specs.Reading as spec;

use tapa_base::{Kind, Op};
use tapa_syntax::{BinaryOperator, LexKind, Lexeme, PrefixOperator, Terminal};

const WORDS: [(&[u8], Terminal); 36] = [
    (b"istream", Terminal::Istream),
    (b"ostream", Terminal::Ostream),
    (b"stream", Terminal::Stream),
    (b"mmap", Terminal::Mmap),
    (b"task", Terminal::Task),
    (b"invoke", Terminal::Invoke),
    (b"const", Terminal::Const),
    (b"constexpr", Terminal::Constexpr),
    (b"void", Terminal::Void),
    (b"tapa", Terminal::Tapa),
    (b"std", Terminal::Std),
    (b"if", Terminal::If),
    (b"else", Terminal::Else),
    (b"while", Terminal::While),
    (b"for", Terminal::For),
    (b"TAPA_WHILE_NOT_EOT", Terminal::WhileNotEot),
    (b"break", Terminal::Break),
    (b"continue", Terminal::Continue),
    (b"nullptr", Terminal::Nullptr),
    (b"true", Terminal::True),
    (b"false", Terminal::False),
    (b"static_cast", Terminal::StaticCast),
    (b"bool", Terminal::Bool),
    (b"int", Terminal::Int),
    (b"short", Terminal::Short),
    (b"long", Terminal::Long),
    (b"unsigned", Terminal::Unsigned),
    (b"size_t", Terminal::SizeT),
    (b"int8_t", Terminal::Int8),
    (b"uint8_t", Terminal::Uint8),
    (b"int16_t", Terminal::Int16),
    (b"uint16_t", Terminal::Uint16),
    (b"int32_t", Terminal::Int32),
    (b"uint32_t", Terminal::Uint32),
    (b"int64_t", Terminal::Int64),
    (b"uint64_t", Terminal::Uint64),
];

/// Reserved words of no production.
const OTHER_WORDS: [(&[u8], Terminal); 26] = [
    (b"char", Terminal::Reserved),
    (b"signed", Terminal::Reserved),
    (b"float", Terminal::Reserved),
    (b"double", Terminal::Reserved),
    (b"struct", Terminal::Reserved),
    (b"class", Terminal::Reserved),
    (b"union", Terminal::Reserved),
    (b"enum", Terminal::Reserved),
    (b"return", Terminal::Reserved),
    (b"switch", Terminal::Reserved),
    (b"case", Terminal::Reserved),
    (b"default", Terminal::Reserved),
    (b"do", Terminal::Reserved),
    (b"goto", Terminal::Reserved),
    (b"auto", Terminal::Reserved),
    (b"using", Terminal::Reserved),
    (b"typedef", Terminal::Reserved),
    (b"template", Terminal::Reserved),
    (b"static", Terminal::Reserved),
    (b"extern", Terminal::Reserved),
    (b"inline", Terminal::Reserved),
    (b"namespace", Terminal::Reserved),
    (b"new", Terminal::Reserved),
    (b"delete", Terminal::Reserved),
    (b"this", Terminal::Reserved),
    (b"sizeof", Terminal::Reserved),
];

const SIGNS: [(&[u8], Terminal); 45] = [
    (b"(", Terminal::LeftParen),
    (b")", Terminal::RightParen),
    (b"{", Terminal::LeftBrace),
    (b"}", Terminal::RightBrace),
    (b"[", Terminal::LeftBracket),
    (b"]", Terminal::RightBracket),
    (b"<", Terminal::Less),
    (b">", Terminal::Greater),
    (b",", Terminal::Comma),
    (b";", Terminal::Semicolon),
    (b":", Terminal::Colon),
    (b"?", Terminal::Question),
    (b".", Terminal::Dot),
    (b"=", Terminal::Assign),
    (b"+", Terminal::Plus),
    (b"-", Terminal::Minus),
    (b"*", Terminal::Star),
    (b"/", Terminal::Slash),
    (b"%", Terminal::Percent),
    (b"&", Terminal::Ampersand),
    (b"|", Terminal::Bar),
    (b"^", Terminal::Caret),
    (b"~", Terminal::Tilde),
    (b"!", Terminal::Exclamation),
    (b"<<=", Terminal::ShiftLeftAssign),
    (b">>=", Terminal::ShiftRightAssign),
    (b"::", Terminal::Scope),
    (b"<<", Terminal::ShiftLeft),
    (b">>", Terminal::ShiftRight),
    (b"<=", Terminal::LessEqual),
    (b">=", Terminal::GreaterEqual),
    (b"==", Terminal::Equal),
    (b"!=", Terminal::NotEqual),
    (b"&&", Terminal::And),
    (b"||", Terminal::Or),
    (b"++", Terminal::Increment),
    (b"--", Terminal::Decrement),
    (b"+=", Terminal::PlusAssign),
    (b"-=", Terminal::MinusAssign),
    (b"*=", Terminal::StarAssign),
    (b"/=", Terminal::SlashAssign),
    (b"%=", Terminal::PercentAssign),
    (b"&=", Terminal::AmpersandAssign),
    (b"|=", Terminal::BarAssign),
    (b"^=", Terminal::CaretAssign),
];

fn look_up(otherwise: Terminal, mut table: &[(&[u8], Terminal)], text: &[u8]) -> Terminal
    ensures { result ≡ symbols.look_up otherwise (map (λ entry. (entry.0.now, entry.1)) table.entry.now) text.now }
{
    while let [entry, rest @ ..] = table {
        if entry.0 == text {
            return entry.1;
        }
        table = rest;
    }
    otherwise
}

#[tactic(auto, unfolding(tapa_syntax::specs::Symbols::word_terminal))]
fn word_terminal(text: &[u8]) -> Terminal
    ensures { result ≡ symbols.word_terminal text.now }
{
    look_up(look_up(Terminal::Name, &OTHER_WORDS, text), &WORDS, text)
}

#[tactic(auto, unfolding(tapa_syntax::specs::Symbols::sign_terminal))]
fn sign_terminal(text: &[u8]) -> Terminal
    ensures { result ≡ symbols.sign_terminal text.now }
{
    look_up(Terminal::Reserved, &SIGNS, text)
}

fn is_ascii(text: &[u8]) -> bool
    ensures { result ≡ list_all is_ascii text.now }
{
    text.iter().all(|byte| byte.is_ascii())
}

/// The lexeme's slice of the source, or nothing where the source has no such slice.
#[tactic(auto, unfolding(tapa_syntax::specs::Symbols::text_of))]
pub fn text_of<'a>(source: &'a [u8], lexeme: &Lexeme) -> &'a [u8]
    ensures { result.now ≡ symbols.text_of source.now lexeme.now }
{
    let from = lexeme.from as usize;
    let to = lexeme.to as usize;
    if from <= to && to <= source.len() {
        &source[from..to]
    } else {
        &[]
    }
}

/// What a lexeme of the source is to the grammar; a slice that isn't ASCII is no word of it.
#[tactic(auto, unfolding(tapa_syntax::specs::Symbols::symbol_of))]
pub fn terminal_of(source: &[u8], lexeme: &Lexeme) -> Terminal
    ensures { result ≡ (symbols.symbol_of source.now lexeme.now).terminal }
{
    let text = text_of(source, lexeme);
    if !is_ascii(text) {
        return Terminal::Reserved;
    }
    match lexeme.kind {
        LexKind::Word => word_terminal(text),
        LexKind::Literal { .. } => Terminal::Literal,
        LexKind::Str => Terminal::Str,
        LexKind::Punct => sign_terminal(text),
    }
}

/// Whether a terminal may be a name of the source: the words of streams, memories and tasks are reserved only after `tapa::`
/// and after a dot.
pub fn is_name(terminal: Terminal) -> bool
    ensures { result ≡ grammar.is_name terminal }
{
    matches!(
        terminal,
        Terminal::Name
            | Terminal::Istream
            | Terminal::Ostream
            | Terminal::Stream
            | Terminal::Mmap
            | Terminal::Task
            | Terminal::Invoke
    )
}

/// The kinds of the words that say their width.
pub(crate) fn sized_kind(terminal: Terminal) -> Option<Kind>
    ensures { result ≡ grammar.sized_kind terminal }
{
    match terminal {
        Terminal::Int8 => Some(Kind::I8),
        Terminal::Uint8 => Some(Kind::U8),
        Terminal::Int16 => Some(Kind::I16),
        Terminal::Uint16 => Some(Kind::U16),
        Terminal::Int32 => Some(Kind::I32),
        Terminal::Uint32 => Some(Kind::U32),
        Terminal::Int64 => Some(Kind::I64),
        Terminal::Uint64 => Some(Kind::U64),
        _ => None,
    }
}

fn word_kind(terminal: Terminal) -> Option<Kind>
    ensures { result ≡ grammar.word_kind terminal }
{
    match terminal {
        Terminal::Bool => Some(Kind::Bool),
        Terminal::Int => Some(Kind::I32),
        Terminal::Short => Some(Kind::I16),
        Terminal::Long => Some(Kind::I64),
        Terminal::Unsigned => Some(Kind::U32),
        Terminal::SizeT => Some(Kind::U64),
        _ => None,
    }
}

/// The kind of a type of one word, if it is one.
pub fn one_kind(terminal: Terminal) -> Option<Kind>
    ensures { result ≡ spec.one_kind terminal }
{
    match word_kind(terminal) {
        Some(kind) => Some(kind),
        None => sized_kind(terminal),
    }
}

pub(crate) fn prefix_operator(terminal: Terminal) -> Option<PrefixOperator>
    ensures { result ≡ grammar.prefix_operator_of terminal }
{
    match terminal {
        Terminal::Minus => Some(PrefixOperator::Negate),
        Terminal::Plus => Some(PrefixOperator::Plus),
        Terminal::Tilde => Some(PrefixOperator::Complement),
        Terminal::Exclamation => Some(PrefixOperator::Not),
        _ => None,
    }
}

pub(crate) fn binary_operator(terminal: Terminal) -> Option<BinaryOperator>
    ensures { result ≡ grammar.binary_operator_of terminal }
{
    match terminal {
        Terminal::Or => Some(BinaryOperator::LogicalOr),
        Terminal::And => Some(BinaryOperator::LogicalAnd),
        Terminal::Bar => Some(BinaryOperator::Value(Op::Or)),
        Terminal::Caret => Some(BinaryOperator::Value(Op::Xor)),
        Terminal::Ampersand => Some(BinaryOperator::Value(Op::And)),
        Terminal::Equal => Some(BinaryOperator::Value(Op::Eq)),
        Terminal::NotEqual => Some(BinaryOperator::Value(Op::Ne)),
        Terminal::Less => Some(BinaryOperator::Value(Op::Lt)),
        Terminal::LessEqual => Some(BinaryOperator::Value(Op::Le)),
        Terminal::Greater => Some(BinaryOperator::Value(Op::Gt)),
        Terminal::GreaterEqual => Some(BinaryOperator::Value(Op::Ge)),
        Terminal::ShiftLeft => Some(BinaryOperator::Value(Op::Shl)),
        Terminal::ShiftRight => Some(BinaryOperator::Value(Op::Shr)),
        Terminal::Plus => Some(BinaryOperator::Value(Op::Add)),
        Terminal::Minus => Some(BinaryOperator::Value(Op::Sub)),
        Terminal::Star => Some(BinaryOperator::Value(Op::Mul)),
        Terminal::Slash => Some(BinaryOperator::Value(Op::Div)),
        Terminal::Percent => Some(BinaryOperator::Value(Op::Rem)),
        _ => None,
    }
}

pub(crate) fn binds_at(operator: BinaryOperator) -> u8
    ensures { result ≡ grammar.binds_at operator }
{
    match operator {
        BinaryOperator::Value(Op::Mul | Op::Div | Op::Rem) => 0,
        BinaryOperator::Value(Op::Add | Op::Sub) => 1,
        BinaryOperator::Value(Op::Shl | Op::Shr) => 2,
        BinaryOperator::Value(Op::Lt | Op::Le | Op::Gt | Op::Ge) => 3,
        BinaryOperator::Value(Op::Eq | Op::Ne) => 4,
        BinaryOperator::Value(Op::And) => 5,
        BinaryOperator::Value(Op::Xor) => 6,
        BinaryOperator::Value(Op::Or) => 7,
        BinaryOperator::LogicalAnd => 8,
        BinaryOperator::LogicalOr => 9,
    }
}
