//! Types.

ghost use Rattle.std.specs.Prelude.{◌≡◌};
ghost use Rattle.tapa_parse_expression.specs.Readers.{Gives};
ghost use Rattle.tapa_parse_expression.specs.Reading as spec;

use crate::fault::{Fault, ParseCode};
use crate::parser::Parser;
use crate::terminal::{one_kind, sized_kind};
use tapa_base::Kind;
use tapa_syntax::Terminal;

impl<'a> Parser<'a> {
    #[tactic(auto, unfolding(crate::specs::Reading::sized))]
    fn sized(&mut self) -> Result<Kind, Fault>
        ensures { Gives (λ x. x) result self.new (spec.sized self.old) }
    {
        match sized_kind(self.next()) {
            Some(kind) => {
                self.skip();
                Ok(kind)
            }
            None => Err(Fault::Refused(ParseCode::P1)),
        }
    }

    /// A type of one word, which may be said to be of `std`.
    #[tactic(auto, unfolding(crate::specs::Reading::one))]
    pub(crate) fn one(&mut self) -> Result<Kind, Fault>
        ensures { Gives (λ x. x) result self.new (spec.one self.old) }
    {
        if self.sees(Terminal::Std) {
            self.skip();
            self.expect(Terminal::Scope)?;
            return self.sized();
        }
        match one_kind(self.next()) {
            Some(kind) => {
                self.skip();
                Ok(kind)
            }
            None => Err(Fault::Refused(ParseCode::P1)),
        }
    }

    // The kind of a type, from the word after `unsigned` on.
    #[tactic(auto, unfolding(crate::specs::Reading::unsigned))]
    fn unsigned(&mut self) -> Result<Kind, Fault>
        ensures { Gives (λ x. x) result self.new (spec.unsigned self.old) }
    {
        match self.next() {
            Terminal::Short => {
                self.skip();
                self.eat(Terminal::Int);
                Ok(Kind::U16)
            }
            Terminal::Long => {
                self.skip();
                self.eat(Terminal::Long);
                self.eat(Terminal::Int);
                Ok(Kind::U64)
            }
            _ => {
                self.eat(Terminal::Int);
                Ok(Kind::U32)
            }
        }
    }

    /// A type, in its longest reading. The first lexeme that goes on with none is refused with P1.
    #[tactic(auto, unfolding(crate::specs::Reading::type_name))]
    pub fn kind(&mut self) -> Result<Kind, Fault>
        ensures { Gives (λ x. x) result self.new (spec.type_name self.old) }
    {
        match self.next() {
            Terminal::Unsigned => {
                self.skip();
                self.unsigned()
            }
            Terminal::Short => {
                self.skip();
                self.eat(Terminal::Int);
                Ok(Kind::I16)
            }
            Terminal::Long => {
                self.skip();
                self.eat(Terminal::Long);
                self.eat(Terminal::Int);
                Ok(Kind::I64)
            }
            _ => self.one(),
        }
    }

    /// Whether a cast begins here, and no other expression in parentheses.
    #[tactic(auto, unfolding(crate::specs::Reading::begins_cast))]
    pub(crate) fn begins_cast(&self) -> bool
        ensures { result ≡ spec.begins_cast self.now }
    {
        if self.sees_behind(1, Terminal::Std) {
            return !self.sees_behind(4, Terminal::LeftParen);
        }
        one_kind(self.next_behind(1)).is_some() && !self.sees_behind(2, Terminal::LeftParen)
    }
}
