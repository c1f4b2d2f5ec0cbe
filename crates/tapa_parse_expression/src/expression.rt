//! Expressions.

ghost use Rattle.std.specs.Prelude.{◌≡◌, List, map};
ghost use Rattle.tapa_syntax.specs.Symbols.{Symbol};
ghost use Rattle.tapa_syntax.specs.Grammar as grammar;
ghost use Rattle.tapa_syntax.specs.Trees as view;
ghost use Rattle.tapa_parse_expression.specs.Readers.{Gives};
ghost use Rattle.tapa_parse_expression.specs.Reading as spec;

use crate::fault::{Fault, ParseCode};
use crate::parser::Parser;
use crate::terminal::{binary_operator, binds_at, is_name, prefix_operator};
use std::alloc::Global;
use tapa_syntax::{BinaryOperator, Expression, Name, PrefixOperator, Terminal};

const OR_LEVEL: u8 = 10;

/// One more operator.
#[tactic(auto, unfolding(crate::specs::Reading::count))]
fn count(operators: u32) -> Result<u32, Fault>
    ensures { (i : List Symbol) → Gives (λ x. x) result i (spec.count operators i) }
{
    if operators == 0 {
        return Err(Fault::Refused(ParseCode::P2));
    }
    Ok(operators - 1)
}

impl<'a> Parser<'a> {
    // The operator of this level that comes next.
    #[tactic(auto, unfolding(crate::specs::Reading::operator_of))]
    fn operator(&self, level: u8) -> Option<BinaryOperator>
        ensures { result ≡ spec.operator_of level self.now }
    {
        match binary_operator(self.next()) {
            Some(operator) if binds_at(operator) == level => Some(operator),
            _ => None,
        }
    }

    /// An expression in parentheses, which are a level; `levels` more levels may be opened.
    #[cycle(expression)]
    #[tactic(auto, unfolding(crate::specs::Reading::in_parentheses))]
    pub fn in_parentheses(&mut self, levels: u32, operators: &mut u32) -> Result<Expression, Fault>
        ensures { Gives (λ e. (view.expression e, operators.new)) result self.new (spec.in_parentheses (spec.below levels) operators.old self.old) }
    {
        let levels = self.open(Terminal::LeftParen, levels)?;
        let e = self.expression(levels, operators)?;
        self.expect(Terminal::RightParen)?;
        Ok(e)
    }

    /// An expression in brackets, which are a level.
    #[cycle(expression)]
    #[tactic(auto, unfolding(crate::specs::Reading::in_brackets))]
    pub fn in_brackets(&mut self, levels: u32, operators: &mut u32) -> Result<Expression, Fault>
        ensures { Gives (λ e. (view.expression e, operators.new)) result self.new (spec.in_brackets (spec.below levels) operators.old self.old) }
    {
        let levels = self.open(Terminal::LeftBracket, levels)?;
        let e = self.expression(levels, operators)?;
        self.expect(Terminal::RightBracket)?;
        Ok(e)
    }

    /// What a method may be called with: an expression or `nullptr`.
    #[cycle(expression)]
    #[tactic(auto, unfolding(crate::specs::Reading::argument))]
    pub fn argument(&mut self, levels: u32, operators: &mut u32) -> Result<Expression, Fault>
        ensures { Gives (λ e. (view.expression e, operators.new)) result self.new (spec.argument (spec.at levels) operators.old self.old) }
    {
        if self.sees(Terminal::Nullptr) {
            self.skip();
            return Ok(Expression::Nullptr);
        }
        self.expression(levels, operators)
    }

    // At least one.
    #[cycle(expression)]
    #[tactic(auto, unfolding(crate::specs::Reading::some_arguments, crate::specs::Reading::more_arguments))]
    fn some_arguments(&mut self, levels: u32, operators: &mut u32) -> Result<Vec<Expression>, Fault>
        ensures { Gives (λ es. (map view.expression es.items, operators.new)) result self.new (spec.some_arguments (spec.at levels) operators.old self.old) }
    {
        let mut found = Vec::new(self.alloc());
        found.push(self.argument(levels, operators)?)?;
        for _turn in 0..self.left() {
            if !self.sees(Terminal::Comma) {
                return Ok(found);
            }
            self.skip();
            found.push(self.argument(levels, operators)?)?;
        }
        Ok(found)
    }

    #[cycle(expression)]
    #[tactic(auto, unfolding(crate::specs::Reading::any_arguments))]
    fn any_arguments(&mut self, levels: u32, operators: &mut u32) -> Result<Vec<Expression>, Fault>
        ensures { Gives (λ es. (map view.expression es.items, operators.new)) result self.new (spec.any_arguments (spec.at levels) operators.old self.old) }
    {
        if self.sees(Terminal::RightParen) {
            Ok(Vec::new(self.alloc()))
        } else {
            self.some_arguments(levels, operators)
        }
    }

    #[cycle(expression)]
    #[tactic(auto, unfolding(crate::specs::Reading::arguments))]
    fn arguments(&mut self, levels: u32, operators: &mut u32) -> Result<Vec<Expression>, Fault>
        ensures { Gives (λ es. (map view.expression es.items, operators.new)) result self.new (spec.arguments (spec.below levels) operators.old self.old) }
    {
        let levels = self.open(Terminal::LeftParen, levels)?;
        let found = self.any_arguments(levels, operators)?;
        self.expect(Terminal::RightParen)?;
        Ok(found)
    }

    // What begins with a name.
    #[cycle(expression)]
    #[tactic(auto, unfolding(crate::specs::Reading::named))]
    fn named(&mut self, levels: u32, operators: &mut u32) -> Result<Expression, Fault>
        ensures { Gives (λ e. (view.expression e, operators.new)) result self.new (spec.named (spec.below levels) operators.old self.old) }
    {
        let name = self.name()?;
        match self.next() {
            Terminal::Dot => {
                self.skip();
                let method = self.plain_name()?;
                let arguments = self.arguments(levels, operators)?;
                Ok(Expression::Call {
                    stream: name,
                    method,
                    arguments,
                })
            }
            Terminal::LeftBracket => {
                let index = self.in_brackets(levels, operators)?;
                Ok(Expression::Element(name, Box::new(self.alloc(), index)?))
            }
            _ => Ok(Expression::Variable(name)),
        }
    }

    #[cycle(expression)]
    #[tactic(auto, unfolding(crate::specs::Reading::constructed))]
    fn constructed(&mut self, levels: u32, operators: &mut u32) -> Result<Expression, Fault>
        ensures { Gives (λ e. (view.expression e, operators.new)) result self.new (spec.constructed (spec.below levels) operators.old self.old) }
    {
        let kind = self.one()?;
        let e = self.in_parentheses(levels, operators)?;
        Ok(Expression::Construct(kind, Box::new(self.alloc(), e)?))
    }

    #[cycle(expression)]
    #[tactic(auto, unfolding(crate::specs::Reading::statically_cast))]
    fn statically_cast(&mut self, levels: u32, operators: &mut u32) -> Result<Expression, Fault>
        ensures { Gives (λ e. (view.expression e, operators.new)) result self.new (spec.statically_cast (spec.below levels) operators.old self.old) }
    {
        self.skip();
        self.expect(Terminal::Less)?;
        let kind = self.kind()?;
        self.expect(Terminal::Greater)?;
        let e = self.in_parentheses(levels, operators)?;
        Ok(Expression::StaticCast(kind, Box::new(self.alloc(), e)?))
    }

    #[cycle(expression)]
    #[tactic(auto, unfolding(crate::specs::Reading::primary))]
    fn primary(&mut self, levels: u32, operators: &mut u32) -> Result<Expression, Fault>
        ensures { Gives (λ e. (view.expression e, operators.new)) result self.new (spec.primary (spec.below levels) operators.old self.old) }
    {
        if is_name(self.next()) {
            return self.named(levels, operators);
        }
        match self.next() {
            Terminal::Literal => {
                let (kind, value) = self.literal()?;
                Ok(Expression::Literal(kind, value))
            }
            Terminal::True => {
                self.skip();
                Ok(Expression::Boolean(true))
            }
            Terminal::False => {
                self.skip();
                Ok(Expression::Boolean(false))
            }
            Terminal::StaticCast => self.statically_cast(levels, operators),
            _ => self.constructed(levels, operators),
        }
    }

    #[cycle(expression)]
    #[tactic(auto, unfolding(crate::specs::Reading::parenthesis))]
    fn parenthesis(&mut self, levels: u32, operators: &mut u32) -> Result<Expression, Fault>
        ensures { Gives (λ e. (view.expression e, operators.new)) result self.new (spec.parenthesis (spec.below levels) operators.old self.old) }
    {
        let e = self.in_parentheses(levels, operators)?;
        Ok(Expression::Parenthesized(Box::new(self.alloc(), e)?))
    }

    // The parenthesis of a cast is open over its operand.
    #[cycle(expression)]
    #[tactic(auto, unfolding(crate::specs::Reading::converted))]
    fn converted(&mut self, levels: u32, operators: &mut u32) -> Result<Expression, Fault>
        ensures { Gives (λ e. (view.expression e, operators.new)) result self.new (spec.converted (spec.below levels) operators.old self.old) }
    {
        let levels = self.open(Terminal::LeftParen, levels)?;
        let kind = self.kind()?;
        self.expect(Terminal::RightParen)?;
        let e = self.unary(levels, operators)?;
        Ok(Expression::Cast(kind, Box::new(self.alloc(), e)?))
    }

    #[cycle(expression)]
    #[tactic(auto, unfolding(crate::specs::Reading::prefixed))]
    fn prefixed(
        &mut self,
        operator: PrefixOperator,
        levels: u32,
        operators: &mut u32,
    ) -> Result<Expression, Fault>
        ensures { Gives (λ e. (view.expression e, operators.new)) result self.new (spec.prefixed (spec.below levels) operator operators.old self.old) }
    {
        *operators = count(*operators)?;
        let levels = self.enter(levels)?;
        let place = self.place();
        self.skip();
        let e = self.unary(levels, operators)?;
        Ok(Expression::Prefix(operator, place, Box::new(self.alloc(), e)?))
    }

    #[cycle(expression)]
    #[tactic(auto, unfolding(crate::specs::Reading::unary_with))]
    fn unary(&mut self, levels: u32, operators: &mut u32) -> Result<Expression, Fault>
        ensures { Gives (λ e. (view.expression e, operators.new)) result self.new ((spec.at levels).unary operators.old self.old) }
    {
        if let Some(operator) = prefix_operator(self.next()) {
            return self.prefixed(operator, levels, operators);
        }
        if !self.sees(Terminal::LeftParen) {
            return self.primary(levels, operators);
        }
        if self.begins_cast() {
            self.converted(levels, operators)
        } else {
            self.parenthesis(levels, operators)
        }
    }

    /// An expression whose operators, outside of parentheses and brackets, bind at levels below this one, from 0 for products to
    /// 9 for `||`.
    #[cycle(expression)]
    #[tactic(auto, unfolding(crate::specs::Reading::level))]
    pub fn level(
        &mut self,
        level: u8,
        levels: u32,
        operators: &mut u32,
    ) -> Result<Expression, Fault>
        ensures { Gives (λ e. (view.expression e, operators.new)) result self.new (spec.level ((spec.at levels).unary) level operators.old self.old) }
    {
        if level == 0 {
            return self.unary(levels, operators);
        }
        let left = self.level(level - 1, levels, operators)?;
        self.chain(level - 1, levels, left, operators)
    }

    // The operators of one level and their operands.
    #[cycle(expression)]
    #[tactic(auto, unfolding(crate::specs::Reading::chain, crate::specs::Reading::chain_of))]
    fn chain(
        &mut self,
        level: u8,
        levels: u32,
        left: Expression,
        operators: &mut u32,
    ) -> Result<Expression, Fault>
        ensures { Gives (λ e. (view.expression e, operators.new)) result self.new (spec.chain_of (spec.level ((spec.at levels).unary) level) level (view.expression left) operators.old self.old) }
    {
        let mut left = left;
        for _turn in 0..self.left() {
            let Some(operator) = self.operator(level) else {
                return Ok(left);
            };
            let first = Box::new(self.alloc(), left)?;
            *operators = count(*operators)?;
            let place = self.place();
            self.skip();
            let right = self.level(level, levels, operators)?;
            let second = Box::new(self.alloc(), right)?;
            left = Expression::Binary(operator, place, first, second);
        }
        Ok(left)
    }

    // An expression in a box.
    #[cycle(expression)]
    fn boxed(&mut self, levels: u32, operators: &mut u32) -> Result<Box<Expression>, Fault>
        ensures { Gives (λ e. (view.expression e.value, operators.new)) result self.new ((spec.at levels).expression operators.old self.old) }
    {
        let e = self.expression(levels, operators)?;
        Ok(Box::new(self.alloc(), e)?)
    }

    #[cycle(expression)]
    #[tactic(auto, unfolding(crate::specs::Reading::arms))]
    fn arms(
        &mut self,
        levels: u32,
        test: Box<Expression>,
        operators: &mut u32,
    ) -> Result<Expression, Fault>
        ensures { Gives (λ e. (view.expression e, operators.new)) result self.new (spec.arms (spec.below levels) (view.expression test.value) operators.old self.old) }
    {
        *operators = count(*operators)?;
        let levels = self.enter(levels)?;
        let place = self.place();
        self.skip();
        let first = self.boxed(levels, operators)?;
        self.expect(Terminal::Colon)?;
        let second = self.boxed(levels, operators)?;
        Ok(Expression::Conditional(place, test, first, second))
    }

    /// An expression. `levels` says how many levels of nesting may be opened, `operators` how many operators are left to the
    /// expression that it is part of. One more level or operator is refused with P2, and a lexeme that goes on with no
    /// expression with P1.
    #[cycle(expression)]
    #[tactic(auto, unfolding(crate::specs::Reading::expression_with))]
    pub fn expression(&mut self, levels: u32, operators: &mut u32) -> Result<Expression, Fault>
        ensures { Gives (λ e. (view.expression e, operators.new)) result self.new ((spec.at levels).expression operators.old self.old) }
    {
        let test = self.level(OR_LEVEL, levels, operators)?;
        if self.sees(Terminal::Question) {
            let test = Box::new(self.alloc(), test)?;
            self.arms(levels, test, operators)
        } else {
            Ok(test)
        }
    }
}
