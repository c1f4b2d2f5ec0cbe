// The rules of a call of a stream's method as a statement, and its flat code.
ghost use Rattle.std.specs.Prelude.{◌≡◌, ◌++◌, ◌∷◌, [], map};
ghost use Rattle.tapa_syntax.specs.Flat.{flat_statement};
ghost use Rattle.check_scope.specs.Answers.{ScopeAnswers};
ghost use Rattle.check_expression.specs.Expressions.{call_faults};
ghost use Rattle.check_expression.specs.Methods.{method_view};
ghost use Rattle.check_scope.specs.Scopes.{kind_of_entity, number_of, entity_of};
ghost use Rattle.check_leaf.specs.Statements as task;

use check_expression::{StreamMethod, check_call, check_wanted};
use check_scope::{CheckFault, Scope};
use std::alloc::Global;
use tapa_syntax::{Expr, Name, Stmt};

/// A call of a stream's method as a statement.
pub(crate) fn called<'a>(
    alloc: Global,
    scope: &Scope,
    stream: &Name,
    name: &Name,
    method: Option<StreamMethod<'a>>,
) -> Result<Stmt, CheckFault>
    ensures { ScopeAnswers flat_statement result
        (call_faults (entity_of stream.now.text scope.now) (method_view method.entry) stream.now name.now ++ task.given_faults scope.now (method_view method.entry))
        (task.called scope.now (kind_of_entity (entity_of stream.now.text scope.now)) (number_of (entity_of stream.now.text scope.now)) (method_view method.entry)) }
{
    let call = check_call(scope, stream, name, method)?;
    match call.method {
        StreamMethod::Read => Ok(Stmt::Discard(Expr::Read(call.stream))),
        StreamMethod::Peek => Ok(Stmt::Discard(Expr::Peek(call.stream))),
        StreamMethod::Eot => Ok(Stmt::Discard(Expr::Eot(call.stream))),
        StreamMethod::Open => Ok(Stmt::Open(call.stream)),
        StreamMethod::Close => Ok(Stmt::Close(call.stream)),
        StreamMethod::Write(value) => Ok(Stmt::Write(
            call.stream,
            check_wanted(alloc, scope, call.kind, value)?,
        )),
    }
}
