//! The rules for exception handlers.

ghost use Rattle.std.specs.Prelude.{◌≡◌};
ghost use Rattle.jc_view.specs.Lent.{handler_of};
ghost use Rattle.jc_code.specs.CodeRules.{breaks_s23, breaks_s24};

use crate::scope::Scope;
use jc_view::{ConstantKind, ExceptionHandler};

pub(crate) fn breaks_s23(scope: &Scope, handler: ExceptionHandler) -> bool
    ensures { result ≡ breaks_s23 scope.now (handler_of handler) }
{
    let start = usize::from(handler.start_pc);
    let end = usize::from(handler.end_pc);
    !scope.is_start(start)
        || !scope.is_start(usize::from(handler.handler_pc))
        || !(scope.is_start(end) || end == scope.size)
        || start >= end
}

pub(crate) fn breaks_s24(scope: &Scope, handler: ExceptionHandler) -> bool
    ensures { result ≡ breaks_s24 scope.now (handler_of handler) }
{
    handler.catch_type.0 != 0
        && !scope
            .class()
            .is_entry(ConstantKind::Class, handler.catch_type)
}
