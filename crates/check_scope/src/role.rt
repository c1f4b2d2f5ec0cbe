// The roles that a name may be used in, and which entities fit each.
ghost use Rattle.std.specs.Prelude.{◌≡◌};
ghost use Rattle.check_scope.specs.Roles as role;

use crate::entity::Entity;

/// What a name that is used must be declared as.
#[derive(Clone, Copy, PartialEq, Eq, Debug)]
pub enum Role {
    /// A constant, a variable or a scalar parameter.
    Scalar,
    /// An array or a memory.
    Cells,
    Constant,
    /// A variable that may be assigned.
    FreeVariable,
    /// An array or a memory whose cells may be assigned.
    FreeCells,
    /// A stream that the task reads.
    Input,
    /// A stream that the task writes.
    Output,
    /// Nothing fits.
    Nothing,
}

impl Role {
    pub(crate) fn fits(self, entity: Entity) -> bool
        ensures { result ≡ role.fits self entity }
    {
        match self {
            Role::Scalar => matches!(entity, Entity::Constant { .. } | Entity::Variable { .. }),
            Role::Cells => matches!(entity, Entity::Array { .. } | Entity::Memory { .. }),
            Role::Constant => matches!(entity, Entity::Constant { .. }),
            Role::FreeVariable => matches!(entity, Entity::Variable { free: true, .. }),
            Role::FreeCells => matches!(
                entity,
                Entity::Array { free: true, .. } | Entity::Memory { free: true, .. }
            ),
            Role::Input => matches!(entity, Entity::Stream { writes: false, .. }),
            Role::Output => matches!(entity, Entity::Stream { writes: true, .. }),
            Role::Nothing => false,
        }
    }
}
