// The roles of a subproblem's variables.
ghost use Rattle.std.specs.Prelude.{◌≡◌, IfOk};
ghost use Rattle.read_json.specs.Steps.{Shows};
ghost use Rattle.read_stage.specs.Roles.{taken_at, unused};

use base_num::{List, Memory, Name};
use problem::{Place, Refusal, RefusalKind};
use std::alloc::Global;

/// The role of a variable.
#[derive(Clone, Copy, PartialEq, Eq)]
pub(crate) enum Role {
    /// Used neither by a state nor as a random variable.
    Free,
    /// Used as the state at the beginning of a stage.
    Incoming,
    /// Used as the state at the end of a stage.
    Outgoing,
    Random,
}

/// The variables that states and random variables use, by number.
#[derive(Drop)]
pub(crate) struct Uses {
    /// One role per variable.
    pub(crate) roles: List<Role>,
    /// One variable per state.
    pub(crate) incoming: List<usize>,
    /// One variable per state.
    pub(crate) outgoing: List<usize>,
    /// One variable per random variable.
    pub(crate) randoms: List<usize>,
    /// The names of the random variables.
    pub(crate) names: List<Name>,
}

impl Uses {
    /// None of the variables is used.
    pub(crate) fn none(alloc: Global, count: usize) -> Result<Uses, Memory>
        ensures { IfOk result (λ u. u ≡ unused count) }
    {
        Ok(Uses {
            roles: List::from_vec(vec![in alloc; Role::Free; count]?),
            incoming: List::new(alloc),
            outgoing: List::new(alloc),
            randoms: List::new(alloc),
            names: List::new(alloc),
        })
    }
}

/// Gives a variable a role, unless it has one: Duplicate.
#[tactic(auto, unfolding(crate::specs::Roles::taken_at))]
pub(crate) fn take(
    roles: &mut List<Role>,
    variable: usize,
    role: Role,
    place: Place,
) -> Result<(), Refusal>
    ensures { Shows (λ _. roles.new) result (taken_at place roles.old variable role) }
{
    match roles.as_slice().get(variable) {
        Some(Role::Free) => {
            roles.set(variable, role);
            Ok(())
        }
        _ => Err(RefusalKind::Duplicate.at(place)),
    }
}
