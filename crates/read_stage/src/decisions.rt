// The variables that are decisions.
ghost use Rattle.std.specs.Prelude.{◌≡◌, IfOk};
ghost use Rattle.read_json.specs.Steps.{Gives};
ghost use Rattle.read_stage.specs.Decisions.{is_decision, decisions_from, decisions_at};

use crate::role::Role;
use base_num::{List, Memory};
use problem::{MOST_DECISIONS, Part, Place, RefusalKind};
use read_json::ReadRefusal;
use std::alloc::Global;

impl Role {
    fn is_decision(self) -> bool
        ensures { result ≡ is_decision self }
    {
        match self {
            Role::Free | Role::Outgoing => true,
            Role::Incoming | Role::Random => false,
        }
    }
}

fn all_decisions(alloc: Global, roles: &[Role]) -> Result<List<usize>, Memory>
    ensures { IfOk result (λ l. l ≡ decisions_from 0 roles.now) }
{
    let mut found = List::new(alloc);
    for (variable, role) in roles.iter().enumerate() {
        if role.is_decision() {
            found.push(variable)?;
        }
    }
    Ok(found)
}

/// The numbers of the variables that are neither incoming states nor random: TooLarge for more than 200.
#[tactic(auto, unfolding(crate::specs::Decisions::decisions_at))]
pub(crate) fn decisions(alloc: Global, p: u32, roles: &[Role]) -> Result<List<usize>, ReadRefusal>
    ensures { Gives (λ l. l) result (decisions_at p roles.now) }
{
    let found = all_decisions(alloc, roles)?;
    if found.len() > MOST_DECISIONS {
        let place = Place::new(Part::Subproblem, p, 0, 0);
        return Err(ReadRefusal::Refused(RefusalKind::TooLarge.at(place)));
    }
    Ok(found)
}
